//! Laws of orders, expansions and faults.
ghost use Rattle.sc_schema.specs.declared.resolved_schema.ResolvedSchema.{ResolvedSchema as AnySchema};
ghost use Rattle.sc_schema.specs.declared.expanded.ExpandedSchema.{ExpandedSchema as AnyExpansion};
ghost use Rattle.sc_schema.specs.Expanded.{IsExpanded};
ghost use Rattle.sc_schema.specs.Resolved.{IsResolved};
ghost use Rattle.sc_schema_types.specs.Types.{IsExpansion, IsSettled, KeepsParents};

/// The common types of a schema have an order, or one of them is the least that reaches itself. A
/// schema whose common types have an order has none that reaches itself, and it has one expansion or
/// one fault of its types, and not both. One common type at most is the least that reaches itself.
/// What an expansion names is declared, and its shapes and contexts are record types. It has the
/// entity types and actions of the schema, in the same order and with the same parents.
pub fn type_laws()
    ensures settled { (s : AnySchema) → IsResolved s → IsSettled s }
    ensures expanded { (s : AnySchema) (x : AnyExpansion) → IsResolved s → IsExpansion s x → IsExpanded x }
    ensures kept { (s : AnySchema) (x : AnyExpansion) → IsExpansion s x → KeepsParents s x }
{}
