//! Laws of what a schema file's names are looked up as, and of its unknown names.
ghost use Rattle.sc_schema_syntax.specs.declared.written_schema.WrittenSchema.{WrittenSchema as AnySchema};
ghost use Rattle.sc_schema_syntax.specs.declared.fault.SchemaFault.{SchemaFault as AnyFault};
ghost use Rattle.sc_schema_syntax.specs.WellWritten.{IsWritten};
ghost use Rattle.sc_schema.specs.declared.resolved_schema.ResolvedSchema.{ResolvedSchema as AnyResolved};
ghost use Rattle.sc_schema.specs.Resolved.{IsResolved};
ghost use Rattle.sc_schema_names.specs.Resolves.{Resolves, HasUnknown, IsSettled, IsOfName};

/// What is written resolves to just one schema or has just one fault, and not both; a fault is that
/// the name of a type or of an action is unknown. What a well-written schema resolves to names
/// what it declares, and each of its declarations has a name of its own.
#[tactic(auto, using(crate::proofs::KindsLaws::of_name))]
pub fn resolution_laws()
    ensures one { (w : AnySchema) → IsSettled w }
    ensures names { (w : AnySchema) → (fault : AnyFault) → HasUnknown w fault → IsOfName fault }
    ensures resolved { (w : AnySchema) → (s : AnyResolved) → IsWritten w → Resolves w s → IsResolved s }
{}
