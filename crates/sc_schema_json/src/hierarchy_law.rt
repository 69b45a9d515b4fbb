//! Laws of the schema of declarations.
ghost use Rattle.std.specs.Prelude.{◌≡◌};
ghost use Rattle.sc_schema.specs.Declarations.{Declarations};
ghost use Rattle.sc_schema.specs.Lawful.{IsLawful};
ghost use Rattle.sc_schema.specs.declared.expanded.ExpandedSchema.{ExpandedSchema as AnyExpanded};
ghost use Rattle.sc_schema.specs.Expanded.{IsExpanded};
ghost use Rattle.sc_schema_json.specs.Above.{NoCycle};
ghost use Rattle.sc_schema_json.specs.Schemas.{action_links, IsSchemaOf};

/// What a file declares makes one schema, and a lawful one.
pub fn schema_laws()
    ensures one { (x : AnyExpanded) (s t : Declarations) → IsSchemaOf x s → IsSchemaOf x t → s ≡ t }
    ensures lawful { (x : AnyExpanded) (s : Declarations) → IsExpanded x → NoCycle (action_links x.actions)
        → IsSchemaOf x s → IsLawful s }
{}
