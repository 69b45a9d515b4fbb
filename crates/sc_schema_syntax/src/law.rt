//! Laws of what a file spells and of its faults.
ghost use Rattle.std.specs.Prelude.{ℕ, List};
ghost use Rattle.sc_schema_syntax.specs.declared.written_schema.WrittenSchema.{WrittenSchema as AnySchema};
ghost use Rattle.sc_schema_syntax.specs.Places.{ArePlaced};
ghost use Rattle.sc_schema_syntax.specs.Syntax.{Spells, IsSettled};
ghost use Rattle.sc_schema_syntax.specs.WellWritten.{IsWritten};

/// Each file spells just one schema or has just one fault, and not both: the fault that comes first in
/// its tree, and whose path leads to a value there; the tree of a schema has none, and is of the form
/// of a schema file. In what a file spells the names of the members of an object ascend, and each is
/// one that a member there may have.
pub fn syntax_laws()
    ensures one { (bytes : List ℕ) → IsSettled bytes }
    ensures placed { (bytes : List ℕ) → ArePlaced bytes }
    ensures written { (bytes : List ℕ) → (w : AnySchema) → Spells bytes w → IsWritten w }
{}
