//! Laws of what a file spells and of its faults.
ghost use Rattle.std.specs.Prelude.{ℕ, List};
ghost use Rattle.sc_schema_json.specs.Spelling.{IsSettled};

use crate::hierarchy_law::schema_laws;
use sc_schema_names::resolution_laws;
use sc_schema_syntax::syntax_laws;
use sc_schema_types::type_laws;

/// Each file spells just one schema or has just one fault, and not both.
pub fn spelling_laws()
    ensures { (bytes : List ℕ) → IsSettled bytes }
{
    syntax_laws();
    resolution_laws();
    type_laws();
    schema_laws();
}
