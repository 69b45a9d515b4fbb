//! The keys of a record, so that none comes twice.
ghost use Rattle.std.specs.Prelude.{◌≡◌, ◌∷◌, [], ◌++◌, ℕ, List, not, IfOk, IfErr, OnOk};
ghost use Rattle.sc_ast.specs.declared.expr.Expr.{Expr as AnyExpr};
ghost use Rattle.sc_lexemes.specs.declared.stop.Stop.TheVariants.{NoMemory};
ghost use Rattle.sc_lexemes.specs.Keys.{AreKeys};
ghost use Rattle.sc_lexemes.specs.Tables.{has_key};

use crate::stop::Stop;
use sc_lists::Text;
use std::alloc::Global;
use std::collections::BTreeSet;

/// The keys of a record without fields.
#[tactic(auto, using(crate::proofs::KeyLaws::empty))]
pub fn no_keys(alloc: Global) -> BTreeSet<Text>
    ensures { AreKeys result [] }
{
    BTreeSet::new(alloc)
}

/// Puts a name among the keys of a record; whether it wasn't there before.
pub(crate) fn put_key(alloc: Global, names: &mut BTreeSet<Text>, name: &str) -> Result<bool, Stop>
    ensures added { IfOk result (λ added. (fs : List (List ℕ × AnyExpr)) → AreKeys names.old fs → added
        ≡ not (has_key name.now fs)) }
    ensures keys { OnOk result ((fs : List (List ℕ × AnyExpr)) (x : AnyExpr) → AreKeys names.old fs
        → AreKeys names.new (fs ++ (name.now, x) ∷ [])) }
    ensures err { IfErr result (λ stop. stop ≡ NoMemory) }
{
    Ok(names.insert(Text::from_str(alloc, name)?)?)
}
