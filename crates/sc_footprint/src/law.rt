//! Laws of problems.
ghost use Rattle.std.specs.Prelude.{◌≡◌, ◌<◌, Contains, List, Some, true, length};
ghost use Rattle.sc_clauses.specs.Clauses.{holds};
ghost use Rattle.sc_schema.specs.declared.declarations.Env.{Env as AnyEnv};
ghost use Rattle.sc_schema.specs.Declarations.{Declarations};
ghost use Rattle.sc_sorts.specs.declared.sort.Sort.TheVariants as sorts;
ghost use Rattle.sc_world.specs.declared.world.World.{World as AnyWorld};
ghost use Rattle.sc_terms.specs.Trees.{Tree};
ghost use Rattle.sc_terms.specs.TreeSorts.{tree_sort};
ghost use Rattle.sc_terms.specs.Folds.{truth_term};
ghost use Rattle.sc_terms.specs.Values.{val, yes};
ghost use Rattle.sc_closure.specs.Judging.{IsTermOf};
ghost use Rattle.sc_closure.specs.Definitions.{inputs_of};
ghost use Rattle.sc_closure.specs.Truths.{is_true};
ghost use Rattle.sc_closure.specs.Atoms.{atoms_among, is_atom, is_bool, most_atoms, IsOverLimit};
ghost use Rattle.sc_closure.specs.Closure.{Closed};
ghost use Rattle.sc_footprint.specs.Problems.{Posed, IsPosed, AreClosed, closed_terms, goal_term, atoms, atom_number, numbered, literal_in};
ghost use Rattle.sc_footprint.specs.Truths.{truths, IsWorldOf};
ghost use Rattle.sc_footprint.specs.Theories.{IsListed, TermsHold};

use sc_closure::{closed_laws, definition_laws, terms_fit};

/// A goal has one list of closed terms, and where more atoms are closed than may be listed, that
/// list has more. What holds of each problem: its closed terms are just those of the goal, which is
/// one of them, and each is a term of its sort. Atom 1 is `true`, and the number of a listed atom is
/// that of the atom. The inputs of a closed truth value's definition are closed truth values. Closed
/// truth values are so in each world, and have a literal of a listed atom, which is true where the
/// term is. And what is proved of all terms, on which the laws of theories rest.
pub fn problem_laws()
    ensures terms { TermsHold }
    ensures one { (d : Declarations) (env : AnyEnv) (goal : Tree) (ts us : List Tree) → AreClosed d env goal ts
        → AreClosed d env goal us → ts ≡ us }
    ensures over { (d : Declarations) (env : AnyEnv) (goal : Tree) (ts : List Tree) → IsOverLimit d env goal
        → AreClosed d env goal ts → most_atoms < length (atoms_among ts) }
    ensures first { (p : Posed) → IsPosed p → numbered (atoms p) 1 ≡ Some (truth_term true) }
    ensures back { (p : Posed) (t : Tree) → IsPosed p → Contains (closed_terms p) t → is_atom t ≡ true
        → numbered (atoms p) (atom_number p t) ≡ Some t }
    ensures closed { (p : Posed) (t : Tree) → IsPosed p → Contains (closed_terms p) t
        → Closed p.schema p.env (goal_term p) t }
    ensures listed_closed { (p : Posed) (t : Tree) → IsPosed p → Closed p.schema p.env (goal_term p) t
        → Contains (closed_terms p) t }
    ensures judged { (p : Posed) (t : Tree) → IsPosed p → Contains (closed_terms p) t
        → IsTermOf p.schema p.env p.literals (tree_sort t) t }
    ensures goal { (p : Posed) → IsPosed p → Contains (closed_terms p) (goal_term p) × (is_bool (goal_term p) ≡ true) }
    ensures inputs { (p : Posed) (x t : Tree) → IsPosed p → Contains (closed_terms p) x → is_bool x ≡ true
        → Contains (inputs_of x) t → Contains (closed_terms p) t × (is_bool t ≡ true) }
    ensures valued { (p : Posed) (t : Tree) (w : AnyWorld) → IsPosed p → Contains (closed_terms p) t → is_bool t ≡ true
        → IsWorldOf p w → val t w ≡ yes (is_true t w) }
    ensures listed { (p : Posed) (t : Tree) → IsPosed p → Contains (closed_terms p) t → is_bool t ≡ true
        → IsListed (length (atoms p)) (literal_in p t) }
    ensures literals { (p : Posed) (t : Tree) (w : AnyWorld) → IsPosed p → Contains (closed_terms p) t → is_bool t
        ≡ true → IsWorldOf p w → holds (truths p w) (literal_in p t) ≡ is_true t w }
{
    closed_laws();
    definition_laws();
    terms_fit();
}
