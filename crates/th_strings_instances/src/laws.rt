//! Laws of the rules on strings.
ghost use Rattle.std.specs.Prelude.{◌≡◌, false, true, []};
ghost use Rattle.std.specs.Str.{bytes_eq};
ghost use Rattle.sc_clauses.specs.declared.step.Instance.{Instance as AnyInstance};
ghost use Rattle.sc_footprint.specs.Problems.{Posed, IsPosed};
ghost use Rattle.sc_footprint.specs.Theories.{IsClauseOf};
ghost use Rattle.sc_footprint.specs.Truths.{IsWorldOf, IsTrueIn};
ghost use Rattle.sc_footprint.specs.Written.{is_instance};
ghost use Rattle.th_strings_instances.specs.Instances.{HasString, string_clause};
ghost use Rattle.sc_world.specs.declared.world.World.{World as AnyWorld};

use sc_footprint::problem_laws;

/// The clause of each instance has literals of listed atoms, none of them with its negation, and is
/// true in every well-formed world of its problem; and each has a text that a log can hold.
pub fn string_laws()
    ensures lawful { (p : Posed) (i : AnyInstance) → IsPosed p → HasString p i → IsClauseOf p (string_clause p i) }
    ensures sound { (p : Posed) (i : AnyInstance) (w : AnyWorld) → IsPosed p → HasString p i → IsWorldOf p w
        → IsTrueIn p w (string_clause p i) }
    ensures written { (p : Posed) (i : AnyInstance) → IsPosed p → HasString p i → bytes_eq i.rule [] ≡ false
        → is_instance i ≡ true }
{
    problem_laws();
}
