//! Laws of the rules.
ghost use Rattle.sc_clauses.specs.declared.step.Instance.{Instance as AnyInstance};
ghost use Rattle.sc_world.specs.declared.world.World.{World as AnyWorld};
ghost use Rattle.sc_footprint.specs.Problems.{Posed, IsPosed};
ghost use Rattle.sc_footprint.specs.Theories.{IsClauseOf};
ghost use Rattle.sc_footprint.specs.Truths.{IsWorldOf, IsTrueIn};
ghost use Rattle.sc_rule_instances.specs.Instances.{HasEqual, HasSet, HasEntity, equal_clause, set_clause, entity_clause};

use sc_footprint::problem_laws;

/// The clause of each instance has literals of listed atoms, none of them with its negation, and is
/// true in every well-formed world of its problem.
pub fn rule_laws()
    ensures equal { (p : Posed) (i : AnyInstance) → IsPosed p → HasEqual p i → IsClauseOf p (equal_clause p i) }
    ensures equal_true { (p : Posed) (i : AnyInstance) (w : AnyWorld) → IsPosed p → HasEqual p i → IsWorldOf p w
        → IsTrueIn p w (equal_clause p i) }
    ensures set { (p : Posed) (i : AnyInstance) → IsPosed p → HasSet p i → IsClauseOf p (set_clause p i) }
    ensures set_true { (p : Posed) (i : AnyInstance) (w : AnyWorld) → IsPosed p → HasSet p i → IsWorldOf p w
        → IsTrueIn p w (set_clause p i) }
    ensures entity { (p : Posed) (i : AnyInstance) → IsPosed p → HasEntity p i → IsClauseOf p (entity_clause p i) }
    ensures entity_true { (p : Posed) (i : AnyInstance) (w : AnyWorld) → IsPosed p → HasEntity p i → IsWorldOf p w
        → IsTrueIn p w (entity_clause p i) }
{
    problem_laws();
}
