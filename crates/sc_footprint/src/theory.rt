//! Theories: rules whose instances are clauses that are true in every well-formed world.
ghost use Rattle.std.specs.Prelude.{◌≡◌, ◌↔◌, [], true, false, None, IfOk, IfSome, IsTrue};
ghost use Rattle.std.specs.Str.{bytes_eq};
ghost use Rattle.sc_clauses.specs.Assignments.{falsifies};
ghost use Rattle.sc_clauses.specs.Clauses.{Clause as AnyClause};
ghost use Rattle.sc_clauses.specs.declared.step.Instance.{Instance as AnyInstance};
ghost use Rattle.sc_world.specs.declared.world.World.{World};
ghost use Rattle.sc_footprint.specs.Problems.{Posed, IsPosed};
ghost use Rattle.sc_footprint.specs.Truths.{IsWorldOf, IsTrueIn};
ghost use Rattle.sc_footprint.specs.Theories.{IsClauseOf, TermsHold};
ghost use Rattle.sc_footprint.specs.Written.{is_instance};

use crate::problem::Problem;
use sc_clauses::{Assignment, Clause, Instance};
use std::alloc::{AllocError, Global};

/// Rules of problems. Each has instances, and each instance a clause. The laws of these rest on what
/// is proved of all terms, which `problem_laws` gives.
pub trait Theory {
    /// Which instances a problem has.
    ghost has_instance: { Self → Posed → AnyInstance → Type 0 };

    /// The clause of each of them.
    ghost clause_of: { Self → Posed → AnyInstance → AnyClause };

    /// Whether a problem has this instance. Want of memory is its one fault.
    fn accepts(
        &self,
        alloc: Global,
        problem: &Problem<'_>,
        instance: &Instance,
    ) -> Result<bool, AllocError>
        ensures { IfOk result (λ b. IsTrue b ↔ has_instance self.now problem.now instance.now) };

    /// An instance whose clause an assignment falsifies, or none where there is none. Want of memory is its one fault.
    fn violated(
        &self,
        alloc: Global,
        problem: &Problem<'_>,
        m: &Assignment,
    ) -> Result<Option<Instance>, AllocError>
        ensures accepted { IfOk result (λ o. IfSome o (has_instance self.now problem.now)) }
        ensures falsified { IfOk result (λ o. IfSome o
            (λ i. falsifies m.now (clause_of self.now problem.now i) ≡ true)) }
        ensures none { IfOk result (λ o. o ≡ None → (i : AnyInstance) → has_instance self.now problem.now i
            → falsifies m.now (clause_of self.now problem.now i) ≡ false) };

    /// The clause of an instance. Want of memory is its one fault.
    fn clause(
        &self,
        alloc: Global,
        problem: &Problem<'_>,
        instance: &Instance,
    ) -> Result<Clause, AllocError>
        requires { has_instance self.now problem.now instance.now }
        ensures { IfOk result (λ c. c ≡ clause_of self.now problem.now instance.now) };

    /// Each clause is true in every well-formed world.
    ghost sound: { (t : Self) (p : Posed) (i : AnyInstance) (w : World) → TermsHold → IsPosed p → has_instance t p i
        → IsWorldOf p w → IsTrueIn p w (clause_of t p i) };

    /// Each clause has literals of listed atoms, none of them with its negation.
    ghost lawful: { (t : Self) (p : Posed) (i : AnyInstance) → TermsHold → IsPosed p → has_instance t p i
        → IsClauseOf p (clause_of t p i) };

    /// Each has a text that a line of a log can hold, unless its rule has the empty word: such
    /// instances stand in no log.
    ghost written: { (t : Self) (p : Posed) (i : AnyInstance) → IsPosed p → has_instance t p i
        → bytes_eq i.rule [] ≡ false → is_instance i ≡ true };
}
