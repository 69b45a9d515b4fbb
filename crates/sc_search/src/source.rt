//! Where clauses come from besides the list.
ghost use Rattle.std.specs.Prelude.{◌≡◌, true, false, None, IfOk, IfSome};
ghost use Rattle.sc_clauses.specs.Assignments.{falsifies};
ghost use Rattle.sc_clauses.specs.Clauses.{Clause};
ghost use Rattle.sc_clauses.specs.declared.step.Instance.{Instance};

use sc_clauses::{Assignment, Clause, Instance, Lit};
use std::alloc::AllocError;

/// A source of clauses that are true besides those given, each by an instance. There may be far too many to list, so
/// a search asks for one that an assignment falsifies.
pub trait Source {
    /// Which instances it has.
    ghost has_instance: { Self → Instance → Type 0 };

    /// The clause of each of its instances.
    ghost clause_of: { Self → Instance → Clause };

    /// An instance whose clause an assignment falsifies, or none where there is none. Want of memory is its one fault.
    fn violated(&self, m: &Assignment) -> Result<Option<Instance>, AllocError>
        ensures accepted { IfOk result (λ o. IfSome o (has_instance self.now)) }
        ensures falsified { IfOk result (λ o. IfSome o (λ i. falsifies m.now (clause_of self.now i) ≡ true)) }
        ensures none { IfOk result (λ o. o ≡ None → (i : Instance) → has_instance self.now i
            → falsifies m.now (clause_of self.now i) ≡ false) };

    /// The clause of an instance that it has. Want of memory is its one fault.
    fn clause(&self, instance: &Instance) -> Result<Clause, AllocError>
        requires { has_instance self.now instance.now }
        ensures { IfOk result (λ c. c ≡ clause_of self.now instance.now) };

    /// Instances whose clauses may imply a literal, where these literals are all that are true and the first `seen`
    /// of them were shown before. Nothing is promised of them. Want of memory is its one fault.
    fn suggested(&self, lits: &[Lit], seen: usize) -> Result<Vec<Instance>, AllocError>;

    /// Instances whose clauses an assignment may falsify. Nothing is promised of them. Want of memory is its one fault.
    fn broken(&self, m: &Assignment) -> Result<Vec<Instance>, AllocError>;

    /// The clause of an instance, if the source has the instance. Want of memory is its one fault.
    fn told(&self, instance: &Instance) -> Result<Option<Clause>, AllocError>
        ensures accepted { IfOk result (λ o. IfSome o (λ c. has_instance self.now instance.now)) }
        ensures clause { IfOk result (λ o. IfSome o (λ c. c ≡ clause_of self.now instance.now)) };
}
