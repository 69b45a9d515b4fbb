//! The rules of a theory at a problem.
ghost use Rattle.std.specs.Prelude.{◌≡◌};

use crate::breaking::broken;
use sc_clauses::{Assignment, Clause, Instance, Lit};
use sc_footprint::{Problem, Theory};
use sc_search::Source;
use sc_suggestions::suggested;
use std::alloc::{AllocError, Global};

/// The rules of a theory at a problem: the search asks for an instance of one that an assignment falsifies.
#[derive(Drop)]
pub struct RulesAt<'t, 'p, T> {
    alloc: Global,
    theory: &'t T,
    problem: &'t Problem<'p>,
}

impl<'t, 'p, T: Theory> RulesAt<'t, 'p, T> {
    /// The rules of this theory at this problem. The memory of answers comes from `alloc`.
    pub fn new(alloc: Global, theory: &'t T, problem: &'t Problem<'p>) -> RulesAt<'t, 'p, T>
        ensures theory { result.theory.now ≡ theory.now }
        ensures problem { result.problem.now ≡ problem.now }
    {
        RulesAt {
            alloc,
            theory,
            problem,
        }
    }
}

impl<'t, 'p, T: Theory> Source for RulesAt<'t, 'p, T> {
    ghost has_instance = { λ s. T.has_instance s.theory.now s.problem.now };

    ghost clause_of = { λ s. T.clause_of s.theory.now s.problem.now };

    fn violated(&self, m: &Assignment) -> Result<Option<Instance>, AllocError> {
        self.theory.violated(self.alloc, self.problem, m)
    }

    fn clause(&self, instance: &Instance) -> Result<Clause, AllocError> {
        self.theory.clause(self.alloc, self.problem, instance)
    }

    fn suggested(&self, lits: &[Lit], seen: usize) -> Result<Vec<Instance>, AllocError> {
        suggested(self.alloc, self.problem, lits, seen)
    }

    fn broken(&self, m: &Assignment) -> Result<Vec<Instance>, AllocError> {
        broken(self.alloc, self.problem, m)
    }

    fn told(&self, instance: &Instance) -> Result<Option<Clause>, AllocError> {
        if !self.theory.accepts(self.alloc, self.problem, instance)? {
            return Ok(None);
        }
        Ok(Some(self.theory.clause(self.alloc, self.problem, instance)?))
    }
}
