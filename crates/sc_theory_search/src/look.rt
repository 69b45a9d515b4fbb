//! What an assignment says of memberships and equations.

use sc_clauses::{Assignment, Instance};
use sc_footprint::Problem;
use sc_rule_instances::{
    EntityRule, EqualRule, SetRule, equal, known_literal, member, write_entity, write_equal,
    write_set,
};
use sc_suggestions::Tolds;
use std::alloc::{AllocError, Global};

/// An assignment of a problem's atoms, and the memberships of which it tells.
#[derive(Clone, Copy)]
pub(crate) struct Look<'a, 'p> {
    pub(crate) alloc: Global,
    pub(crate) problem: &'a Problem<'p>,
    pub(crate) m: &'a Assignment,
    pub(crate) tolds: &'a Tolds,
}

impl<'a, 'p> Look<'a, 'p> {
    /// Whether one closed term is a member of another, by their numbers.
    pub(crate) fn is_member(&self, candidate: u64, set: u64) -> Option<bool> {
        let x = self.problem.term(candidate)?;
        let s = self.problem.term(set)?;
        known_literal(self.m, member(self.problem, x, s))
    }

    /// Whether two closed terms are equal, by their numbers.
    pub(crate) fn are_equal(&self, one: u64, other: u64) -> Option<bool> {
        let a = self.problem.term(one)?;
        let b = self.problem.term(other)?;
        known_literal(self.m, equal(self.problem, a, b))
    }

    /// Puts an instance of a rule on sets.
    pub(crate) fn put_set(
        &self,
        rule: SetRule,
        found: &mut Vec<Instance>,
    ) -> Result<(), AllocError> {
        found.push(write_set(self.alloc, rule)?)?;
        Ok(())
    }

    /// Puts an instance of a rule on entities.
    pub(crate) fn put_entity(
        &self,
        rule: EntityRule,
        found: &mut Vec<Instance>,
    ) -> Result<(), AllocError> {
        found.push(write_entity(self.alloc, rule)?)?;
        Ok(())
    }

    /// Puts an instance of a rule on equations.
    pub(crate) fn put_equal(
        &self,
        rule: EqualRule,
        found: &mut Vec<Instance>,
    ) -> Result<(), AllocError> {
        found.push(write_equal(self.alloc, rule)?)?;
        Ok(())
    }
}
