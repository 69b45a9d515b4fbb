//! What is known of equations.

use sc_clauses::Lit;
use sc_footprint::Problem;
use sc_rule_instances::equal;
use sc_sorts::{BinaryOp, Leaf, Node};
use std::alloc::{AllocError, Global};

/// What some literals tell.
#[derive(Drop)]
pub(crate) struct Known {
    /// The truth of each atom, by its number.
    truths: Vec<Option<bool>>,
    /// Of each closed term, by its number, the number of one that it equals by a new literal; 0 where there is none.
    partners: Vec<u64>,
}

/// Whether the term of a number is a constant.
pub(crate) fn is_constant(problem: &Problem<'_>, number: u64) -> bool {
    let Some(term) = problem.term(number) else {
        return false;
    };
    match problem.terms().node(term) {
        Node::Leaf(Leaf::Literal(_)) => true,
        _ => false,
    }
}

/// The sides of an equation, by their numbers, if an atom is one.
pub(crate) fn equation(problem: &Problem<'_>, atom: u64) -> Option<(u64, u64)> {
    let Some(term) = problem.atom(atom) else {
        return None;
    };
    let Node::Two(BinaryOp::Equal, a, b) = problem.terms().node(term) else {
        return None;
    };
    Some((problem.number_of(*a)?, problem.number_of(*b)?))
}

/// The same, if a literal says that the equation is true.
fn true_equation(problem: &Problem<'_>, lit: Lit) -> Option<(u64, u64)> {
    if lit.negated {
        return None;
    }
    equation(problem, lit.atom)
}

/// Whether one of these literals says that an equation is true.
pub(crate) fn tell_equation(problem: &Problem<'_>, lits: &[Lit]) -> bool {
    for lit in lits {
        if true_equation(problem, *lit).is_some() {
            return true;
        }
    }
    false
}

impl Known {
    /// What these literals tell, those of `new` of which terms are equal.
    pub(crate) fn new(
        alloc: Global,
        problem: &Problem<'_>,
        lits: &[Lit],
        new: &[Lit],
    ) -> Result<Known, AllocError> {
        let atoms = problem.atom_count() as usize;
        let closed = problem.closed_count() as usize;
        let mut known = Known {
            truths: Vec::from_elem(alloc, None, atoms.saturating_add(1))?,
            partners: Vec::from_elem(alloc, 0, closed.saturating_add(1))?,
        };
        for lit in lits {
            known.put_truth(*lit);
        }
        for lit in new {
            if let Some((a, b)) = true_equation(problem, *lit) {
                known.put_partner(a, b);
                known.put_partner(b, a);
            }
        }
        Ok(known)
    }

    fn put_truth(&mut self, lit: Lit) {
        if let Some(slot) = self.truths.get_mut(lit.atom as usize) {
            *slot = Some(!lit.negated);
        }
    }

    fn put_partner(&mut self, number: u64, partner: u64) {
        if let Some(slot) = self.partners.get_mut(number as usize) {
            *slot = partner;
        }
    }

    /// The truth of an atom.
    pub(crate) fn truth(&self, atom: u64) -> Option<bool> {
        match self.truths.get(atom as usize) {
            Some(truth) => *truth,
            None => None,
        }
    }

    /// The truth of a literal.
    pub(crate) fn literal_truth(&self, lit: Lit) -> Option<bool> {
        if lit.atom == 1 {
            return Some(!lit.negated);
        }
        Some(self.truth(lit.atom)? != lit.negated)
    }

    /// The number of a term that the one of a number equals, or 0.
    pub(crate) fn partner(&self, number: u64) -> u64 {
        match self.partners.get(number as usize) {
            Some(partner) => *partner,
            None => 0,
        }
    }

    /// Whether the terms of two numbers are equal.
    pub(crate) fn are_equal(&self, problem: &Problem<'_>, one: u64, other: u64) -> Option<bool> {
        let Some(a) = problem.term(one) else {
            return None;
        };
        let Some(b) = problem.term(other) else {
            return None;
        };
        self.literal_truth(equal(problem, a, b))
    }
}
