//! Which memberships are known to be so or not, by their sets and by their members.

use sc_clauses::Lit;
use sc_footprint::Problem;
use sc_sorts::{BinaryOp, Node, UnaryOp};
use std::alloc::{AllocError, Global};

/// Whether a candidate is a member of a set, by the numbers of closed terms.
#[derive(Clone, Copy)]
pub struct Told {
    /// The set.
    pub set: u64,
    /// The candidate.
    pub candidate: u64,
    /// Whether the candidate is a member of the set.
    pub holds: bool,
}

/// What is known of memberships.
#[derive(Drop)]
pub struct Tolds {
    /// In the order of their sets.
    by_set: Vec<Told>,
    /// The same in the order of the candidates.
    by_candidate: Vec<Told>,
    /// The sets of entities' ancestors and keys, each with its entity before it, in the order of the entities.
    owned: Vec<(u64, u64)>,
}

/// The membership that a literal tells.
fn told_by(problem: &Problem<'_>, lit: Lit) -> Option<Told> {
    let Some(term) = problem.atom(lit.atom) else {
        return None;
    };
    let Node::Two(BinaryOp::Member, candidate, set) = problem.terms().node(term) else {
        return None;
    };
    Some(Told {
        set: problem.number_of(*set)?,
        candidate: problem.number_of(*candidate)?,
        holds: !lit.negated,
    })
}

/// The entity whose ancestors or keys a closed term is, before the term itself.
fn owned_at(problem: &Problem<'_>, number: u64) -> Option<(u64, u64)> {
    let term = problem.term(number)?;
    match problem.terms().node(term) {
        Node::One(UnaryOp::Ancestors(_), e) => Some((problem.number_of(*e)?, number)),
        Node::One(UnaryOp::Keys, e) => Some((problem.number_of(*e)?, number)),
        _ => None,
    }
}

fn all_owned(alloc: Global, problem: &Problem<'_>) -> Result<Vec<(u64, u64)>, AllocError> {
    let mut owned = Vec::new(alloc);
    for before in 0..problem.closed_count() {
        if let Some(set) = owned_at(problem, before.saturating_add(1)) {
            owned.push(set)?;
        }
    }
    owned.sort_unstable_by(|a: &(u64, u64), b: &(u64, u64)| a.0.cmp(&b.0));
    Ok(owned)
}

impl Tolds {
    /// What some literals tell.
    pub fn new(alloc: Global, problem: &Problem<'_>, lits: &[Lit]) -> Result<Tolds, AllocError> {
        let mut tolds = Tolds {
            by_set: Vec::new(alloc),
            by_candidate: Vec::new(alloc),
            owned: all_owned(alloc, problem)?,
        };
        for lit in lits {
            if let Some(told) = told_by(problem, *lit) {
                tolds.by_set.push(told)?;
                tolds.by_candidate.push(told)?;
            }
        }
        tolds.by_set.sort_unstable_by(|a, b| a.set.cmp(&b.set));
        tolds
            .by_candidate
            .sort_unstable_by(|a, b| a.candidate.cmp(&b.candidate));
        Ok(tolds)
    }

    /// What is told of one set.
    pub fn of_set(&self, set: u64) -> &[Told] {
        let from = self.by_set.partition_point(|told| told.set < set);
        let to = self.by_set.partition_point(|told| told.set <= set);
        match self.by_set.get(from..to) {
            Some(run) => run,
            None => &[],
        }
    }

    /// What is told of one candidate.
    pub fn of_candidate(&self, candidate: u64) -> &[Told] {
        let from = self
            .by_candidate
            .partition_point(|told| told.candidate < candidate);
        let to = self
            .by_candidate
            .partition_point(|told| told.candidate <= candidate);
        match self.by_candidate.get(from..to) {
            Some(run) => run,
            None => &[],
        }
    }

    /// The sets of one entity's ancestors and keys, each with the entity before it.
    pub fn sets_of(&self, entity: u64) -> &[(u64, u64)] {
        let from = self.owned.partition_point(|owned| owned.0 < entity);
        let to = self.owned.partition_point(|owned| owned.0 <= entity);
        match self.owned.get(from..to) {
            Some(run) => run,
            None => &[],
        }
    }
}
