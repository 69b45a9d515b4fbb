//! Assignments that are told by facts.
use crate::sets::names::truth_in;
use sc_clauses::Assignment;
use sc_footprint::Problem;
use sc_lists::Seq;
use std::alloc::{AllocError, Global};

/// The assignment in which each fact is so, or none is where it is to be refuted. An atom of which nothing
/// is said has no value.
pub(crate) fn assignment(
    alloc: Global,
    problem: &Problem<'_>,
    facts: &str,
    refuted: bool,
) -> Result<Assignment, AllocError> {
    let mut values = Seq::new(alloc);
    for before in 0..problem.atom_count() {
        values.push(truth_in(problem, facts, before + 1).map(|truth| truth != refuted))?;
    }
    Ok(Assignment::from_values(values))
}
