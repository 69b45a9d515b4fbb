//! What is closed and listed of goals, and their literals.

use crate::problems::{Question, is_lit, is_so};
use crate::schemas::{TEAM_TEAM, USER_DOC};
use sc_footprint::Problem;
use std::alloc::{AllocError, Global};
use std::test::Fail;

/// What a problem is to be. A literal is the number of its atom, negated where the atom is, and 0
/// stands for none.
#[derive(Drop)]
struct Posed<'r> {
    /// The numbers of closed terms, and their literals.
    terms: &'r [(u64, i64)],
    /// Numbers of atoms, and of these as closed terms.
    atoms: &'r [(u64, u64)],
    /// The goal's number as a closed term, and its literal.
    goal: (u64, i64),
}

/// Whether the closed term of a number has this number.
fn is_numbered(problem: &Problem<'_>, number: u64) -> bool {
    match problem.term(number) {
        Some(term) => problem.number_of(term) == Some(number),
        None => false,
    }
}

fn has_literal(problem: &Problem<'_>, number: u64, literal: i64) -> bool {
    match problem.literal_of(number) {
        Some(lit) => is_lit(lit, literal),
        None => literal == 0,
    }
}

/// Whether there are just these closed terms, with these literals.
fn are_closed(problem: &Problem<'_>, terms: &[(u64, i64)]) -> bool {
    let all = terms.iter().all(|term| is_numbered(problem, term.0)
        && has_literal(problem, term.0, term.1));
    all && problem.term(0) == None && problem.term(terms.len() as u64 + 1) == None
}

/// Whether there are just these atoms, of these numbers among the closed terms.
fn are_listed(problem: &Problem<'_>, atoms: &[(u64, u64)]) -> bool {
    let all = atoms
        .iter()
        .all(|atom| problem.atom(atom.0) == problem.term(atom.1));
    let count = problem.atom_count();
    all && count == atoms.len() as u64 && problem.atom(0) == None && problem.atom(count + 1) == None
}

impl Question for Posed<'_> {
    fn ask(&self, _alloc: Global, problem: &Problem<'_>) -> Result<bool, AllocError> {
        let goal = problem.number_of(problem.goal_term()) == Some(self.goal.0);
        Ok(
            goal && is_lit(problem.goal_literal(), self.goal.1)
                && are_closed(problem, self.terms)
                && are_listed(problem, self.atoms),
        )
    }
}

/// Places of environments, goals, their closed terms and their atoms, and the goals themselves.
const PROBLEMS: &[(usize, &str, &[(u64, i64)], &[(u64, u64)], (u64, i64))] = &[
    // `true` is the one atom, and the goal its negation; then come principal and resource
    (
        USER_DOC,
        "f",
        &[(1, 1), (2, -1), (3, 0), (4, 0)],
        &[(1, 1)],
        (2, -1),
    ),
    // principal and resource of one type may be one
    (
        TEAM_TEAM,
        "f",
        &[(1, 1), (2, -1), (3, 0), (4, 0), (5, 2)],
        &[(1, 1), (2, 5)],
        (2, -1),
    ),
    // after the context come its fields, also those that the goal doesn't have
    (
        USER_DOC,
        "a",
        &[(1, 1), (2, 0), (3, 0), (4, 0), (5, 2), (6, 3)],
        &[(1, 1), (2, 5), (3, 6)],
        (5, 2),
    ),
    // a negation is no atom of its own
    (
        USER_DOC,
        "a!",
        &[(1, 1), (2, 0), (3, 0), (4, 0), (5, -2), (6, 2), (7, 3)],
        &[(1, 1), (2, 6), (3, 7)],
        (5, -2),
    ),
];

#[test]
fn problems(rt: HostRuntime) -> Result<(), Fail> {
    for &(place, goal, terms, atoms, literal) in PROBLEMS {
        let posed = Posed {
            terms,
            atoms,
            goal: literal,
        };
        let so = is_so(rt.alloc(), place, goal, &posed);
        assert!(rt; so, "{goal} at {place}");
    }
    Ok(())
}
