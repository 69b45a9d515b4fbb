//! Closed terms by their numbers.
ghost use Rattle.sc_rule_instances.specs.Given.{AreGivenIf, IsGivenIf};

use sc_footprint::Problem;

/// A closed term, by its number and by that in the table.
#[derive(Clone, Copy, Debug)]
pub struct Closed {
    /// Its number among the closed terms, from 1 on.
    pub number: u64,
    /// Its number in the table.
    pub term: u64,
}

/// The closed term of a number. None exactly where there is none.
pub fn closed_of(problem: &Problem<'_>, n: u64) -> Option<Closed>
    ensures { IsGivenIf problem.now n result }
{
    match problem.term(n) {
        Some(term) => Some(Closed { number: n, term }),
        None => None,
    }
}

/// The closed terms of two numbers. None exactly where there aren't two.
pub fn both(problem: &Problem<'_>, a: u64, b: u64) -> Option<(Closed, Closed)>
    ensures { AreGivenIf problem.now a b result }
{
    let Some(x) = closed_of(problem, a) else {
        return None;
    };
    let Some(y) = closed_of(problem, b) else {
        return None;
    };
    Some((x, y))
}
