//! What a search finds of a problem.
ghost use Rattle.std.specs.Prelude.{◌≡◌, ◌≤◌, false, [], IfOk};
ghost use Rattle.std.specs.Str.{bytes_eq};
ghost use Rattle.sc_clauses.specs.declared.step.Instance.{Instance as AnyInstance};
ghost use Rattle.sc_theory_search.specs.Findings.{IsFinding};

use crate::source::RulesAt;
use sc_checker::Log;
use sc_clauses::Assignment;
use sc_footprint::{Problem, Theory, problem_laws};
use sc_search::{Found, search};
use std::alloc::{AllocError, Global};
use th_defs::{defining, defining_laws};

/// What a search finds.
#[derive(Drop)]
pub enum Finding {
    /// The goal is true in no well-formed world; the log shows it.
    Refuted(Log),
    /// An assignment that falsifies neither a defining clause nor that of an instance.
    Consistent(Assignment),
    /// A log of as many units as the budget, where one more step is due.
    Spent(Log),
}

/// The most units that are looked for. With the clauses that define a problem, they are fewer than the
/// numbers that a log can write.
const MOST_UNITS: u64 = 999_999_000_000_000_000;

/// How many units are looked for within a budget.
fn units_within(budget: u64) -> u64
    ensures within { result ≤ budget }
    ensures few { result ≤ 999999000000000000 }
{
    if budget < MOST_UNITS {
        budget
    } else {
        MOST_UNITS
    }
}

/// What a search finds of a problem under the rules of a theory, whose instances have words. Want of
/// memory is its one fault; a budget that no log can spend counts as such where it would be spent, since
/// no memory holds so many units.
pub fn find<T: Theory>(
    alloc: Global,
    theory: &T,
    problem: &Problem<'_>,
    budget: u64,
) -> Result<Finding, AllocError>
    requires words { (i : AnyInstance) → T.has_instance theory.now problem.now i → bytes_eq i.rule [] ≡ false }
    ensures { IfOk result (IsFinding (T.has_instance theory.now problem.now) (T.clause_of theory.now problem.now)
        problem.now budget) }
{
    problem.laws();
    problem_laws();
    defining_laws();
    let clauses = defining(alloc, problem)?;
    let source = RulesAt::new(alloc, theory, problem);
    let most = units_within(budget);
    match search(alloc, &source, problem.atom_count(), &clauses, most)? {
        Found::Refuted(steps) => Ok(Finding::Refuted(Log::new(steps))),
        Found::Consistent(m) => Ok(Finding::Consistent(m)),
        Found::Spent(steps) => {
            if most < budget {
                return Err(AllocError);
            }
            Ok(Finding::Spent(Log::new(steps)))
        }
    }
}
