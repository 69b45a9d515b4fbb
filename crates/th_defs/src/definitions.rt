//! The clauses that define a problem.
ghost use Rattle.std.specs.Prelude.{◌≡◌, IfOk};
ghost use Rattle.sc_footprint.specs.Definitions.{defining as definitions_of};

use crate::clauses::push_kept;
use crate::item::{item_at, item_count};
use sc_clauses::Clauses;
use sc_footprint::{Problem, problem_laws};
use std::alloc::{AllocError, Global};

/// The clauses that define a problem: of each atom those of its definition, of each address that its
/// bits are those of one, and last the goal's literal as a clause. Want of memory is its one fault.
pub fn defining(alloc: Global, problem: &Problem<'_>) -> Result<Clauses, AllocError>
    ensures { IfOk result (λ cs. cs ≡ definitions_of problem.now) }
{
    problem.laws();
    problem_laws();
    let mut literals = Vec::new(alloc);
    let mut clauses = Clauses::new(alloc);
    for place in 0..item_count(problem) {
        push_kept(
            problem,
            item_at(problem, place),
            &mut literals,
            &mut clauses,
        )?;
    }
    clauses.push(&[problem.goal_literal()])?;
    Ok(clauses)
}
