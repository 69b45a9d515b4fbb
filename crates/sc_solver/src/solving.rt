//! The solver.
ghost use Rattle.std.specs.Prelude.{IfOk};
ghost use Rattle.sc_solver.specs.Solutions.{IsSolution};

use crate::others::OtherRules;
use crate::rebuilding::rebuild;
use sc_checker::Log;
use sc_footprint::Problem;
use sc_theory_search::{Finding, find};
use sc_world::World;
use std::alloc::{AllocError, Global};

/// What the solver found.
#[derive(Drop)]
pub enum Solved {
    /// The goal is true in no well-formed world; the log shows it.
    Refuted(Log),
    /// A well-formed world in which the goal is true.
    Violated(World),
    /// A log of as many units as the budget, where one more step is due.
    Spent(Log),
}

/// A log that refutes the problem's goal, or a well-formed world in which the goal is true, or a log of
/// as many units as the budget, each of them lawful and new, where one more step is due. Want of memory
/// is its one fault.
pub fn solve(alloc: Global, problem: &Problem<'_>, budget: u64) -> Result<Solved, AllocError>
    ensures { IfOk result (IsSolution problem.now budget) }
{
    match find(alloc, &OtherRules::new(), problem, budget)? {
        Finding::Refuted(log) => Ok(Solved::Refuted(log)),
        Finding::Consistent(m) => Ok(Solved::Violated(rebuild(alloc, problem, &m)?)),
        Finding::Spent(log) => Ok(Solved::Spent(log)),
    }
}
