//! Compares some of the policies of a set with others of them, in one environment.
ghost use Rattle.std.specs.Prelude.{◌≡◌, length, Contains, IfOk, IfErr};
ghost use Rattle.sc_schema.specs.Declarations.{environments};
ghost use Rattle.sc_footprint.specs.Atoms.{IsRefused};
ghost use Rattle.sc_footprint.specs.Problems.{IsProblemOf};
ghost use Rattle.sc_terms.specs.Trees.{Tree};
ghost use Rattle.sc_reduction.specs.Marked.{trial_of};
ghost use Rattle.sc_reduction.specs.Reductions.{MayBeReduced};
ghost use Rattle.sc_reduction.specs.Trials.{IsFinding, IsGoal, IsProblem};

use sc_checker::Log;
use sc_footprint::{OverLimit, Problem, close};
use sc_goal::{Query, goal_laws, goal_of};
use sc_goal_laws::posed_goals;
use sc_lists::Fault;
use sc_schema::{Env, Schema};
use sc_solver::{Solved, solve};
use sc_terms::Terms;
use sc_typing_laws::{declared_laws, literal_laws};
use sc_world::World;
use std::alloc::{AllocError, Global};

/// What is to be reduced, and how much work each policy may take in each environment.
#[derive(Drop)]
pub(crate) struct Task<'a> {
    /// Where memory is taken.
    pub(crate) alloc: Global,
    /// The schema.
    pub(crate) schema: &'a Schema,
    /// The policies, compared with themselves.
    pub(crate) query: &'a Query<'a>,
    /// How many units of work each policy may take in each environment.
    pub(crate) budget: u64,
}

/// What is found of an environment, where some of the policies are compared with others of them.
#[derive(Drop)]
pub(crate) enum Finding {
    /// They decide alike in each well-formed world.
    Alike,
    /// A well-formed world in which they don't.
    Differs(World),
    /// Neither within the budget; the log has as many units.
    Spent(Log),
    /// More atoms would be listed than may be.
    OverLimit,
}

/// The problem whether some well-formed world of an environment, for the uids of all policies, tells those
/// that `left` marks from those that `right` marks.
fn problem_of<'a>(
    task: &Task<'a>,
    env: &'a Env,
    left: &[bool],
    right: &[bool],
) -> Result<Problem<'a>, Fault<OverLimit>>
    requires environment { Contains (environments task.now.schema.now) env.now }
    requires task { MayBeReduced task.now.schema.now task.now.query.now }
    requires lefts { length left.now ≡ length task.now.query.now.first }
    requires rights { length right.now ≡ length task.now.query.now.first }
    ensures ok { IfOk result (λ p. (t : Tree) → IsGoal (trial_of task.now left.now right.now) env.now t
        → IsProblemOf task.now.schema.now env.now task.now.query.now.literals t p) }
    ensures err { IfErr result (λ fault. (t : Tree) → IsGoal (trial_of task.now left.now right.now) env.now t
        → IsRefused task.now.schema.now env.now t fault) }
{
    goal_laws();
    posed_goals();
    declared_laws();
    task.query.laws();
    task.schema.laws();
    let mut terms = Terms::new(task.alloc)?;
    let goal = goal_of(
        task.alloc,
        &mut terms,
        task.schema,
        task.query,
        env,
        left,
        right,
    )?;
    close(task.alloc, terms, goal, task.schema, env, task.query.lits())
}

/// Whether the policies that `left` marks and those that `right` marks decide alike in each well-formed world
/// of an environment that stores the uids of all policies.
pub(crate) fn compare(
    task: &Task<'_>,
    env: &Env,
    left: &[bool],
    right: &[bool],
) -> Result<Finding, AllocError>
    requires environment { Contains (environments task.now.schema.now) env.now }
    requires task { MayBeReduced task.now.schema.now task.now.query.now }
    requires lefts { length left.now ≡ length task.now.query.now.first }
    requires rights { length right.now ≡ length task.now.query.now.first }
    ensures { IfOk result (IsFinding (trial_of task.now left.now right.now) env.now) }
{
    goal_laws();
    task.query.laws();
    match problem_of(task, env, left, right) {
        Ok(problem) => {
            problem.laws();
            solved(task, env, left, right, &problem)
        }
        Err(Fault::Told(_)) => Ok(Finding::OverLimit),
        Err(Fault::NoMemory) => Err(AllocError),
    }
}

/// What the solver finds of the problem of an environment.
fn solved(
    task: &Task<'_>,
    env: &Env,
    left: &[bool],
    right: &[bool],
    problem: &Problem<'_>,
) -> Result<Finding, AllocError>
    requires problem { IsProblem (trial_of task.now left.now right.now) env.now problem.now }
    ensures { IfOk result (IsFinding (trial_of task.now left.now right.now) env.now) }
{
    task.schema.laws();
    goal_laws();
    literal_laws();
    let _ = env;
    let _ = left;
    let _ = right;
    match solve(task.alloc, problem, task.budget)? {
        Solved::Refuted(_) => Ok(Finding::Alike),
        Solved::Violated(world) => Ok(Finding::Differs(world)),
        Solved::Spent(log) => Ok(Finding::Spent(log)),
    }
}
