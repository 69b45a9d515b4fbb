//! Analyses one environment.
ghost use Rattle.std.specs.Prelude.{IfOk, IfErr};
ghost use Rattle.sc_footprint.specs.Atoms.{IsRefused};
ghost use Rattle.sc_footprint.specs.Problems.{IsProblemOf};
ghost use Rattle.sc_terms.specs.Trees.{Tree};
ghost use Rattle.sc_reports.specs.Analyses.{asked_of, IsAnswer, IsFound, IsGoalOf, MayBePosed};
ghost use Rattle.sc_reports.specs.Reports.{IsProblem};

use sc_checker::Log;
use sc_footprint::{OverLimit, Problem, close};
use sc_goal::{Query, goal, goal_laws};
use sc_goal_laws::posed_goals;
use sc_lists::Fault;
use sc_schema::{Env, Schema};
use sc_solver::{Solved, solve};
use sc_terms::Terms;
use sc_typing_laws::{declared_laws, literal_laws};
use sc_world::World;
use std::alloc::{AllocError, Global};

/// What was found of an environment.
#[derive(Drop)]
pub enum EnvAnswer {
    /// Each well-formed world has the property; the log shows it.
    Holds(Log),
    /// A well-formed world that hasn't the property.
    Violated(World),
    /// Neither within the budget; the log has as many units.
    Spent(Log),
    /// More atoms would be listed than may be.
    OverLimit,
}

/// The problem whether some well-formed world of an environment lacks the property that is asked
/// about.
pub(crate) fn problem_of<'a>(
    alloc: Global,
    schema: &'a Schema,
    env: &'a Env,
    query: &'a Query<'_>,
) -> Result<Problem<'a>, Fault<OverLimit>>
    requires { MayBePosed schema.now env.now query.now }
    ensures ok { IfOk result (λ p. (t : Tree) → IsGoalOf schema.now env.now query.now t
        → IsProblemOf schema.now env.now query.now.literals t p) }
    ensures err { IfErr result (λ fault. (t : Tree) → IsGoalOf schema.now env.now query.now t
        → IsRefused schema.now env.now t fault) }
{
    goal_laws();
    posed_goals();
    declared_laws();
    query.laws();
    schema.laws();
    let mut terms = Terms::new(alloc)?;
    let goal = goal(alloc, &mut terms, schema, query, env)?;
    close(alloc, terms, goal, schema, env, query.lits())
}

/// Whether each well-formed world of an environment of the schema has the property that is asked about.
/// The policies are declared, and typed in the environment.
pub fn analyse_env(
    alloc: Global,
    schema: &Schema,
    env: &Env,
    query: &Query<'_>,
    budget: u64,
) -> Result<EnvAnswer, AllocError>
    requires { MayBePosed schema.now env.now query.now }
    ensures answer { IfOk result (IsAnswer (asked_of schema.now query.now budget) env.now) }
    ensures found { IfOk result (IsFound (asked_of schema.now query.now budget) env.now) }
{
    query.laws();
    match problem_of(alloc, schema, env, query) {
        Ok(problem) => {
            problem.laws();
            solved(alloc, schema, env, query, &problem, budget)
        }
        Err(Fault::Told(_)) => Ok(EnvAnswer::OverLimit),
        Err(Fault::NoMemory) => Err(AllocError),
    }
}

/// What the solver finds of the problem of an environment.
fn solved(
    alloc: Global,
    schema: &Schema,
    env: &Env,
    query: &Query<'_>,
    problem: &Problem<'_>,
    budget: u64,
) -> Result<EnvAnswer, AllocError>
    requires problem { IsProblem (asked_of schema.now query.now budget) env.now problem.now }
    ensures answer { IfOk result (IsAnswer (asked_of schema.now query.now budget) env.now) }
    ensures found { IfOk result (IsFound (asked_of schema.now query.now budget) env.now) }
{
    schema.laws();
    goal_laws();
    literal_laws();
    let _ = env;
    let _ = query;
    match solve(alloc, problem, budget)? {
        Solved::Refuted(log) => Ok(EnvAnswer::Holds(log)),
        Solved::Violated(world) => Ok(EnvAnswer::Violated(world)),
        Solved::Spent(log) => Ok(EnvAnswer::Spent(log)),
    }
}
