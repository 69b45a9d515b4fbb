//! How many closed terms, listed atoms and defining clauses questions have.
ghost use Rattle.std.specs.Prelude.{◌≡◌, true, false, Contains, IfOk};
ghost use Rattle.sc_schema.specs.Declarations.{environments};
ghost use Rattle.sc_goal.specs.Queries.{second as second_of};
ghost use Rattle.sc_question.specs.Questions.{takes_two};
ghost use Rattle.sc_goal_tests.specs.Checked.{IsChecked, IsGoalAt};

use crate::declared_policies::{sample, schema};
use sc_ast::PolicySet;
use sc_footprint::{Problem, close};
use sc_goal::{Query, Question, goal, goal_laws, query};
use sc_goal_laws::posed_goals;
use sc_question::takes_two;
use sc_schema::{Env, Schema, environments};
use sc_terms::Terms;
use sc_typing_laws::declared_laws;
use std::alloc::{AllocError, Global};
use std::test::Fail;
use th_defs::defining;

/// The goal of a query in an environment.
fn goal_in(
    alloc: Global,
    terms: &mut Terms,
    schema: &Schema,
    env: &Env,
    query: &Query<'_>,
) -> Result<u64, AllocError>
    requires environment { Contains (environments schema.now) env.now }
    requires first { IsChecked schema.now query.now.first }
    requires second { IsChecked schema.now (second_of query.now) }
    ensures { IfOk result (IsGoalAt schema.now env.now query.now.literals terms.new) }
{
    schema.laws();
    query.laws();
    declared_laws();
    goal_laws();
    posed_goals();
    goal(alloc, terms, schema, query, env)
}

/// How many terms of a problem are closed, how many atoms are listed, and how many clauses define it.
fn counts_of(alloc: Global, problem: &Problem<'_>) -> Result<(u64, u64, usize), AllocError> {
    let clauses = defining(alloc, problem)?;
    Ok((problem.closed_count(), problem.atom_count(), clauses.len()))
}

/// The same of the problem of a query. That it is over the limit counts as want of memory.
fn counts_in(
    alloc: Global,
    schema: &Schema,
    env: &Env,
    query: &Query<'_>,
) -> Result<(u64, u64, usize), AllocError>
    requires environment { Contains (environments schema.now) env.now }
    requires first { IsChecked schema.now query.now.first }
    requires second { IsChecked schema.now (second_of query.now) }
{
    let mut terms = Terms::new(alloc)?;
    let goal = goal_in(alloc, &mut terms, schema, env, query)?;
    match close(alloc, terms, goal, schema, env, query.lits()) {
        Ok(problem) => counts_of(alloc, &problem),
        Err(_) => Err(AllocError),
    }
}

/// The same of a question of one set.
#[tactic(auto, using(crate::proofs::CheckedLaws::none_checked))]
fn counts_of_one(
    alloc: Global,
    schema: &Schema,
    env: &Env,
    question: Question,
    set: &PolicySet,
) -> Result<(u64, u64, usize), AllocError>
    requires environment { Contains (environments schema.now) env.now }
    requires one { takes_two question ≡ false }
    requires checked { IsChecked schema.now set.now }
{
    let query = query(alloc, question, set, None)?;
    counts_in(alloc, schema, env, &query)
}

/// The same of a question of two sets.
fn counts_of_two(
    alloc: Global,
    schema: &Schema,
    env: &Env,
    question: Question,
    first: &PolicySet,
    second: &PolicySet,
) -> Result<(u64, u64, usize), AllocError>
    requires environment { Contains (environments schema.now) env.now }
    requires two { takes_two question ≡ true }
    requires first { IsChecked schema.now first.now }
    requires second { IsChecked schema.now second.now }
{
    let query = query(alloc, question, first, Some(second))?;
    counts_in(alloc, schema, env, &query)
}

/// The same of a question of one set, or of two where it takes two.
fn counts_of_sets(
    alloc: Global,
    schema: &Schema,
    env: &Env,
    question: Question,
    first: &PolicySet,
    second: &PolicySet,
) -> Result<(u64, u64, usize), AllocError>
    requires environment { Contains (environments schema.now) env.now }
    requires first { IsChecked schema.now first.now }
    requires second { IsChecked schema.now second.now }
{
    if takes_two(question) {
        counts_of_two(alloc, schema, env, question, first, second)
    } else {
        counts_of_one(alloc, schema, env, question, first)
    }
}

/// The same of a question of a set and a policy with this body.
fn counts_against(
    alloc: Global,
    schema: &Schema,
    env: &Env,
    question: Question,
    first: &PolicySet,
    body: &str,
) -> Result<(u64, u64, usize), AllocError>
    requires environment { Contains (environments schema.now) env.now }
    requires first { IsChecked schema.now first.now }
{
    let second = sample(alloc, schema, body)?;
    counts_of_sets(alloc, schema, env, question, first, &second)
}

/// The same of a question of policies with these bodies.
fn counts_of_bodies(
    alloc: Global,
    schema: &Schema,
    env: &Env,
    question: Question,
    bodies: (&str, &str),
) -> Result<(u64, u64, usize), AllocError>
    requires { Contains (environments schema.now) env.now }
{
    let first = sample(alloc, schema, bodies.0)?;
    counts_against(alloc, schema, env, question, &first, bodies.1)
}

/// The same in the one environment of a schema.
fn counts_under(
    alloc: Global,
    schema: &Schema,
    question: Question,
    bodies: (&str, &str),
) -> Result<(u64, u64, usize), AllocError> {
    match environments(schema).get(0) {
        Some(env) => counts_of_bodies(alloc, schema, env, question, bodies),
        None => Err(AllocError),
    }
}

/// The same under the schema.
fn counts(
    alloc: Global,
    question: Question,
    bodies: (&str, &str),
) -> Result<(u64, u64, usize), AllocError> {
    let schema = schema(alloc)?;
    counts_under(alloc, &schema, question, bodies)
}

/// Questions of policies with these bodies, each with its counts.
const COUNTS: &[(Question, &str, &str, (u64, u64, usize))] = &[
    (
        Question::NeverErrors,
        "-context.n < 0 || true",
        "true",
        (463, 451, 1_346),
    ),
    (
        Question::AlwaysAllows,
        "context.n + 1 > context.n",
        "true",
        (531, 517, 1_863),
    ),
    (
        Question::AlwaysDenies,
        "context.n * 3 == 7",
        "true",
        (33_424, 33_349, 262_215),
    ),
    (
        Question::Implies,
        "context.addr.isInRange(ip(\"10.0.0.0/8\"))",
        "context.addr.isInRange(ip(\"10.0.0.0/7\"))",
        (353, 333, 617),
    ),
    (
        Question::AlwaysDenies,
        "principal.boss == principal && principal.boss.boss != principal",
        "true",
        (152, 138, 6),
    ),
    (
        Question::Implies,
        "principal in Group::\"a\" && Group::\"a\" in Group::\"b\"",
        "principal in Group::\"b\"",
        (15, 7, 10),
    ),
    (
        Question::Equivalent,
        "[context.n, context.n].contains(1)",
        "context.n == 1",
        (401, 325, 390),
    ),
];

#[test]
fn counts_of_questions(rt: HostRuntime) -> Result<(), Fail> {
    for &(question, first, second, expected) in COUNTS {
        let found = counts(rt.alloc(), question, (first, second))?;
        assert!(rt; found == expected, "{question:?} {first}");
    }
    Ok(())
}
