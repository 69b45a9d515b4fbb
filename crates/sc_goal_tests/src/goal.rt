//! Goals of questions, in a new table, where 0 is `true` and 1 is `false`, 2, 3 and 4 come to be principal,
//! resource and context, and from 5 on terms are numbered as they are made.
ghost use Rattle.std.specs.Prelude.{◌≡◌, true, false, Contains, IfOk, IsSome};
ghost use Rattle.sc_goal.specs.Goals.{all_compiled};
ghost use Rattle.sc_goal.specs.Queries.{second};
ghost use Rattle.sc_question.specs.Questions.{takes_two};
ghost use Rattle.sc_schema.specs.Declarations.{environments};

use crate::declared_policies::with_types;
use crate::samples::{policies, schema};
use sc_ast::PolicySet;
use sc_goal::{Query, Question, goal, goal_laws, query};
use sc_question::takes_two;
use sc_schema::{Env, Schema, environments};
use sc_terms::Terms;
use std::alloc::{AllocError, Global};
use std::test::Fail;

/// The policies of a file, which are compiled in an environment.
fn admitted(alloc: Global, schema: &Schema, env: &Env, file: &str) -> Result<PolicySet, AllocError>
    requires { Contains (environments schema.now) env.now }
    ensures { IfOk result (λ policies. IsSome (all_compiled schema.now env.now policies)) }
{
    goal_laws();
    let policies = policies(alloc, file)?;
    with_types(alloc, schema, &policies)?;
    Ok(policies)
}

/// The goal of a query in an environment.
fn goal_of(alloc: Global, schema: &Schema, env: &Env, query: &Query<'_>) -> Result<u64, AllocError>
    requires first { IsSome (all_compiled schema.now env.now query.now.first) }
    requires second { IsSome (all_compiled schema.now env.now (second query.now)) }
{
    goal_laws();
    let mut terms = Terms::new(alloc)?;
    goal(alloc, &mut terms, schema, query, env)
}

/// The goal of a question of one set.
fn goal_of_one(
    alloc: Global,
    schema: &Schema,
    env: &Env,
    question: Question,
    set: &PolicySet,
) -> Result<u64, AllocError>
    requires one { takes_two question ≡ false }
    requires compiled { IsSome (all_compiled schema.now env.now set.now) }
{
    let query = query(alloc, question, set, None)?;
    goal_of(alloc, schema, env, &query)
}

/// The goal of a question of two sets.
fn goal_of_two(
    alloc: Global,
    schema: &Schema,
    env: &Env,
    question: Question,
    first: &PolicySet,
    second: &PolicySet,
) -> Result<u64, AllocError>
    requires two { takes_two question ≡ true }
    requires first { IsSome (all_compiled schema.now env.now first.now) }
    requires second { IsSome (all_compiled schema.now env.now second.now) }
{
    let query = query(alloc, question, first, Some(second))?;
    goal_of(alloc, schema, env, &query)
}

/// The goal of a question of one set, or of two where it takes two.
fn goal_of_sets(
    alloc: Global,
    schema: &Schema,
    env: &Env,
    question: Question,
    first: &PolicySet,
    second: &PolicySet,
) -> Result<u64, AllocError>
    requires first { IsSome (all_compiled schema.now env.now first.now) }
    requires second { IsSome (all_compiled schema.now env.now second.now) }
{
    if takes_two(question) {
        goal_of_two(alloc, schema, env, question, first, second)
    } else {
        goal_of_one(alloc, schema, env, question, first)
    }
}

/// The goal of a question of a set and a file.
fn goal_against(
    alloc: Global,
    schema: &Schema,
    env: &Env,
    question: Question,
    first: &PolicySet,
    file: &str,
) -> Result<u64, AllocError>
    requires environment { Contains (environments schema.now) env.now }
    requires first { IsSome (all_compiled schema.now env.now first.now) }
{
    let second = admitted(alloc, schema, env, file)?;
    goal_of_sets(alloc, schema, env, question, first, &second)
}

/// The goal of a question of two files.
fn goal_of_files(
    alloc: Global,
    schema: &Schema,
    env: &Env,
    question: Question,
    files: (&str, &str),
) -> Result<u64, AllocError>
    requires { Contains (environments schema.now) env.now }
{
    let first = admitted(alloc, schema, env, files.0)?;
    goal_against(alloc, schema, env, question, &first, files.1)
}

/// The same in the first environment of a schema.
fn goal_under(
    alloc: Global,
    schema: &Schema,
    question: Question,
    files: (&str, &str),
) -> Result<u64, AllocError> {
    match environments(schema).get(0) {
        Some(env) => goal_of_files(alloc, schema, env, question, files),
        None => Err(AllocError),
    }
}

/// The same under the schema.
fn goal_number(alloc: Global, question: Question, files: (&str, &str)) -> Result<u64, AllocError> {
    let schema = schema(alloc)?;
    goal_under(alloc, &schema, question, files)
}

const ALL: &str = "permit(principal, action == Action::\"view\", resource);";

const X: &str = "permit(principal, action, resource) when { context.x };";

const OVERFLOWS: &str = "permit(principal, action, resource) when { context.n + 1 == 2 };";

const NONE: &str = "permit(principal, action, resource); forbid(principal, action, resource);";

const ALL_BUT_X: &str =
    "permit(principal, action, resource); forbid(principal, action, resource) when { context.x };";

/// Questions of one set, each with its goal.
const ONE_SET: &[(Question, &str, u64)] = &[
    (Question::NeverErrors, "", 1),
    (Question::AlwaysAllows, "", 0),
    (Question::AlwaysDenies, "", 1),
    (Question::NeverErrors, X, 1),
    (Question::AlwaysAllows, X, 6),
    (Question::AlwaysDenies, X, 5),
    (Question::AlwaysAllows, ALL, 1),
    (Question::AlwaysDenies, ALL, 0),
    (Question::AlwaysDenies, NONE, 1),
    (Question::AlwaysAllows, ALL_BUT_X, 5),
    (Question::AlwaysDenies, ALL_BUT_X, 6),
    (Question::NeverErrors, OVERFLOWS, 7),
];

#[test]
fn goals_of_one_set(rt: HostRuntime) -> Result<(), Fail> {
    for &(question, file, goal) in ONE_SET {
        let found = goal_number(rt.alloc(), question, (file, ""))?;
        assert!(rt; found == goal, "{question:?} {file}");
    }
    Ok(())
}

/// Questions of two sets, each with its goal.
const TWO_SETS: &[(Question, &str, &str, u64)] = &[
    (Question::Implies, "", "", 1),
    (Question::Equivalent, "", "", 1),
    (Question::Disjoint, "", "", 1),
    (Question::Implies, X, ALL, 1),
    (Question::Implies, ALL, X, 7),
    (Question::Equivalent, X, X, 1),
    (Question::Equivalent, X, "", 5),
    (Question::Disjoint, X, "", 1),
    (Question::Disjoint, X, ALL, 5),
];

#[test]
fn goals_of_two_sets(rt: HostRuntime) -> Result<(), Fail> {
    for &(question, first, second, goal) in TWO_SETS {
        let found = goal_number(rt.alloc(), question, (first, second))?;
        assert!(rt; found == goal, "{question:?} {first}");
    }
    Ok(())
}

/// Whether a query of two sets tells its question, both sets, and the one uid that they write.
fn tells(query: &Query<'_>) -> bool {
    let sets = query.sets();
    let both = sets.0.is_empty() && sets.1.is_some_and(|set| set.len() == 1);
    both && query.question() == Question::Implies && query.lits().len() == 1
}

fn is_told(alloc: Global, first: &PolicySet, second: &PolicySet) -> Result<bool, AllocError> {
    let query = query(alloc, Question::Implies, first, Some(second))?;
    Ok(tells(&query))
}

fn is_told_against(alloc: Global, first: &PolicySet, file: &str) -> Result<bool, AllocError> {
    let second = policies(alloc, file)?;
    is_told(alloc, first, &second)
}

fn is_told_of_files(alloc: Global, files: (&str, &str)) -> Result<bool, AllocError> {
    let first = policies(alloc, files.0)?;
    is_told_against(alloc, &first, files.1)
}

#[test]
fn a_query_tells_what_is_asked(rt: HostRuntime) -> Result<(), Fail> {
    assert!(rt; is_told_of_files(rt.alloc(), ("", ALL))?);
    Ok(())
}
