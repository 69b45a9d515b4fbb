//! The goal of a question.
ghost use Rattle.std.specs.Prelude.{◌≡◌, length, map, IfOk, IfSome, IsSome};
ghost use Rattle.sc_terms.specs.Tables.{Keeps, StandsFor};
ghost use Rattle.sc_terms.specs.Folds.{not_term, and_term, equal_term};
ghost use Rattle.sc_symauth.specs.Standings.{allow};
ghost use Rattle.sc_symauth.specs.Numbers.{AreCodes, compiled_at};
ghost use Rattle.sc_goal.specs.Goals.{goal_of, goal_term};
ghost use Rattle.sc_goal.specs.Queries.{second};
ghost use Rattle.sc_goal.specs.Selections.{selected};

use crate::compiling::compile_marked;
use crate::queries::Query;
use sc_question::Question;
use sc_schema::{Env, Schema};
use sc_symauth::{CompiledPolicy, allow_term, any_error_term};
use sc_symeval::{Setting, variables_of};
use sc_terms::Terms;
use std::alloc::{AllocError, Global};

/// The goal of a query in an environment of a schema: a term that is true in the worlds that lack the
/// property which the question asks about. Each policy of the sets is typed in the environment. The
/// variables of its requests are made once. Terms of the table keep their numbers, also where memory is
/// wanted.
pub fn goal(
    alloc: Global,
    terms: &mut Terms,
    schema: &Schema,
    query: &Query<'_>,
    env: &Env,
) -> Result<u64, AllocError>
    requires { IsSome (goal_term schema.now env.now query.now.question query.now.first (second query.now)) }
    ensures ok { IfOk result (λ n. IfSome (goal_term schema.now env.now query.now.question query.now.first
        (second query.now)) (λ t. StandsFor terms.new n t)) }
    ensures kept { Keeps terms.old terms.new }
{
    let left = Vec::from_elem(alloc, true, query.sets().0.len())?;
    let right = Vec::from_elem(alloc, true, query.second().len())?;
    goal_of(alloc, terms, schema, query, env, &left, &right)
}

/// The goal of a query, as `goal` gives it, of some of its policies: of those of the first set that `left`
/// marks and those of the second that `right` marks, each by its place. There is one mark for each policy.
/// All policies of both sets are typed in the environment.
pub fn goal_of(
    alloc: Global,
    terms: &mut Terms,
    schema: &Schema,
    query: &Query<'_>,
    env: &Env,
    left: &[bool],
    right: &[bool],
) -> Result<u64, AllocError>
    requires posed { IsSome (goal_term schema.now env.now query.now.question query.now.first (second query.now)) }
    requires lefts { length left.now ≡ length query.now.first }
    requires rights { length right.now ≡ length (second query.now) }
    ensures ok { IfOk result (λ n. IfSome (goal_term schema.now env.now query.now.question
        (selected left.now query.now.first) (selected right.now (second query.now))) (λ t. StandsFor terms.new n t)) }
    ensures kept { Keeps terms.old terms.new }
{
    let policies = query.sets().0;
    let variables = variables_of(alloc, terms, schema, env)?;
    let setting = Setting {
        alloc,
        schema,
        env,
        variables,
    };
    let first = compile_marked(&setting, terms, policies.as_slice(), left)?;
    let second = compile_marked(&setting, terms, query.second(), right)?;
    goal_between(
        alloc,
        terms,
        query.question(),
        first.as_slice(),
        second.as_slice(),
    )
}

/// The goal of a question of policies that are compiled.
fn goal_between(
    alloc: Global,
    terms: &mut Terms,
    question: Question,
    first: &[CompiledPolicy],
    second: &[CompiledPolicy],
) -> Result<u64, AllocError>
    requires first_in { AreCodes terms.old first.now }
    requires second_in { AreCodes terms.old second.now }
    ensures ok { IfOk result (λ n. StandsFor terms.new n (goal_of question (map (compiled_at terms.old) first.now) (map
        (compiled_at terms.old) second.now))) }
    ensures kept { Keeps terms.old terms.new }
{
    match question {
        Question::NeverErrors => any_error_term(alloc, terms, first),
        Question::AlwaysAllows => denies(alloc, terms, first),
        Question::AlwaysDenies => allow_term(alloc, terms, first),
        Question::Implies => allows_alone(alloc, terms, first, second),
        Question::Equivalent => differ(alloc, terms, first, second),
        Question::Disjoint => both_allow(alloc, terms, first, second),
    }
}

/// Whether a set doesn't allow.
fn denies(alloc: Global, terms: &mut Terms, policies: &[CompiledPolicy]) -> Result<u64, AllocError>
    requires { AreCodes terms.old policies.now }
    ensures ok { IfOk result (λ n. StandsFor terms.new n
        (not_term (allow (map (compiled_at terms.old) policies.now)))) }
    ensures kept { Keeps terms.old terms.new }
{
    let allowed = allow_term(alloc, terms, policies)?;
    terms.not(allowed)
}

/// Whether the first set allows and the second doesn't.
fn allows_alone(
    alloc: Global,
    terms: &mut Terms,
    first: &[CompiledPolicy],
    second: &[CompiledPolicy],
) -> Result<u64, AllocError>
    requires first_in { AreCodes terms.old first.now }
    requires second_in { AreCodes terms.old second.now }
    ensures ok { IfOk result (λ n. StandsFor terms.new n (and_term (allow (map (compiled_at terms.old) first.now))
        (not_term (allow (map (compiled_at terms.old) second.now))))) }
    ensures kept { Keeps terms.old terms.new }
{
    let allowed = allow_term(alloc, terms, first)?;
    let denied = denies(alloc, terms, second)?;
    terms.and(allowed, denied)
}

/// Whether one set allows and the other doesn't.
fn differ(
    alloc: Global,
    terms: &mut Terms,
    first: &[CompiledPolicy],
    second: &[CompiledPolicy],
) -> Result<u64, AllocError>
    requires first_in { AreCodes terms.old first.now }
    requires second_in { AreCodes terms.old second.now }
    ensures ok { IfOk result (λ n. StandsFor terms.new n (not_term (equal_term (allow (map
        (compiled_at terms.old) first.now)) (allow (map (compiled_at terms.old) second.now))))) }
    ensures kept { Keeps terms.old terms.new }
{
    let allowed = allow_term(alloc, terms, first)?;
    let others = allow_term(alloc, terms, second)?;
    let same = terms.equal(allowed, others)?;
    terms.not(same)
}

/// Whether both sets allow.
fn both_allow(
    alloc: Global,
    terms: &mut Terms,
    first: &[CompiledPolicy],
    second: &[CompiledPolicy],
) -> Result<u64, AllocError>
    requires first_in { AreCodes terms.old first.now }
    requires second_in { AreCodes terms.old second.now }
    ensures ok { IfOk result (λ n. StandsFor terms.new n (and_term (allow (map (compiled_at terms.old) first.now))
        (allow (map (compiled_at terms.old) second.now)))) }
    ensures kept { Keeps terms.old terms.new }
{
    let allowed = allow_term(alloc, terms, first)?;
    let others = allow_term(alloc, terms, second)?;
    terms.and(allowed, others)
}
