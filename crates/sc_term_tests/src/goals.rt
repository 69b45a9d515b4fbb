//! Goals over a context with a truth value, a number that may be absent, two texts, two sets of texts
//! and a user. Users may be in users.
ghost use Rattle.std.specs.Prelude.{IfOk};
ghost use Rattle.sc_terms.specs.Tables.{Keeps};
ghost use Rattle.sc_test_goals.specs.Plain.{IsPlain};

use sc_lists::Text;
use sc_pattern::{Part, pattern_of};
use sc_schema::{Env, Schema, Ty};
use sc_schema_json::read_schema;
use sc_sorts::{entity_sort, sort_of};
use sc_terms::Terms;
use std::alloc::{AllocError, Global};

const SCHEMA: &str =
    r#"{"":{"entityTypes":{"Doc":{},"User":{"memberOfTypes":["User"]}},"actions":{"view":{"appliesTo":{"principalTypes":["User"],"resourceTypes":["Doc"],"context":{"type":"Record","attributes":{"flag":{"type":"Boolean"},"level":{"type":"Long","required":false},"name":{"type":"String"},"names":{"type":"Set","element":{"type":"String"}},"nick":{"type":"String"},"others":{"type":"Set","element":{"type":"String"}},"owner":{"type":"Entity","name":"User"}}}}}}}}"#;

/// The schema. That its text isn't read counts as want of memory.
pub(crate) fn schema(alloc: Global) -> Result<Schema, AllocError> {
    match read_schema(alloc, SCHEMA.as_bytes()) {
        Ok(schema) => Ok(schema),
        Err(_) => Err(AllocError),
    }
}

/// What a goal asks of the context.
#[derive(Clone, Copy)]
pub(crate) enum Asked {
    /// The truth value.
    Flag,
    /// Whether the first text begins with x.
    Like,
    /// Whether the first set holds the first text.
    Member,
    /// Whether the second set holds all of the first.
    Subset,
    /// Whether the user is above the principal.
    Above,
}

/// An attribute of the context.
#[tactic(auto, using(sc_test_goals::proofs::GoalLaws::attribute_plain))]
fn attribute(alloc: Global, terms: &mut Terms, ty: &Ty, name: &str) -> Result<u64, AllocError>
    ensures plain { IfOk result (λ n. IsPlain terms.new n) }
    ensures kept { Keeps terms.old terms.new }
{
    let context = terms.context(sort_of(alloc, ty)?)?;
    terms.field(context, Text::from_str(alloc, name)?)
}

#[tactic(auto, using(sc_test_goals::proofs::GoalLaws::like_plain))]
fn like(alloc: Global, terms: &mut Terms, ty: &Ty) -> Result<u64, AllocError>
    ensures plain { IfOk result (λ n. IsPlain terms.new n) }
    ensures kept { Keeps terms.old terms.new }
{
    let text = attribute(alloc, terms, ty, "name")?;
    let pattern = pattern_of(alloc, &[Part::Char('x'), Part::Star])?;
    terms.like(text, pattern)
}

fn member(alloc: Global, terms: &mut Terms, ty: &Ty) -> Result<u64, AllocError>
    ensures plain { IfOk result (λ n. IsPlain terms.new n) }
    ensures kept { Keeps terms.old terms.new }
{
    let text = attribute(alloc, terms, ty, "name")?;
    let set = attribute(alloc, terms, ty, "names")?;
    terms.member(text, set)
}

fn subset(alloc: Global, terms: &mut Terms, ty: &Ty) -> Result<u64, AllocError>
    ensures plain { IfOk result (λ n. IsPlain terms.new n) }
    ensures kept { Keeps terms.old terms.new }
{
    let first = attribute(alloc, terms, ty, "names")?;
    let second = attribute(alloc, terms, ty, "others")?;
    terms.subset(first, second)
}

/// The users above the principal.
fn users_above(
    alloc: Global,
    terms: &mut Terms,
    schema: &Schema,
    env: &Env,
) -> Result<u64, AllocError>
    ensures plain { IfOk result (λ n. IsPlain terms.new n) }
    ensures kept { Keeps terms.old terms.new }
{
    let principal = terms.principal(entity_sort(alloc, schema, &env.principal)?)?;
    terms.ancestors(principal, entity_sort(alloc, schema, &env.principal)?)
}

fn above(
    alloc: Global,
    terms: &mut Terms,
    schema: &Schema,
    env: &Env,
    ty: &Ty,
) -> Result<u64, AllocError>
    ensures plain { IfOk result (λ n. IsPlain terms.new n) }
    ensures kept { Keeps terms.old terms.new }
{
    let user = attribute(alloc, terms, ty, "owner")?;
    let users = users_above(alloc, terms, schema, env)?;
    terms.member(user, users)
}

/// The number of a goal, where the context is of this type.
pub(crate) fn goal_of(
    alloc: Global,
    terms: &mut Terms,
    schema: &Schema,
    env: &Env,
    ty: &Ty,
    asked: Asked,
) -> Result<u64, AllocError>
    ensures plain { IfOk result (λ n. IsPlain terms.new n) }
    ensures kept { Keeps terms.old terms.new }
{
    match asked {
        Asked::Flag => attribute(alloc, terms, ty, "flag"),
        Asked::Like => like(alloc, terms, ty),
        Asked::Member => member(alloc, terms, ty),
        Asked::Subset => subset(alloc, terms, ty),
        Asked::Above => above(alloc, terms, schema, env, ty),
    }
}
