//! A problem of two texts of the context and one pattern, which one text matches.
ghost use Rattle.std.specs.Prelude.{◌≡◌, ◌<◌, [], Contains, length, IfOk};
ghost use Rattle.sc_schema.specs.Declarations.{environments};
ghost use Rattle.sc_terms.specs.Tables.{Keeps, tree};
ghost use Rattle.sc_closure_rules.specs.Goals.{IsGoal};
ghost use Rattle.sc_test_goals.specs.Plain.{IsPlain};

use sc_footprint::{OverLimit, Problem, close};
use sc_lists::{Fault, Text};
use sc_names::Lits;
use sc_pattern::{Part, pattern_of};
use sc_schema::{Env, Schema, Ty, context_of};
use sc_schema_json::read_schema;
use sc_sorts::sort_of;
use sc_terms::Terms;
use sc_test_goals::is_plain_goal;
use std::alloc::{AllocError, Global};

const SCHEMA: &str =
    r#"{"":{"entityTypes":{"Doc":{},"User":{}},"actions":{"view":{"appliesTo":{"principalTypes":["User"],"resourceTypes":["Doc"],"context":{"type":"Record","attributes":{"flag":{"type":"Boolean"},"name":{"type":"String"},"nick":{"type":"String"}}}}}}}}"#;

/// The schema. That its text isn't read counts as want of memory.
pub(crate) fn schema(alloc: Global) -> Result<Schema, AllocError> {
    match read_schema(alloc, SCHEMA.as_bytes()) {
        Ok(schema) => Ok(schema),
        Err(_) => Err(AllocError),
    }
}

/// An attribute of the context.
#[tactic(auto, using(sc_test_goals::proofs::GoalLaws::attribute_plain))]
fn attribute(alloc: Global, terms: &mut Terms, ty: &Ty, name: &str) -> Result<u64, AllocError>
    ensures plain { IfOk result (λ n. IsPlain terms.new n) }
    ensures kept { Keeps terms.old terms.new }
{
    let context = terms.context(sort_of(alloc, ty)?)?;
    terms.field(context, Text::from_str(alloc, name)?)
}

/// Whether the first text is x.
#[tactic(auto, using(sc_test_goals::proofs::GoalLaws::like_plain))]
fn like(alloc: Global, terms: &mut Terms, ty: &Ty) -> Result<u64, AllocError>
    ensures plain { IfOk result (λ n. IsPlain terms.new n) }
    ensures kept { Keeps terms.old terms.new }
{
    let text = attribute(alloc, terms, ty, "name")?;
    let pattern = pattern_of(alloc, &[Part::Char('x')])?;
    terms.like(text, pattern)
}

/// The number of the goal in a table, to which it is added.
fn number_of(
    alloc: Global,
    schema: &Schema,
    env: &Env,
    literals: &Lits,
    terms: &mut Terms,
) -> Result<u64, AllocError>
    requires environment { Contains (environments schema.now) env.now }
    requires none { literals.now ≡ [] }
    ensures within { IfOk result (λ n. n < length terms.new) }
    ensures goal { IfOk result (λ n. IsGoal schema.now env.now literals.now (tree terms.new n)) }
{
    let Some(ty) = context_of(schema, &env.action) else {
        return Err(AllocError);
    };
    let goal = like(alloc, terms, ty)?;
    if is_plain_goal(alloc, schema, env, literals, terms, goal)? {
        Ok(goal)
    } else {
        Err(AllocError)
    }
}

/// The problem whether the first text is x.
pub(crate) fn problem<'a>(
    alloc: Global,
    schema: &'a Schema,
    env: &'a Env,
    literals: &'a Lits,
) -> Result<Problem<'a>, Fault<OverLimit>>
    requires environment { Contains (environments schema.now) env.now }
    requires none { literals.now ≡ [] }
{
    let mut terms = Terms::new(alloc)?;
    let goal = number_of(alloc, schema, env, literals, &mut terms)?;
    close(alloc, terms, goal, schema, env, literals)
}
