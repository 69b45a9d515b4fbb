//! The problem of the goal.
ghost use Rattle.std.specs.Prelude.{◌≡◌, ◌<◌, [], Contains, length, IfOk};
ghost use Rattle.sc_schema.specs.Declarations.{environments};
ghost use Rattle.sc_terms.specs.Tables.{tree};
ghost use Rattle.sc_closure_rules.specs.Goals.{IsGoal};

use crate::equations::goals::{SCHEMA, goal};
use sc_footprint::{OverLimit, Problem, close};
use sc_lists::Fault;
use sc_names::Lits;
use sc_schema::{Env, Schema, context_of};
use sc_schema_json::read_schema;
use sc_sorts::sort_of;
use sc_terms::Terms;
use sc_test_goals::is_goal;
use std::alloc::{AllocError, Global};

/// The schema. That its text isn't read counts as want of memory.
pub(crate) fn schema(alloc: Global) -> Result<Schema, AllocError> {
    match read_schema(alloc, SCHEMA.as_bytes()) {
        Ok(schema) => Ok(schema),
        Err(_) => Err(AllocError),
    }
}

/// The number of the goal in a table, to which it is added.
fn number_of(
    alloc: Global,
    schema: &Schema,
    env: &Env,
    literals: &Lits,
    terms: &mut Terms,
) -> Result<u64, AllocError>
    requires environment { Contains (environments schema.now) env.now }
    requires none { literals.now ≡ [] }
    ensures within { IfOk result (λ n. n < length terms.new) }
    ensures goal { IfOk result (λ n. IsGoal schema.now env.now literals.now (tree terms.new n)) }
{
    let Some(ty) = context_of(schema, &env.action) else {
        return Err(AllocError);
    };
    let context = terms.context(sort_of(alloc, ty)?)?;
    let n = goal(alloc, terms, context)?;
    if is_goal(alloc, schema, env, literals, terms, n)? {
        Ok(n)
    } else {
        Err(AllocError)
    }
}

/// The problem of the goal in an environment.
pub(crate) fn problem<'a>(
    alloc: Global,
    schema: &'a Schema,
    env: &'a Env,
    literals: &'a Lits,
) -> Result<Problem<'a>, Fault<OverLimit>>
    requires environment { Contains (environments schema.now) env.now }
    requires none { literals.now ≡ [] }
{
    let mut terms = Terms::new(alloc)?;
    let n = number_of(alloc, schema, env, literals, &mut terms)?;
    close(alloc, terms, n, schema, env, literals)
}
