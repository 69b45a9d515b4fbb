//! The problems of goals, and what is asked of them.
ghost use Rattle.std.specs.Prelude.{◌≡◌, ◌<◌, [], Contains, length, IfOk};
ghost use Rattle.sc_schema.specs.Declarations.{environments};
ghost use Rattle.sc_terms.specs.Tables.{tree};
ghost use Rattle.sc_closure_rules.specs.Goals.{IsGoal};

use crate::sets::goals::{Asked, Place, SCHEMA, goal};
use crate::sets::instances::{is_accepted, is_refused};
use crate::sets::violations::is_falsified;
use sc_footprint::{OverLimit, Problem, close};
use sc_lists::Fault;
use sc_names::Lits;
use sc_schema::{Env, Schema, context_of, environments};
use sc_schema_json::read_schema;
use sc_sorts::sort_of;
use sc_terms::Terms;
use sc_test_goals::is_goal;
use std::alloc::{AllocError, Global};

/// What the rows of a table say.
#[derive(Clone, Copy)]
pub(crate) enum Rows {
    /// Instances that a problem doesn't have.
    Forged,
    /// Instances that it has, and their literals.
    Right,
    /// Facts, and the instances that they falsify.
    Told,
}

fn is_right(
    alloc: Global,
    problem: &Problem<'_>,
    rows: Rows,
    row: &str,
) -> Result<bool, AllocError> {
    match rows {
        Rows::Forged => is_refused(alloc, problem, row),
        Rows::Right => is_accepted(alloc, problem, row),
        Rows::Told => is_falsified(alloc, problem, row),
    }
}

/// The first row of a table that isn't as it says. A line behind `#` is a heading.
fn first_wrong_row<'t>(
    alloc: Global,
    problem: &Problem<'_>,
    rows: Rows,
    table: &'t str,
) -> Result<Option<&'t str>, AllocError> {
    for line in table.lines() {
        if !line.starts_with('#') && !is_right(alloc, problem, rows, line)? {
            return Ok(Some(line));
        }
    }
    Ok(None)
}

/// The schema. That its text isn't read counts as want of memory.
fn schema(alloc: Global) -> Result<Schema, AllocError> {
    match read_schema(alloc, SCHEMA.as_bytes()) {
        Ok(schema) => Ok(schema),
        Err(_) => Err(AllocError),
    }
}

/// The number of the goal in a table, to which it is added.
fn number_of(
    alloc: Global,
    schema: &Schema,
    env: &Env,
    literals: &Lits,
    terms: &mut Terms,
    asked: Asked,
) -> Result<u64, AllocError>
    requires environment { Contains (environments schema.now) env.now }
    requires none { literals.now ≡ [] }
    ensures within { IfOk result (λ n. n < length terms.new) }
    ensures goal { IfOk result (λ n. IsGoal schema.now env.now literals.now (tree terms.new n)) }
{
    let Some(ty) = context_of(schema, &env.action) else {
        return Err(AllocError);
    };
    let context = terms.context(sort_of(alloc, ty)?)?;
    let place = Place {
        alloc,
        schema,
        env,
        context,
    };
    let n = goal(place, terms, asked)?;
    if is_goal(alloc, schema, env, literals, terms, n)? {
        Ok(n)
    } else {
        Err(AllocError)
    }
}

/// The problem of a goal in an environment.
fn problem<'a>(
    alloc: Global,
    schema: &'a Schema,
    env: &'a Env,
    literals: &'a Lits,
    asked: Asked,
) -> Result<Problem<'a>, Fault<OverLimit>>
    requires environment { Contains (environments schema.now) env.now }
    requires none { literals.now ≡ [] }
{
    let mut terms = Terms::new(alloc)?;
    let n = number_of(alloc, schema, env, literals, &mut terms, asked)?;
    close(alloc, terms, n, schema, env, literals)
}

fn first_wrong_under<'t>(
    alloc: Global,
    schema: &Schema,
    asked: Asked,
    rows: Rows,
    table: &'t str,
) -> Result<Option<&'t str>, AllocError> {
    let Some(env) = environments(schema).get(0) else {
        return Err(AllocError);
    };
    let literals = Lits::new(alloc);
    match problem(alloc, schema, env, &literals, asked) {
        Ok(problem) => first_wrong_row(alloc, &problem, rows, table),
        Err(_) => Err(AllocError),
    }
}

/// The first row of a table that isn't as it says of the problem of a goal. That the problem is over the
/// limit counts as want of memory.
pub(crate) fn first_wrong<'t>(
    alloc: Global,
    asked: Asked,
    rows: Rows,
    table: &'t str,
) -> Result<Option<&'t str>, AllocError> {
    let schema = schema(alloc)?;
    first_wrong_under(alloc, &schema, asked, rows, table)
}
