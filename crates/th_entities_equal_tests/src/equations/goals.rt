//! A goal of the context: `(if flag then left else right) == left && first == second`. The two that
//! are equated last are records of a text and one that may be absent.
ghost use Rattle.std.specs.Prelude.{◌<◌, ◌≤◌, length, IfOk};

use sc_lists::Text;
use sc_terms::Terms;
use std::alloc::{AllocError, Global};

pub(crate) const SCHEMA: &str =
    r#"{"":{"entityTypes":{"Doc":{},"User":{}},"actions":{"view":{"appliesTo":{"principalTypes":["User"],"resourceTypes":["Doc"],"context":{"type":"Record","attributes":{"first":{"type":"Record","attributes":{"name":{"type":"String"},"nick":{"type":"String","required":false}}},"flag":{"type":"Boolean"},"left":{"type":"String"},"right":{"type":"String"},"second":{"type":"Record","attributes":{"name":{"type":"String"},"nick":{"type":"String","required":false}}}}}}}}}}"#;

fn field(alloc: Global, terms: &mut Terms, context: u64, name: &str) -> Result<u64, AllocError>
    requires { context < length terms.old }
    ensures within { IfOk result (λ n. n < length terms.new) }
    ensures grows { length terms.old ≤ length terms.new }
{
    terms.field(context, Text::from_str(alloc, name)?)
}

/// `if flag then left else right`.
fn choice(alloc: Global, terms: &mut Terms, context: u64) -> Result<u64, AllocError>
    requires { context < length terms.old }
    ensures within { IfOk result (λ n. n < length terms.new) }
    ensures grows { length terms.old ≤ length terms.new }
{
    let flag = field(alloc, terms, context, "flag")?;
    let left = field(alloc, terms, context, "left")?;
    let right = field(alloc, terms, context, "right")?;
    terms.choice(flag, left, right)
}

/// `(if flag then left else right) == left`.
fn left_chosen(alloc: Global, terms: &mut Terms, context: u64) -> Result<u64, AllocError>
    requires { context < length terms.old }
    ensures within { IfOk result (λ n. n < length terms.new) }
    ensures grows { length terms.old ≤ length terms.new }
{
    let choice = choice(alloc, terms, context)?;
    let left = field(alloc, terms, context, "left")?;
    terms.equal(choice, left)
}

/// `first == second`.
fn same_records(alloc: Global, terms: &mut Terms, context: u64) -> Result<u64, AllocError>
    requires { context < length terms.old }
    ensures within { IfOk result (λ n. n < length terms.new) }
    ensures grows { length terms.old ≤ length terms.new }
{
    let first = field(alloc, terms, context, "first")?;
    let second = field(alloc, terms, context, "second")?;
    terms.equal(first, second)
}

/// The goal.
pub(crate) fn goal(alloc: Global, terms: &mut Terms, context: u64) -> Result<u64, AllocError>
    requires { context < length terms.old }
    ensures within { IfOk result (λ n. n < length terms.new) }
    ensures grows { length terms.old ≤ length terms.new }
{
    let chosen = left_chosen(alloc, terms, context)?;
    let same = same_records(alloc, terms, context)?;
    terms.and(chosen, same)
}
