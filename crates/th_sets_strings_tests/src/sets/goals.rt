//! Goals over a context of two texts `x` and `y`, two sets of texts `s` and `t`, and a set `b` of truth
//! values, and over the tags of the principal, which are sets of texts.
ghost use Rattle.std.specs.Prelude.{◌<◌, ◌≤◌, length, IfOk};

use sc_lists::Text;
use sc_schema::{Env, Schema, tags_of};
use sc_sorts::{Sort, entity_sort, sort_of};
use sc_terms::Terms;
use std::alloc::{AllocError, Global};

pub(crate) const SCHEMA: &str =
    r#"{"":{"entityTypes":{"Doc":{},"User":{"tags":{"type":"Set","element":{"type":"String"}}}},"actions":{"view":{"appliesTo":{"principalTypes":["User"],"resourceTypes":["Doc"],"context":{"type":"Record","attributes":{"b":{"type":"Set","element":{"type":"Boolean"}},"s":{"type":"Set","element":{"type":"String"}},"t":{"type":"Set","element":{"type":"String"}},"x":{"type":"String"},"y":{"type":"String"}}}}}}}}"#;

/// What a goal asks.
#[derive(Clone, Copy, Debug)]
pub(crate) enum Asked {
    /// Whether `s` is `t`, and has `x` or `y` as a member.
    Sets,
    /// Whether `s` is within itself.
    Itself,
    /// Whether `s` has `x` and `t` has `y`, and the two have a member in common.
    Shared,
    /// Whether `s` has both `x` and `y`, and `t` has one of them and no other text.
    Written,
    /// Whether the tag under `x` has `x`, and that under `y` has `y`.
    Tags,
}

/// What goals are built in: an environment, with the number of the context.
#[derive(Clone, Copy)]
pub(crate) struct Place<'a> {
    pub(crate) alloc: Global,
    pub(crate) schema: &'a Schema,
    pub(crate) env: &'a Env,
    pub(crate) context: u64,
}

// ---- sets

fn field(place: Place<'_>, terms: &mut Terms, name: &str) -> Result<u64, AllocError>
    requires { place.context < length terms.old }
    ensures within { IfOk result (λ n. n < length terms.new) }
    ensures grows { length terms.old ≤ length terms.new }
{
    terms.field(place.context, Text::from_str(place.alloc, name)?)
}

/// `[x, y]`.
fn written(place: Place<'_>, terms: &mut Terms) -> Result<u64, AllocError>
    requires { place.context < length terms.old }
    ensures within { IfOk result (λ n. n < length terms.new) }
    ensures grows { length terms.old ≤ length terms.new }
{
    let x = field(place, terms, "x")?;
    let y = field(place, terms, "y")?;
    terms.set(Sort::String, &[x, y])
}

/// The tag of the principal under a key of the context.
fn tag(place: Place<'_>, terms: &mut Terms, key: &str) -> Result<u64, AllocError>
    requires { place.context < length terms.old }
    ensures within { IfOk result (λ n. n < length terms.new) }
    ensures grows { length terms.old ≤ length terms.new }
{
    let Some(ty) = tags_of(place.schema, &place.env.principal) else {
        return Err(AllocError);
    };
    let user = terms.principal(entity_sort(place.alloc, place.schema, &place.env.principal)?)?;
    let key = field(place, terms, key)?;
    terms.tag(user, key, sort_of(place.alloc, ty)?)
}

// ---- what is asked of one set, or of two

/// Whether a set has a text as a member.
fn member(place: Place<'_>, terms: &mut Terms, text: &str, set: &str) -> Result<u64, AllocError>
    requires { place.context < length terms.old }
    ensures within { IfOk result (λ n. n < length terms.new) }
    ensures grows { length terms.old ≤ length terms.new }
{
    let text = field(place, terms, text)?;
    let set = field(place, terms, set)?;
    terms.member(text, set)
}

/// Whether the tag under a text has that text as a member.
fn tagged(place: Place<'_>, terms: &mut Terms, text: &str) -> Result<u64, AllocError>
    requires { place.context < length terms.old }
    ensures within { IfOk result (λ n. n < length terms.new) }
    ensures grows { length terms.old ≤ length terms.new }
{
    let tag = tag(place, terms, text)?;
    let text = field(place, terms, text)?;
    terms.member(text, tag)
}

/// Whether `s` has `x` or `y` as a member.
fn meeting(place: Place<'_>, terms: &mut Terms) -> Result<u64, AllocError>
    requires { place.context < length terms.old }
    ensures within { IfOk result (λ n. n < length terms.new) }
    ensures grows { length terms.old ≤ length terms.new }
{
    let written = written(place, terms)?;
    let s = field(place, terms, "s")?;
    terms.common(written, s)
}

/// Whether `t` has `x` or `y` as a member.
fn meeting_turned(place: Place<'_>, terms: &mut Terms) -> Result<u64, AllocError>
    requires { place.context < length terms.old }
    ensures within { IfOk result (λ n. n < length terms.new) }
    ensures grows { length terms.old ≤ length terms.new }
{
    let written = written(place, terms)?;
    let t = field(place, terms, "t")?;
    terms.common(t, written)
}

/// Whether `s` has both `x` and `y` as members.
fn holding(place: Place<'_>, terms: &mut Terms) -> Result<u64, AllocError>
    requires { place.context < length terms.old }
    ensures within { IfOk result (λ n. n < length terms.new) }
    ensures grows { length terms.old ≤ length terms.new }
{
    let written = written(place, terms)?;
    let s = field(place, terms, "s")?;
    terms.subset(written, s)
}

/// Whether `t` has no member but `x` and `y`.
fn held(place: Place<'_>, terms: &mut Terms) -> Result<u64, AllocError>
    requires { place.context < length terms.old }
    ensures within { IfOk result (λ n. n < length terms.new) }
    ensures grows { length terms.old ≤ length terms.new }
{
    let written = written(place, terms)?;
    let t = field(place, terms, "t")?;
    terms.subset(t, written)
}

fn equation(place: Place<'_>, terms: &mut Terms) -> Result<u64, AllocError>
    requires { place.context < length terms.old }
    ensures within { IfOk result (λ n. n < length terms.new) }
    ensures grows { length terms.old ≤ length terms.new }
{
    let s = field(place, terms, "s")?;
    let t = field(place, terms, "t")?;
    terms.equal(s, t)
}

/// Whether `s` and `t` have a member in common.
fn common(place: Place<'_>, terms: &mut Terms) -> Result<u64, AllocError>
    requires { place.context < length terms.old }
    ensures within { IfOk result (λ n. n < length terms.new) }
    ensures grows { length terms.old ≤ length terms.new }
{
    let s = field(place, terms, "s")?;
    let t = field(place, terms, "t")?;
    terms.common(s, t)
}

// ---- goals

fn sets(place: Place<'_>, terms: &mut Terms) -> Result<u64, AllocError>
    requires { place.context < length terms.old }
    ensures within { IfOk result (λ n. n < length terms.new) }
    ensures grows { length terms.old ≤ length terms.new }
{
    let equation = equation(place, terms)?;
    let meeting = meeting(place, terms)?;
    terms.and(equation, meeting)
}

fn itself(place: Place<'_>, terms: &mut Terms) -> Result<u64, AllocError>
    requires { place.context < length terms.old }
    ensures within { IfOk result (λ n. n < length terms.new) }
    ensures grows { length terms.old ≤ length terms.new }
{
    let s = field(place, terms, "s")?;
    terms.subset(s, s)
}

fn members(place: Place<'_>, terms: &mut Terms) -> Result<u64, AllocError>
    requires { place.context < length terms.old }
    ensures within { IfOk result (λ n. n < length terms.new) }
    ensures grows { length terms.old ≤ length terms.new }
{
    let first = member(place, terms, "x", "s")?;
    let second = member(place, terms, "y", "t")?;
    terms.and(first, second)
}

fn shared(place: Place<'_>, terms: &mut Terms) -> Result<u64, AllocError>
    requires { place.context < length terms.old }
    ensures within { IfOk result (λ n. n < length terms.new) }
    ensures grows { length terms.old ≤ length terms.new }
{
    let members = members(place, terms)?;
    let common = common(place, terms)?;
    terms.and(members, common)
}

/// Whether `t` has `x` or `y` as a member, and no other text.
fn within(place: Place<'_>, terms: &mut Terms) -> Result<u64, AllocError>
    requires { place.context < length terms.old }
    ensures within { IfOk result (λ n. n < length terms.new) }
    ensures grows { length terms.old ≤ length terms.new }
{
    let held = held(place, terms)?;
    let meeting = meeting_turned(place, terms)?;
    terms.and(held, meeting)
}

fn of_written(place: Place<'_>, terms: &mut Terms) -> Result<u64, AllocError>
    requires { place.context < length terms.old }
    ensures within { IfOk result (λ n. n < length terms.new) }
    ensures grows { length terms.old ≤ length terms.new }
{
    let holding = holding(place, terms)?;
    let within = within(place, terms)?;
    terms.and(holding, within)
}

fn tags(place: Place<'_>, terms: &mut Terms) -> Result<u64, AllocError>
    requires { place.context < length terms.old }
    ensures within { IfOk result (λ n. n < length terms.new) }
    ensures grows { length terms.old ≤ length terms.new }
{
    let first = tagged(place, terms, "x")?;
    let second = tagged(place, terms, "y")?;
    terms.and(first, second)
}

/// The goal.
pub(crate) fn goal(place: Place<'_>, terms: &mut Terms, asked: Asked) -> Result<u64, AllocError>
    requires { place.context < length terms.old }
    ensures within { IfOk result (λ n. n < length terms.new) }
    ensures grows { length terms.old ≤ length terms.new }
{
    match asked {
        Asked::Sets => sets(place, terms),
        Asked::Itself => itself(place, terms),
        Asked::Shared => shared(place, terms),
        Asked::Written => of_written(place, terms),
        Asked::Tags => tags(place, terms),
    }
}
