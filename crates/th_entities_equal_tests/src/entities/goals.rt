//! Goals on what is stored of two users, the principal and one of the context, and on a choice of
//! declared actions, or of entities of an enumerated type.
ghost use Rattle.std.specs.Prelude.{◌<◌, ◌≤◌, length, IfOk};

use sc_lists::Text;
use sc_names::Uid;
use sc_schema::{Env, Schema, actions, attrs_of, tags_of};
use sc_sorts::{Literal, choices_of, entity_sort, sort_of};
use sc_terms::Terms;
use std::alloc::{AllocError, Global};

const STORED: &str =
    r#"{"":{"entityTypes":{"Group":{"memberOfTypes":["Group"]},"User":{"memberOfTypes":["Group"],"shape":{"type":"Record","attributes":{"vip":{"type":"Boolean"}}},"tags":{"type":"Boolean"}}},"actions":{"view":{"appliesTo":{"principalTypes":["User"],"resourceTypes":["Group"],"context":{"type":"Record","attributes":{"key":{"type":"String"},"other":{"type":"Entity","name":"User"},"top":{"type":"Entity","name":"Group"},"word":{"type":"String"}}}}}}}}"#;

/// To view is most that can be done, and that is all that can be done.
const DECLARED: &str =
    r#"{"":{"entityTypes":{"Doc":{},"User":{}},"actions":{"all":{},"most":{"memberOf":[{"id":"all"}]},"view":{"memberOf":[{"id":"most"}],"appliesTo":{"principalTypes":["User"],"resourceTypes":["Doc"],"context":{"type":"Record","attributes":{"flag":{"type":"Boolean"}}}}}}}}"#;

/// There are three paints, and one user. The context has two paints.
const CHOSEN: &str =
    r#"{"":{"entityTypes":{"Doc":{},"Paint":{"enum":["red","green","blue"]},"User":{"enum":["ada"]}},"actions":{"view":{"appliesTo":{"principalTypes":["User"],"resourceTypes":["Doc"],"context":{"type":"Record","attributes":{"flag":{"type":"Boolean"},"hue":{"type":"Entity","name":"Paint"},"paint":{"type":"Entity","name":"Paint"}}}}}}}}"#;

/// What is stored of a user and of its tags has values of many sorts.
const PLACES: &str =
    r#"{"":{"entityTypes":{"User":{"shape":{"type":"Record","attributes":{"boss":{"type":"Entity","name":"User"},"home":{"type":"Record","required":false,"attributes":{"city":{"type":"String"}}},"level":{"type":"Long"},"mates":{"type":"Set","element":{"type":"Entity","name":"User"}},"name":{"type":"Record","attributes":{"last":{"type":"String"}}},"nick":{"type":"String","required":false},"vip":{"type":"Boolean"}}},"tags":{"type":"Set","element":{"type":"String"}}}},"actions":{"view":{"appliesTo":{"principalTypes":["User"],"resourceTypes":["User"],"context":{"type":"Record","attributes":{"key":{"type":"String"},"mate":{"type":"Entity","name":"User"},"other":{"type":"Entity","name":"User"},"word":{"type":"String"}}}}}}}}"#;

/// What a goal asks.
#[derive(Clone, Copy, Debug)]
pub(crate) enum Asked {
    /// Whether both users are important, have a tag each and are in the resource, which is in a group.
    Stored,
    /// Whether both users have a mate, and a tag each with a key in it.
    Places,
    /// Whether an action, to view if a flag is set and else all, is in all.
    Declared,
    /// Whether a paint, one if a flag is set and else another, is the one.
    Chosen,
}

/// The text of the schema.
pub(crate) fn schema_text(asked: Asked) -> &'static str {
    match asked {
        Asked::Stored => STORED,
        Asked::Places => PLACES,
        Asked::Declared => DECLARED,
        Asked::Chosen => CHOSEN,
    }
}

/// What goals are built in: an environment, with the number of the context.
#[derive(Clone, Copy)]
pub(crate) struct Place<'a> {
    pub(crate) alloc: Global,
    pub(crate) schema: &'a Schema,
    pub(crate) env: &'a Env,
    pub(crate) context: u64,
}

fn field(place: Place<'_>, terms: &mut Terms, name: &str) -> Result<u64, AllocError>
    requires { place.context < length terms.old }
    ensures within { IfOk result (λ n. n < length terms.new) }
    ensures grows { length terms.old ≤ length terms.new }
{
    terms.field(place.context, Text::from_str(place.alloc, name)?)
}

// ---- what is stored of users

/// The principal, or else the user of the context.
fn user(place: Place<'_>, terms: &mut Terms, principal: bool) -> Result<u64, AllocError>
    requires { place.context < length terms.old }
    ensures within { IfOk result (λ n. n < length terms.new) }
    ensures grows { length terms.old ≤ length terms.new }
{
    if principal {
        terms.principal(entity_sort(place.alloc, place.schema, &place.env.principal)?)
    } else {
        field(place, terms, "other")
    }
}

/// An attribute of a user.
fn attribute(
    place: Place<'_>,
    terms: &mut Terms,
    principal: bool,
    name: &str,
) -> Result<u64, AllocError>
    requires { place.context < length terms.old }
    ensures within { IfOk result (λ n. n < length terms.new) }
    ensures grows { length terms.old ≤ length terms.new }
{
    let Some(ty) = attrs_of(place.schema, &place.env.principal) else {
        return Err(AllocError);
    };
    let user = user(place, terms, principal)?;
    let attributes = terms.attributes(user, sort_of(place.alloc, ty)?)?;
    terms.field(attributes, Text::from_str(place.alloc, name)?)
}

/// A user's tag under a key of the context.
fn tag(place: Place<'_>, terms: &mut Terms, principal: bool, key: &str) -> Result<u64, AllocError>
    requires { place.context < length terms.old }
    ensures within { IfOk result (λ n. n < length terms.new) }
    ensures grows { length terms.old ≤ length terms.new }
{
    let Some(ty) = tags_of(place.schema, &place.env.principal) else {
        return Err(AllocError);
    };
    let user = user(place, terms, principal)?;
    let key = field(place, terms, key)?;
    terms.tag(user, key, sort_of(place.alloc, ty)?)
}

/// Whether a group is above an entity.
fn is_above(place: Place<'_>, terms: &mut Terms, group: u64, entity: u64) -> Result<u64, AllocError>
    requires group { group < length terms.old }
    requires entity { entity < length terms.old }
    ensures within { IfOk result (λ n. n < length terms.new) }
    ensures grows { length terms.old ≤ length terms.new }
{
    let sort = entity_sort(place.alloc, place.schema, &place.env.resource)?;
    let groups = terms.ancestors(entity, sort)?;
    terms.member(group, groups)
}

fn resource(place: Place<'_>, terms: &mut Terms) -> Result<u64, AllocError>
    ensures within { IfOk result (λ n. n < length terms.new) }
    ensures grows { length terms.old ≤ length terms.new }
{
    terms.resource(entity_sort(place.alloc, place.schema, &place.env.resource)?)
}

/// Whether a user is in the resource.
fn membership(place: Place<'_>, terms: &mut Terms, principal: bool) -> Result<u64, AllocError>
    requires { place.context < length terms.old }
    ensures within { IfOk result (λ n. n < length terms.new) }
    ensures grows { length terms.old ≤ length terms.new }
{
    let user = user(place, terms, principal)?;
    let group = resource(place, terms)?;
    is_above(place, terms, group, user)
}

/// Whether the resource is in the group of the context.
fn upper_membership(place: Place<'_>, terms: &mut Terms) -> Result<u64, AllocError>
    requires { place.context < length terms.old }
    ensures within { IfOk result (λ n. n < length terms.new) }
    ensures grows { length terms.old ≤ length terms.new }
{
    let group = resource(place, terms)?;
    let top = field(place, terms, "top")?;
    is_above(place, terms, top, group)
}

/// What is asked of one user.
fn of_user(
    place: Place<'_>,
    terms: &mut Terms,
    principal: bool,
    key: &str,
) -> Result<u64, AllocError>
    requires { place.context < length terms.old }
    ensures within { IfOk result (λ n. n < length terms.new) }
    ensures grows { length terms.old ≤ length terms.new }
{
    let importance = attribute(place, terms, principal, "vip")?;
    let tag = tag(place, terms, principal, key)?;
    let membership = membership(place, terms, principal)?;
    let both = terms.and(importance, tag)?;
    terms.and(both, membership)
}

fn stored(place: Place<'_>, terms: &mut Terms) -> Result<u64, AllocError>
    requires { place.context < length terms.old }
    ensures within { IfOk result (λ n. n < length terms.new) }
    ensures grows { length terms.old ≤ length terms.new }
{
    let first = of_user(place, terms, true, "key")?;
    let second = of_user(place, terms, false, "word")?;
    let both = terms.and(first, second)?;
    let upper = upper_membership(place, terms)?;
    terms.and(both, upper)
}

// ---- places of what is stored of users

/// Whether the mate of the context is one of a user.
fn has_mate(place: Place<'_>, terms: &mut Terms, principal: bool) -> Result<u64, AllocError>
    requires { place.context < length terms.old }
    ensures within { IfOk result (λ n. n < length terms.new) }
    ensures grows { length terms.old ≤ length terms.new }
{
    let mates = attribute(place, terms, principal, "mates")?;
    let mate = field(place, terms, "mate")?;
    terms.member(mate, mates)
}

/// Whether a key of the context is in a user's tag under another.
fn has_key(
    place: Place<'_>,
    terms: &mut Terms,
    principal: bool,
    under: &str,
) -> Result<u64, AllocError>
    requires { place.context < length terms.old }
    ensures within { IfOk result (λ n. n < length terms.new) }
    ensures grows { length terms.old ≤ length terms.new }
{
    let keys = tag(place, terms, principal, under)?;
    let key = field(place, terms, "key")?;
    terms.member(key, keys)
}

/// What is asked of the places of one user.
fn of_places(
    place: Place<'_>,
    terms: &mut Terms,
    principal: bool,
    under: &str,
) -> Result<u64, AllocError>
    requires { place.context < length terms.old }
    ensures within { IfOk result (λ n. n < length terms.new) }
    ensures grows { length terms.old ≤ length terms.new }
{
    let mate = has_mate(place, terms, principal)?;
    let key = has_key(place, terms, principal, under)?;
    terms.and(mate, key)
}

fn places(place: Place<'_>, terms: &mut Terms) -> Result<u64, AllocError>
    requires { place.context < length terms.old }
    ensures within { IfOk result (λ n. n < length terms.new) }
    ensures grows { length terms.old ≤ length terms.new }
{
    let first = of_places(place, terms, true, "key")?;
    let second = of_places(place, terms, false, "word")?;
    terms.and(first, second)
}

// ---- declared actions

fn action(place: Place<'_>, terms: &mut Terms, uid: &Uid) -> Result<u64, AllocError>
    ensures within { IfOk result (λ n. n < length terms.new) }
    ensures grows { length terms.old ≤ length terms.new }
{
    let choices = choices_of(place.alloc, place.schema, &uid.type_name)?;
    terms.literal(Literal::Entity(uid.try_clone(place.alloc)?, choices))
}

/// The action `all`.
fn all(place: Place<'_>, terms: &mut Terms) -> Result<u64, AllocError>
    ensures within { IfOk result (λ n. n < length terms.new) }
    ensures grows { length terms.old ≤ length terms.new }
{
    match actions(place.schema).get(0) {
        Some(uid) => action(place, terms, uid),
        None => Err(AllocError),
    }
}

/// To view if a flag is set, and else all.
fn choice(place: Place<'_>, terms: &mut Terms) -> Result<u64, AllocError>
    requires { place.context < length terms.old }
    ensures within { IfOk result (λ n. n < length terms.new) }
    ensures grows { length terms.old ≤ length terms.new }
{
    let flag = field(place, terms, "flag")?;
    let view = action(place, terms, &place.env.action)?;
    let all = all(place, terms)?;
    terms.choice(flag, view, all)
}

fn declared(place: Place<'_>, terms: &mut Terms) -> Result<u64, AllocError>
    requires { place.context < length terms.old }
    ensures within { IfOk result (λ n. n < length terms.new) }
    ensures grows { length terms.old ≤ length terms.new }
{
    let choice = choice(place, terms)?;
    let sort = entity_sort(place.alloc, place.schema, &place.env.action.type_name)?;
    let above = terms.ancestors(choice, sort)?;
    let all = all(place, terms)?;
    terms.member(all, above)
}

// ---- entities of an enumerated type

/// The paint of the context if a flag is set, and else its hue.
fn paint_or_hue(place: Place<'_>, terms: &mut Terms) -> Result<u64, AllocError>
    requires { place.context < length terms.old }
    ensures within { IfOk result (λ n. n < length terms.new) }
    ensures grows { length terms.old ≤ length terms.new }
{
    let flag = field(place, terms, "flag")?;
    let paint = field(place, terms, "paint")?;
    let hue = field(place, terms, "hue")?;
    terms.choice(flag, paint, hue)
}

fn chosen(place: Place<'_>, terms: &mut Terms) -> Result<u64, AllocError>
    requires { place.context < length terms.old }
    ensures within { IfOk result (λ n. n < length terms.new) }
    ensures grows { length terms.old ≤ length terms.new }
{
    let choice = paint_or_hue(place, terms)?;
    let paint = field(place, terms, "paint")?;
    terms.equal(choice, paint)
}

/// The goal.
pub(crate) fn goal(place: Place<'_>, terms: &mut Terms, asked: Asked) -> Result<u64, AllocError>
    requires { place.context < length terms.old }
    ensures within { IfOk result (λ n. n < length terms.new) }
    ensures grows { length terms.old ≤ length terms.new }
{
    match asked {
        Asked::Stored => stored(place, terms),
        Asked::Places => places(place, terms),
        Asked::Declared => declared(place, terms),
        Asked::Chosen => chosen(place, terms),
    }
}
