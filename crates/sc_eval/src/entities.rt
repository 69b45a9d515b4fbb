//! What is read from records and from the entities that are stored.
ghost use Rattle.std.specs.Prelude.{◌≡◌};
ghost use Rattle.std.specs.List.{list_any};
ghost use Rattle.std.specs.Result.{result_map_both};
ghost use Rattle.sc_lists.specs.Told.{Gives};
ghost use Rattle.sc_world.specs.Stores.{stored};
ghost use Rattle.sc_eval.specs.Outcomes.{of_bool};
ghost use Rattle.sc_eval.specs.Entities.{access, has, has_path, has_tag, tag_of, is_of, same_uid, ancestors_of, is_or_in, is_in, is_in_some};
ghost use Rattle.sc_eval.specs.Operators.{tagged};

use crate::error::EvalError;
use crate::kinds::{entity_in, text_in};
use sc_ast::TypeName;
use sc_lists::{Fault, Text};
use sc_names::{Uid, compare};
use sc_values::{Value, field, try_clone};
use sc_world::World;
use std::alloc::Global;

/// `x.name`: the field of a record, or an entity's attribute. A record or an entity without it is
/// `AttrMissing`, an entity that isn't stored `EntityMissing`, another value a `TypeError`.
pub(crate) fn access(
    alloc: Global,
    world: &World,
    x: &Value,
    name: &Text,
) -> Result<Value, Fault<EvalError>>
    ensures { Gives result (access name.now world.now x.now) }
{
    Ok(try_clone(alloc, attribute(world, x, name)?)?)
}

fn attribute<'a>(world: &'a World, x: &'a Value, name: &Text) -> Result<&'a Value, EvalError>
    ensures { result_map_both (λ y. y.now) (λ e. e) result ≡ access name.now world.now x.now }
{
    match x {
        Value::Record(fields) => field(fields, name.as_str()).ok_or(EvalError::AttrMissing),
        Value::Entity(uid) => match world.store.get(uid) {
            Some(entity) => field(&entity.attrs, name.as_str()).ok_or(EvalError::AttrMissing),
            None => Err(EvalError::EntityMissing),
        },
        _ => Err(EvalError::TypeError),
    }
}

fn has(world: &World, x: &Value, name: &Text) -> Result<bool, EvalError>
    ensures { result ≡ has name.now world.now x.now }
{
    match x {
        Value::Record(fields) => Ok(field(fields, name.as_str()).is_some()),
        Value::Entity(uid) => match world.store.get(uid) {
            Some(entity) => Ok(field(&entity.attrs, name.as_str()).is_some()),
            None => Ok(false),
        },
        _ => Err(EvalError::TypeError),
    }
}

/// `x has a.b.c`. An entity that isn't stored has no attributes; what is neither a record nor an
/// entity is a `TypeError`.
pub(crate) fn has_path(world: &World, x: &Value, names: &[Text]) -> Result<bool, EvalError>
    ensures { result ≡ has_path names.now world.now x.now }
{
    let mut at = x;
    for name in names {
        if !has(world, at, name)? {
            return Ok(false);
        }
        at = attribute(world, at, name)?;
    }
    Ok(true)
}

/// `x.hasTag(y)`. An entity that isn't stored has no tags.
pub(crate) fn has_tag(world: &World, x: &Value, y: &Value) -> Result<Value, EvalError>
    ensures { result ≡ tagged x.now y.now (λ u key. of_bool (has_tag key (stored u world.now.store))) }
{
    let uid = entity_in(x)?;
    let key = text_in(y)?;
    match world.store.get(uid) {
        Some(entity) => Ok(Value::Bool(field(&entity.tags, key.as_str()).is_some())),
        None => Ok(Value::Bool(false)),
    }
}

/// `x.getTag(y)`. An entity without the tag is `TagMissing`, one that isn't stored `EntityMissing`.
pub(crate) fn get_tag(
    alloc: Global,
    world: &World,
    x: &Value,
    y: &Value,
) -> Result<Value, Fault<EvalError>>
    ensures { Gives result (tagged x.now y.now (λ u key. tag_of key (stored u world.now.store))) }
{
    Ok(try_clone(alloc, tag(world, x, y)?)?)
}

fn tag<'a>(world: &'a World, x: &Value, y: &Value) -> Result<&'a Value, EvalError>
    ensures { result_map_both (λ z. z.now) (λ e. e) result
        ≡ tagged x.now y.now (λ u key. tag_of key (stored u world.now.store)) }
{
    let uid = entity_in(x)?;
    let key = text_in(y)?;
    match world.store.get(uid) {
        Some(entity) => field(&entity.tags, key.as_str()).ok_or(EvalError::TagMissing),
        None => Err(EvalError::EntityMissing),
    }
}

/// `x is T`.
pub(crate) fn is_of(x: &Value, type_name: &TypeName) -> Result<bool, EvalError>
    ensures { result ≡ is_of type_name.now.name x.now }
{
    let uid = entity_in(x)?;
    Ok(uid.type_name.as_str() == type_name.name.as_str())
}

/// `x in y`: whether an entity is another one, or one of a set, or has one of them among its
/// ancestors. An entity that isn't stored has no ancestors.
pub(crate) fn is_in(world: &World, x: &Value, y: &Value) -> Result<bool, EvalError>
    ensures { result ≡ is_in world.now x.now y.now }
{
    let a = entity_in(x)?;
    match y {
        Value::Entity(b) => Ok(is_or_in(world, a, b)),
        Value::Set(members) => is_in_some(world, a, members.as_slice()),
        _ => Err(EvalError::TypeError),
    }
}

/// Whether an entity is one of the members, or in one; each has to be an entity.
fn is_in_some(world: &World, a: &Uid, members: &[Value]) -> Result<bool, EvalError>
    ensures { result ≡ is_in_some world.now a.now members.now }
{
    let mut found = false;
    for member in members {
        let b = entity_in(member)?;
        found = found || is_or_in(world, a, b);
    }
    Ok(found)
}

/// Whether an entity is another one, or in it.
fn is_or_in(world: &World, a: &Uid, b: &Uid) -> bool
    ensures { result ≡ is_or_in world.now a.now b.now }
{
    same_uid(a, b) || has_ancestor(world, a, b)
}

fn has_ancestor(world: &World, a: &Uid, b: &Uid) -> bool
    ensures { result ≡ list_any (same_uid b.now) (ancestors_of (stored a.now world.now.store)) }
{
    match world.store.get(a) {
        Some(entity) => entity.ancestors.as_slice().iter().any(|c| same_uid(b, c)),
        None => false,
    }
}

fn same_uid(a: &Uid, b: &Uid) -> bool
    ensures { result ≡ same_uid a.now b.now }
{
    compare(a, b).is_eq()
}
