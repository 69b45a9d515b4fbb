//! The values that a tree says.
ghost use Rattle.std.specs.Prelude.{◌≡◌, pos, option_map, option_and_then, unwrap_or, IfOk, IfSome, codes};
ghost use Rattle.std.specs.List.{AllByRecursion};
ghost use Rattle.serde_json.specs.Data.{array, object};
ghost use Rattle.serde_json.specs.Find.{as_i64};
ghost use Rattle.serde_json.specs.View.{view, number_view, items_view, members_view};
ghost use Rattle.sc_values.specs.Order.{value_cmp};
ghost use Rattle.sc_values.specs.Proper.{IsProper, IsProperRecord};
ghost use Rattle.sc_world_json.specs.Marks.{function_named, value_by};
ghost use Rattle.sc_world_json.specs.Worlds.{text_at, extension_of, in_order, value_of, values_of, fields_of, record_of};

use crate::function::{function_named, value_by};
use crate::mark::{Mark, mark_of};
use crate::member::{member, text_at};
use crate::uids::uid_of;
use sc_lists::{Seq, Text};
use sc_values::{Rec, Value};
use serde_json::{Map, Number, Value as Json};
use std::alloc::{AllocError, Global};

/// The record that an object says.
pub(crate) fn record_of(alloc: Global, value: Option<&Json>) -> Result<Rec, AllocError>
    ensures value { IfOk result (λ fields. fields ≡ record_of (option_map (λ v. view v.now) value.entry)) }
    ensures proper { IfOk result (λ fields. IsProperRecord fields) }
{
    let Some(value) = value else {
        return Ok(Seq::new(alloc));
    };
    match value.as_object() {
        Some(members) => fields_of(alloc, members),
        None => Ok(Seq::new(alloc)),
    }
}

/// The value that a tree says.
#[cycle(value_building)]
fn value_of(alloc: Global, value: &Json) -> Result<Value, AllocError>
    ensures value { IfOk result (λ x. x ≡ value_of (view value.now)) }
    ensures proper { IfOk result (λ x. IsProper x) }
{
    match value {
        Json::Null => Ok(Value::Bool(false)),
        Json::Bool(truth) => Ok(Value::Bool(*truth)),
        Json::Number(number) => Ok(long_of(number)),
        Json::String(text) => Ok(Value::String(Text::from_str(alloc, text.as_str())?)),
        Json::Array(items) => set_of(alloc, items),
        Json::Object(members) => object_value(alloc, members),
    }
}

/// The set of the values in a list.
#[cycle(value_building)]
fn set_of(alloc: Global, items: &Vec<Json>) -> Result<Value, AllocError>
    ensures value { IfOk result (λ x. x ≡ value_of (array (items_view items.now.items))) }
    ensures proper { IfOk result (λ x. IsProper x) }
{
    let members = values_of(alloc, items)?;
    Ok(Value::Set(in_order(members)?))
}

/// The values in a list, in its order.
#[cycle(value_building)]
fn values_of(alloc: Global, items: &Vec<Json>) -> Result<Vec<Value>, AllocError>
    ensures value { IfOk result (λ xs. xs.items ≡ values_of (items_view items.now.items)) }
    ensures proper { IfOk result (λ xs. AllByRecursion IsProper xs.items) }
{
    let mut values = Vec::new(alloc);
    for item in items {
        values.push(value_of(alloc, item)?)?;
    }
    Ok(values)
}

/// The value of an object: a record, unless it is marked.
#[cycle(value_building)]
fn object_value(alloc: Global, members: &Map<String, Json>) -> Result<Value, AllocError>
    ensures value { IfOk result (λ x. x ≡ value_of (object (members_view members.now.entries))) }
    ensures proper { IfOk result (λ x. IsProper x) }
{
    match mark_of(members) {
        None => Ok(Value::Record(fields_of(alloc, members)?)),
        Some(Mark::Entity) => Ok(Value::Entity(uid_of(alloc, member(members, "__entity"))?)),
        Some(Mark::Extension) => Ok(extension_of(member(members, "__extn"))),
    }
}

/// The values of the members of an object, by their names.
#[cycle(value_building)]
fn fields_of(alloc: Global, members: &Map<String, Json>) -> Result<Rec, AllocError>
    ensures value { IfOk result (λ fields. fields ≡ fields_of (members_view members.now.entries)) }
    ensures proper { IfOk result (λ fields. IsProperRecord fields) }
{
    let mut fields = Seq::new(alloc);
    for (name, value) in members.iter() {
        fields.push((
            Text::from_str(alloc, name.as_str())?,
            value_of(alloc, value)?,
        ))?;
    }
    Ok(fields)
}

/// The whole number that a number says; 0, if it says none of 64 bits.
fn long_of(number: &Number) -> Value
    ensures value { result ≡ Value.Long (unwrap_or (as_i64 (number_view number.now)) (pos 0)) }
    ensures proper { IsProper result }
{
    match number.as_i64() {
        Some(n) => Value::Long(n),
        None => Value::Long(0),
    }
}

/// The value that a named function gives for a text; `false`, if there is none.
fn extension_of(call: Option<&Json>) -> Value
    ensures value { result ≡ extension_of (option_map (λ v. view v.now) call.entry) }
    ensures proper { IsProper result }
{
    match called(call) {
        Some(value) => value,
        None => Value::Bool(false),
    }
}

/// The value that a named function gives for a text, if there is one.
fn called(call: Option<&Json>) -> Option<Value>
    ensures value { let d = option_map (λ v. view v.now) call.entry in
        result ≡ option_and_then (λ f. value_by f (text_at (codes "arg") d)) (function_named (text_at (codes "fn") d)) }
    ensures proper { IfSome result (λ x. IsProper x) }
{
    match function_named(text_at(call, "fn")) {
        Some(function) => value_by(function, text_at(call, "arg")),
        None => None,
    }
}

/// The values, ascending, each once.
fn in_order(mut values: Vec<Value>) -> Result<Seq<Value>, AllocError>
    ensures { IfOk result (λ set. set ≡ in_order value_cmp values.items) }
{
    values.sort()?;
    values.dedup();
    Ok(Seq::from_vec(values))
}
