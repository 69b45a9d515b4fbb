//! Values as JSON.
ghost use Rattle.std.specs.Prelude.{◌≡◌, [], map, IfOk, OnOk, string_bytes, codes};
ghost use Rattle.std.specs.List.{AllByRecursion};
ghost use Rattle.sc_values.specs.Proper.{IsProper, IsProperRecord};
ghost use Rattle.serde_json.specs.Data.{string, no_members, member};
ghost use Rattle.serde_json.specs.View.{view, items_of, items_view, members_view};
ghost use Rattle.sc_world_json.specs.Text.{value_data, fields_data, extension_data};

use crate::names::{only_member, reference_value};
use sc_decimal::write_decimal;
use sc_ip::write_ip;
use sc_values::{Rec, Set, Value};
use serde_json::{Map, Value as Json, put};
use std::alloc::{AllocError, Global};

/// A value.
#[cycle(values)]
#[tactic(auto, unfolding(crate::specs::Text::value_data))]
fn json_value(alloc: Global, value: &Value) -> Result<Json, AllocError>
    requires { IsProper value.now }
    ensures { IfOk result (λ v. view v ≡ value_data value.now) }
{
    match value {
        Value::Bool(b) => Ok(Json::from(*b)),
        Value::Long(n) => Ok(Json::from(*n)),
        Value::String(text) => Json::try_from_str(alloc, text.as_str()),
        Value::Entity(uid) => reference_value(alloc, uid),
        Value::Set(members) => Ok(Json::Array(member_values(alloc, members)?)),
        Value::Record(fields) => Ok(Json::Object(field_values(alloc, fields)?)),
        Value::Decimal(number) => extension_value(alloc, "decimal", write_decimal(alloc, number)?),
        Value::Ip(address) => extension_value(alloc, "ip", write_ip(alloc, address)?),
    }
}

/// The members of a set, in order.
#[cycle(values)]
fn member_values(alloc: Global, members: &Set) -> Result<Vec<Json>, AllocError>
    requires { AllByRecursion IsProper members.now }
    ensures { IfOk result (λ v. items_view v.items ≡ items_of (map value_data members.now)) }
{
    let mut values = Vec::new(alloc);
    for member in members.as_slice() {
        values.push(json_value(alloc, member)?)?;
    }
    Ok(values)
}

/// The fields of a record, which ascend by name as the members of an object do.
#[cycle(values)]
pub(crate) fn field_values(alloc: Global, fields: &Rec) -> Result<Map<String, Json>, AllocError>
    requires { IsProperRecord fields.now }
    ensures { IfOk result (λ m. members_view m.entries ≡ fields_data fields.now) }
{
    let mut members = Map::new(alloc);
    for field in fields.as_slice() {
        put(
            &mut members,
            alloc,
            field.0.as_str(),
            json_value(alloc, &field.1)?,
        )?;
    }
    Ok(members)
}

/// The value that the named function gives for a text.
fn extension_value(alloc: Global, function: &str, text: String) -> Result<Json, AllocError>
    ensures { IfOk result (λ v. view v ≡ extension_data function.now (string_bytes text)) }
{
    let mut call = Map::new(alloc);
    put_call(alloc, &mut call, function, text)?;
    let value = only_member(alloc, "__extn", Json::Object(call))?;
    Ok(value)
}

/// Puts the text and the name of a call into an object that has no members yet.
fn put_call(
    alloc: Global,
    members: &mut Map<String, Json>,
    function: &str,
    text: String,
) -> Result<(), AllocError>
    requires { members.old.entries ≡ [] }
    ensures { OnOk result (members_view members.new.entries ≡ member (codes "arg") (string (string_bytes text))
        (member (codes "fn") (string function.now) no_members)) }
{
    put(members, alloc, "arg", Json::String(text))?;
    let name = Json::try_from_str(alloc, function)?;
    put(members, alloc, "fn", name)?;
    Ok(())
}
