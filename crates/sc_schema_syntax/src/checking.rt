//! Finds the first fault of the form of a schema file.
ghost use Rattle.std.specs.Prelude.{◌≡◌, [], IfOk};
ghost use Rattle.std.specs.Option.{option_or};
ghost use Rattle.serde_json.specs.Data.{array, object};
ghost use Rattle.serde_json.specs.View.{view, items_view, members_view};
ghost use Rattle.sc_schema_syntax.specs.Forms.{form_at, is_whole};
ghost use Rattle.sc_schema_syntax.specs.Faults.{shape_fault, value_fault, items_fault, members_fault, member_fault, first_fault};

use crate::fault::SchemaFault;
use crate::form::{Form, admits_text, admits_truth, form_at, item_form};
use crate::level::{Level, is_name, is_whole, level_of};
use crate::member_form::member_form;
use crate::pointer::{under, under_item};
use sc_lists::Text;
use serde_json::{Map, Value};
use std::alloc::{AllocError, Global};

/// The first fault of a schema file with this tree. The walk takes the members of an object in the
/// order of their bytes, and an object before its members.
pub(crate) fn first_fault(alloc: Global, value: &Value) -> Result<Option<SchemaFault>, AllocError>
    ensures { IfOk result (λ fault. fault ≡ first_fault (view value.now)) }
{
    value_fault(alloc, Form::Object(Level::Schema), value)
}

/// The first fault of a value, where this form has to stand.
#[cycle(checking)]
fn value_fault(alloc: Global, form: Form, value: &Value) -> Result<Option<SchemaFault>, AllocError>
    ensures { IfOk result (λ fault. fault ≡ value_fault form (view value.now)) }
{
    match value {
        Value::Null => shape_fault(alloc, false),
        Value::Bool(truth) => shape_fault(alloc, admits_truth(form, *truth)),
        Value::Number(_) => shape_fault(alloc, false),
        Value::String(text) => shape_fault(alloc, admits_text(form, text.as_str())),
        Value::Array(items) => list_fault(alloc, form, items),
        Value::Object(members) => object_fault(alloc, form, members),
    }
}

/// The first fault of a list, where this form has to stand.
#[cycle(checking)]
fn list_fault(
    alloc: Global,
    form: Form,
    items: &Vec<Value>,
) -> Result<Option<SchemaFault>, AllocError>
    ensures { IfOk result (λ fault. fault ≡ value_fault form (array (items_view items.now.items))) }
{
    match item_form(form, items.len()) {
        Some(each) => items_fault(alloc, each, items),
        None => shape_fault(alloc, false),
    }
}

/// The first fault of the items of a list, each of which has to be of a form.
#[cycle(checking)]
fn items_fault(
    alloc: Global,
    each: Form,
    items: &Vec<Value>,
) -> Result<Option<SchemaFault>, AllocError>
    ensures { IfOk result (λ fault. fault
        ≡ items_fault (form_at each (items_view items.now.items)) 0 (items_view items.now.items)) }
{
    for (number, item) in items.iter().enumerate() {
        let form = form_at(each, items, number, item);
        if let Some(fault) = value_fault(alloc, form, item)? {
            return Ok(Some(under_item(alloc, number, fault)?));
        }
    }
    Ok(None)
}

/// The first fault of an object, where this form has to stand.
#[cycle(checking)]
fn object_fault(
    alloc: Global,
    form: Form,
    members: &Map<String, Value>,
) -> Result<Option<SchemaFault>, AllocError>
    ensures { IfOk result (λ fault. fault ≡ value_fault form (object (members_view members.now.entries))) }
{
    match level_of(form, members) {
        Some(level) => level_fault(alloc, level, members),
        None => shape_fault(alloc, false),
    }
}

/// The first fault of an object of this level.
#[cycle(checking)]
fn level_fault(
    alloc: Global,
    level: Level,
    members: &Map<String, Value>,
) -> Result<Option<SchemaFault>, AllocError>
    ensures { IfOk result (λ fault. fault ≡ option_or
        (shape_fault (is_whole level (members_view members.now.entries)))
        (members_fault level (members_view members.now.entries))) }
{
    if !is_whole(level, members) {
        return shape_fault(alloc, false);
    }
    members_fault(alloc, level, members)
}

/// The first fault of the members of an object of this level.
#[cycle(checking)]
fn members_fault(
    alloc: Global,
    level: Level,
    members: &Map<String, Value>,
) -> Result<Option<SchemaFault>, AllocError>
    ensures { IfOk result (λ fault. fault ≡ members_fault level (members_view members.now.entries)) }
{
    for (name, value) in members.iter() {
        if let Some(fault) = member_fault(alloc, level, name.as_str(), value)? {
            return Ok(Some(under(alloc, name.as_str(), fault)?));
        }
    }
    Ok(None)
}

/// The first fault of one member of an object of this level.
#[cycle(checking)]
fn member_fault(
    alloc: Global,
    level: Level,
    name: &str,
    value: &Value,
) -> Result<Option<SchemaFault>, AllocError>
    ensures { IfOk result (λ fault. fault ≡ member_fault level name.now (view value.now)) }
{
    if !is_name(level, name) {
        return Ok(Some(SchemaFault::BadName(Text::from_str(alloc, "")?)));
    }
    match member_form(level, name) {
        Some(form) => value_fault(alloc, form, value),
        None => Ok(None),
    }
}

/// The fault that a value isn't of its form, unless it is.
fn shape_fault(alloc: Global, is_of_form: bool) -> Result<Option<SchemaFault>, AllocError>
    ensures { IfOk result (λ fault. fault ≡ shape_fault is_of_form) }
{
    if is_of_form {
        Ok(None)
    } else {
        Ok(Some(SchemaFault::BadShape(Text::from_str(alloc, "")?)))
    }
}
