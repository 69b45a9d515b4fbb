//! Finds the first place of a part of a world that isn't of the form.
ghost use Rattle.std.specs.Prelude.{◌≡◌, [], IfOk};
ghost use Rattle.std.specs.Option.{option_or};
ghost use Rattle.serde_json.specs.Data.{array, object};
ghost use Rattle.serde_json.specs.View.{view, items_view, members_view};
ghost use Rattle.sc_world_json.specs.Forms.{has_members};
ghost use Rattle.sc_world_json.specs.Faults.{fault_unless, value_fault, items_fault, members_fault, member_fault};

use crate::fault::WorldFault;
use crate::form::{Form, admits_number, admits_text, admits_truth, item_form};
use crate::level::{Level, level_of};
use crate::member_form::{has_members, member_form};
use crate::pointer::under;
use sc_lists::Text;
use serde_json::{Map, Value as Json};
use std::alloc::{AllocError, Global};

/// The first fault of a value, where this form has to stand. The walk takes the members of an object
/// in the order of their bytes, and an object before its members.
#[cycle(checking)]
pub(crate) fn value_fault(
    alloc: Global,
    form: Form,
    value: &Json,
) -> Result<Option<WorldFault>, AllocError>
    ensures { IfOk result (λ fault. fault ≡ value_fault form (view value.now)) }
{
    match value {
        Json::Null => fault_unless(alloc, false),
        Json::Bool(_) => fault_unless(alloc, admits_truth(form)),
        Json::Number(number) => fault_unless(alloc, admits_number(form, number)),
        Json::String(text) => fault_unless(alloc, admits_text(form, text.as_str())),
        Json::Array(items) => list_fault(alloc, form, items),
        Json::Object(members) => object_fault(alloc, form, members),
    }
}

/// The first fault of a list, where this form has to stand.
#[cycle(checking)]
fn list_fault(
    alloc: Global,
    form: Form,
    items: &Vec<Json>,
) -> Result<Option<WorldFault>, AllocError>
    ensures { IfOk result (λ fault. fault ≡ value_fault form (array (items_view items.now.items))) }
{
    match item_form(form) {
        Some(each) => items_fault(alloc, each, items),
        None => fault_unless(alloc, false),
    }
}

/// The first fault of the items of a list.
#[cycle(checking)]
fn items_fault(
    alloc: Global,
    form: Form,
    items: &Vec<Json>,
) -> Result<Option<WorldFault>, AllocError>
    ensures { IfOk result (λ fault. fault ≡ items_fault form 0 (items_view items.now.items)) }
{
    for (number, item) in items.iter().enumerate() {
        if let Some(fault) = value_fault(alloc, form, item)? {
            let key = format!(in alloc; "{number}")?;
            return Ok(Some(under(alloc, key.as_str(), fault)?));
        }
    }
    Ok(None)
}

/// The first fault of an object, where this form has to stand.
#[cycle(checking)]
fn object_fault(
    alloc: Global,
    form: Form,
    members: &Map<String, Json>,
) -> Result<Option<WorldFault>, AllocError>
    ensures { IfOk result (λ fault. fault ≡ value_fault form (object (members_view members.now.entries))) }
{
    match level_of(form, members) {
        Some(level) => level_fault(alloc, level, members),
        None => fault_unless(alloc, false),
    }
}

/// The first fault of an object of this level.
#[cycle(checking)]
fn level_fault(
    alloc: Global,
    level: Level,
    members: &Map<String, Json>,
) -> Result<Option<WorldFault>, AllocError>
    ensures { IfOk result (λ fault. fault ≡ option_or
        (fault_unless (has_members level (members_view members.now.entries)))
        (members_fault level (members_view members.now.entries))) }
{
    if !has_members(level, members) {
        return fault_unless(alloc, false);
    }
    members_fault(alloc, level, members)
}

/// The first fault of the members of an object of this level.
#[cycle(checking)]
fn members_fault(
    alloc: Global,
    level: Level,
    members: &Map<String, Json>,
) -> Result<Option<WorldFault>, AllocError>
    ensures { IfOk result (λ fault. fault ≡ members_fault level (members_view members.now.entries)) }
{
    for (name, value) in members.iter() {
        if let Some(fault) = member_fault(alloc, level, name.as_str(), value)? {
            return Ok(Some(under(alloc, name.as_str(), fault)?));
        }
    }
    Ok(None)
}

/// The first fault of one member of an object of this level.
#[cycle(checking)]
fn member_fault(
    alloc: Global,
    level: Level,
    name: &str,
    value: &Json,
) -> Result<Option<WorldFault>, AllocError>
    ensures { IfOk result (λ fault. fault ≡ member_fault level name.now (view value.now)) }
{
    match member_form(level, name) {
        Some(form) => value_fault(alloc, form, value),
        None => Ok(None),
    }
}

/// The fault that a value isn't of its form, unless it is.
pub(crate) fn fault_unless(
    alloc: Global,
    is_of_form: bool,
) -> Result<Option<WorldFault>, AllocError>
    ensures { IfOk result (λ fault. fault ≡ fault_unless is_of_form) }
{
    if is_of_form {
        Ok(None)
    } else {
        Ok(Some(WorldFault::BadWorld(Text::from_str(alloc, "")?)))
    }
}
