//! Finds the first place of a world that isn't of the form.
ghost use Rattle.std.specs.Prelude.{◌≡◌, [], None, IfOk, codes, option_map};
ghost use Rattle.std.specs.BTreeSet.{insert_key};
ghost use Rattle.serde_json.specs.Find.{get};
ghost use Rattle.serde_json.specs.View.{view, items_view};
ghost use Rattle.sc_names.specs.Uids.{uid_cmp};
ghost use Rattle.sc_world_json.specs.Faults.{fault_unless, under, value_fault, entity_fault, entities_fault, store_fault, fault_at, is_world, first_fault};
ghost use Rattle.sc_world_json.specs.Worlds.{uid_of};

use crate::checking::{fault_unless, value_fault};
use crate::fault::WorldFault;
use crate::form::Form;
use crate::level::Level;
use crate::member_form::has_just;
use crate::pointer::under;
use crate::uids::uid_of;
use sc_names::Uid;
use serde_json::Value as Json;
use std::alloc::{AllocError, Global};
use std::collections::BTreeSet;

/// The first fault of a world with this tree.
pub(crate) fn first_fault(alloc: Global, value: &Json) -> Result<Option<WorldFault>, AllocError>
    ensures { IfOk result (λ fault. fault ≡ first_fault (view value.now)) }
{
    if !is_world(value) {
        return fault_unless(alloc, false);
    }
    if let Some(fault) = fault_at_entities(alloc, value)? {
        return Ok(Some(fault));
    }
    fault_at_request(alloc, value)
}

/// Whether a value is an object with just the two members of a world.
fn is_world(value: &Json) -> bool
    ensures { result ≡ is_world (view value.now) }
{
    match value.as_object() {
        Some(members) => has_just(members, &["entities", "request"]),
        None => false,
    }
}

/// The first fault of what stands at the member `request`.
fn fault_at_request(alloc: Global, value: &Json) -> Result<Option<WorldFault>, AllocError>
    ensures { IfOk result (λ fault. fault
        ≡ fault_at (codes "request") (value_fault (Form.Object Level.Request)) (view value.now)) }
{
    let Some(request) = value.get("request") else {
        return Ok(None);
    };
    match value_fault(alloc, Form::Object(Level::Request), request)? {
        Some(fault) => Ok(Some(under(alloc, "request", fault)?)),
        None => Ok(None),
    }
}

/// The first fault of what stands at the member `entities`.
fn fault_at_entities(alloc: Global, value: &Json) -> Result<Option<WorldFault>, AllocError>
    ensures { IfOk result (λ fault. fault ≡ fault_at (codes "entities") store_fault (view value.now)) }
{
    let Some(entities) = value.get("entities") else {
        return Ok(None);
    };
    match store_fault(alloc, entities)? {
        Some(fault) => Ok(Some(under(alloc, "entities", fault)?)),
        None => Ok(None),
    }
}

/// The first fault of the stored entities.
fn store_fault(alloc: Global, value: &Json) -> Result<Option<WorldFault>, AllocError>
    ensures { IfOk result (λ fault. fault ≡ store_fault (view value.now)) }
{
    match value.as_array() {
        Some(items) => entities_fault(alloc, items),
        None => fault_unless(alloc, false),
    }
}

/// The first fault of the entities in a list.
fn entities_fault(alloc: Global, items: &Vec<Json>) -> Result<Option<WorldFault>, AllocError>
    ensures { IfOk result (λ fault. fault ≡ entities_fault [] 0 (items_view items.now.items)) }
{
    let mut before = BTreeSet::new(alloc);
    for (number, item) in items.iter().enumerate() {
        if let Some(fault) = entity_fault(alloc, &mut before, item)? {
            let key = format!(in alloc; "{number}")?;
            return Ok(Some(under(alloc, key.as_str(), fault)?));
        }
    }
    Ok(None)
}

/// The first fault of an entity, where these uids are stored before. If there is none, its uid is
/// one of them from then on.
fn entity_fault(
    alloc: Global,
    before: &mut BTreeSet<Uid>,
    value: &Json,
) -> Result<Option<WorldFault>, AllocError>
    ensures fault { IfOk result (λ fault. fault ≡ entity_fault before.old.keys (view value.now)) }
    ensures stored { IfOk result (λ fault. fault ≡ None
        → before.new.keys ≡ insert_key uid_cmp before.old.keys (uid_of (get (codes "uid") (view value.now)))) }
{
    if let Some(fault) = value_fault(alloc, Form::Object(Level::Entity), value)? {
        return Ok(Some(fault));
    }
    let uid = uid_of(alloc, value.get("uid"))?;
    let is_new = before.insert(uid)?;
    uid_fault(alloc, is_new)
}

/// The fault of a uid that was stored before, at its place.
fn uid_fault(alloc: Global, is_new: bool) -> Result<Option<WorldFault>, AllocError>
    ensures { IfOk result (λ fault. fault ≡ option_map (under (codes "uid")) (fault_unless is_new)) }
{
    match fault_unless(alloc, is_new)? {
        Some(fault) => Ok(Some(under(alloc, "uid", fault)?)),
        None => Ok(None),
    }
}
