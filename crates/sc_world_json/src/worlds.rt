//! Worlds as JSON.
ghost use Rattle.std.specs.Prelude.{◌≡◌, [], string_bytes, IfOk, OnOk};
ghost use Rattle.std.specs.List.{AllByRecursion};
ghost use Rattle.serde_json.specs.Data.{object, put as with_member};
ghost use Rattle.serde_json.specs.View.{view, members_view};
ghost use Rattle.sc_values.specs.Proper.{IsProperRecord};
ghost use Rattle.sc_world.specs.WellFormed.{IsProperEntry, IsProperWorld};
ghost use Rattle.sc_world_json.specs.Text.{uid_data, fields_data, entity_data, entities_data, request_data, world_data, world_text};

use crate::names::{uid_value, uid_values};
use crate::values::field_values;
use sc_names::Uid;
use sc_values::Rec;
use sc_world::{EntityData, Request, Store, World};
use serde_json::{Map, Value as Json, put};
use std::alloc::{AllocError, Global};

/// What is stored of an entity: its attributes, its ancestors, its tags and its uid.
fn entity_value(alloc: Global, uid: &Uid, entity: &EntityData) -> Result<Json, AllocError>
    requires attrs { IsProperRecord entity.now.attrs }
    requires tags { IsProperRecord entity.now.tags }
    ensures { IfOk result (λ v. view v ≡ entity_data (uid.now, entity.now)) }
{
    let mut members = Map::new(alloc);
    put_entity(alloc, &mut members, uid, entity)?;
    Ok(Json::Object(members))
}

/// Puts what is stored of an entity into an object that has no members yet.
fn put_entity(
    alloc: Global,
    members: &mut Map<String, Json>,
    uid: &Uid,
    entity: &EntityData,
) -> Result<(), AllocError>
    requires none { members.old.entries ≡ [] }
    requires attrs { IsProperRecord entity.now.attrs }
    requires tags { IsProperRecord entity.now.tags }
    ensures { OnOk result (object (members_view members.new.entries) ≡ entity_data (uid.now, entity.now)) }
{
    put_fields(alloc, members, "attrs", &entity.attrs)?;
    let parents = uid_values(alloc, &entity.ancestors)?;
    put(members, alloc, "parents", parents)?;
    put_fields(alloc, members, "tags", &entity.tags)?;
    put_uid(alloc, members, "uid", uid)?;
    Ok(())
}

/// The stored entities, ascending by uid.
fn entity_values(alloc: Global, store: &Store) -> Result<Json, AllocError>
    requires { AllByRecursion IsProperEntry store.now }
    ensures { IfOk result (λ v. view v ≡ entities_data store.now) }
{
    let mut values = Vec::new(alloc);
    for (uid, entity) in store.entities().iter() {
        values.push(entity_value(alloc, uid, entity)?)?;
    }
    Ok(Json::Array(values))
}

/// A request: its action, its context, its principal and its resource.
fn request_value(alloc: Global, request: &Request) -> Result<Json, AllocError>
    requires { IsProperRecord request.now.context }
    ensures { IfOk result (λ v. view v ≡ request_data request.now) }
{
    let mut members = Map::new(alloc);
    put_request(alloc, &mut members, request)?;
    Ok(Json::Object(members))
}

/// Puts what a request asks into an object that has no members yet.
fn put_request(
    alloc: Global,
    members: &mut Map<String, Json>,
    request: &Request,
) -> Result<(), AllocError>
    requires none { members.old.entries ≡ [] }
    requires context { IsProperRecord request.now.context }
    ensures { OnOk result (object (members_view members.new.entries) ≡ request_data request.now) }
{
    put_uid(alloc, members, "action", &request.action)?;
    put_fields(alloc, members, "context", &request.context)?;
    put_uid(alloc, members, "principal", &request.principal)?;
    put_uid(alloc, members, "resource", &request.resource)?;
    Ok(())
}

/// Puts a uid among members, at a name.
fn put_uid(
    alloc: Global,
    members: &mut Map<String, Json>,
    name: &str,
    uid: &Uid,
) -> Result<(), AllocError>
    ensures { OnOk result (members_view members.new.entries
        ≡ with_member name.now (uid_data uid.now) (members_view members.old.entries)) }
{
    let value = uid_value(alloc, uid)?;
    put(members, alloc, name, value)?;
    Ok(())
}

/// Puts a record among members, at a name.
fn put_fields(
    alloc: Global,
    members: &mut Map<String, Json>,
    name: &str,
    fields: &Rec,
) -> Result<(), AllocError>
    requires { IsProperRecord fields.now }
    ensures { OnOk result (members_view members.new.entries
        ≡ with_member name.now (object (fields_data fields.now)) (members_view members.old.entries)) }
{
    let value = Json::Object(field_values(alloc, fields)?);
    put(members, alloc, name, value)?;
    Ok(())
}

/// A world as a JSON value: the stored entities by uid, and the request. Members of objects are in
/// the order of the bytes of their names. Inside values an entity is `{"__entity":U}`, where U is
/// `{"id":..,"type":..}`, and a decimal number or an address is
/// `{"__extn":{"arg":text,"fn":"decimal"}}` or the same with `"ip"`; sets are arrays in the order
/// of their members.
pub fn world_value(alloc: Global, world: &World) -> Result<Json, AllocError>
    requires { IsProperWorld world.now }
    ensures { IfOk result (λ v. view v ≡ world_data world.now) }
{
    let mut members = Map::new(alloc);
    put_world(alloc, &mut members, world)?;
    Ok(Json::Object(members))
}

/// Puts what a world is into an object that has no members yet.
fn put_world(
    alloc: Global,
    members: &mut Map<String, Json>,
    world: &World,
) -> Result<(), AllocError>
    requires none { members.old.entries ≡ [] }
    requires proper { IsProperWorld world.now }
    ensures { OnOk result (object (members_view members.new.entries) ≡ world_data world.now) }
{
    let entities = entity_values(alloc, &world.store)?;
    put(members, alloc, "entities", entities)?;
    let request = request_value(alloc, &world.request)?;
    put(members, alloc, "request", request)?;
    Ok(())
}

/// The text of a world's JSON value, without white space.
pub fn world_text(alloc: Global, world: &World) -> Result<String, AllocError>
    requires { IsProperWorld world.now }
    ensures { IfOk result (λ s. string_bytes s ≡ world_text world.now) }
{
    world_value(alloc, world)?.to_string(alloc)
}
