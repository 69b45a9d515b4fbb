//! The world that a tree says.
ghost use Rattle.std.specs.Prelude.{◌≡◌, option_map, IfOk};
ghost use Rattle.std.specs.List.{AllByRecursion};
ghost use Rattle.serde_json.specs.View.{view};
ghost use Rattle.sc_world.specs.WellFormed.{IsProperRequest};
ghost use Rattle.sc_world.specs.WellFormed.{IsProperEntry, IsProperWorld};
ghost use Rattle.sc_world_json.specs.Worlds.{entity_of, store_of, request_of, world_of};

use crate::member::value_at;
use crate::uids::{uid_of, uids_of};
use crate::value_building::record_of;
use sc_names::Uid;
use sc_world::{EntityData, Request, Store, World};
use serde_json::Value as Json;
use std::alloc::{AllocError, Global};

/// The world that a tree says.
pub(crate) fn world_of(alloc: Global, value: &Json) -> Result<World, AllocError>
    ensures value { IfOk result (λ world. world ≡ world_of (view value.now)) }
    ensures proper { IfOk result (λ world. IsProperWorld world) }
{
    let store = store_of(alloc, value.get("entities"))?;
    let request = request_of(alloc, value.get("request"))?;
    Ok(World { request, store })
}

/// The request that a value says.
fn request_of(alloc: Global, value: Option<&Json>) -> Result<Request, AllocError>
    ensures value { IfOk result (λ request. request ≡ request_of (option_map (λ v. view v.now) value.entry)) }
    ensures proper { IfOk result (λ request. IsProperRequest request) }
{
    Ok(Request {
        context: record_of(alloc, value_at(value, "context"))?,
        principal: uid_of(alloc, value_at(value, "principal"))?,
        action: uid_of(alloc, value_at(value, "action"))?,
        resource: uid_of(alloc, value_at(value, "resource"))?,
    })
}

/// The entities that a list says.
fn store_of(alloc: Global, value: Option<&Json>) -> Result<Store, AllocError>
    ensures value { IfOk result (λ store. store ≡ store_of (option_map (λ v. view v.now) value.entry)) }
    ensures proper { IfOk result (λ store. AllByRecursion IsProperEntry store) }
{
    let mut store = Store::new(alloc);
    let Some(value) = value else {
        return Ok(store);
    };
    let Some(items) = value.as_array() else {
        return Ok(store);
    };
    for item in items {
        let (uid, entity) = entity_of(alloc, item)?;
        store.insert(uid, entity)?;
    }
    Ok(store)
}

/// The entity that a value says, with its uid.
fn entity_of(alloc: Global, value: &Json) -> Result<(Uid, EntityData), AllocError>
    ensures value { IfOk result (λ entity. entity ≡ entity_of (view value.now)) }
    ensures proper { IfOk result (λ entity. IsProperEntry entity) }
{
    let uid = uid_of(alloc, value.get("uid"))?;
    let entity = EntityData {
        ancestors: uids_of(alloc, value.get("parents"))?,
        attrs: record_of(alloc, value.get("attrs"))?,
        tags: record_of(alloc, value.get("tags"))?,
    };
    Ok((uid, entity))
}
