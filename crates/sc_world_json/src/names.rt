//! Uids as JSON.
ghost use Rattle.std.specs.Prelude.{◌≡◌, IfOk};
ghost use Rattle.serde_json.specs.View.{view};
ghost use Rattle.sc_world_json.specs.Text.{uid_data, uids_data, reference_data, only_member};

use sc_lists::Seq;
use sc_names::Uid;
use serde_json::{Map, Value as Json, json, put};
use std::alloc::{AllocError, Global};

/// A uid: its id and its type.
pub(crate) fn uid_value(alloc: Global, uid: &Uid) -> Result<Json, AllocError>
    ensures { IfOk result (λ v. view v ≡ uid_data uid.now) }
{
    json!(in alloc; {"id": uid.id.as_str(), "type": uid.type_name.as_str()})
}

/// An entity inside a value: its uid, marked as an entity.
pub(crate) fn reference_value(alloc: Global, uid: &Uid) -> Result<Json, AllocError>
    ensures { IfOk result (λ v. view v ≡ reference_data uid.now) }
{
    let uid = uid_value(alloc, uid)?;
    let value = only_member(alloc, "__entity", uid)?;
    Ok(value)
}

/// The object with one member.
pub(crate) fn only_member(alloc: Global, name: &str, value: Json) -> Result<Json, AllocError>
    ensures { IfOk result (λ v. view v ≡ only_member name.now (view value)) }
{
    let mut members = Map::new(alloc);
    put(&mut members, alloc, name, value)?;
    Ok(Json::Object(members))
}

/// Uids, in order.
pub(crate) fn uid_values(alloc: Global, uids: &Seq<Uid>) -> Result<Json, AllocError>
    ensures { IfOk result (λ v. view v ≡ uids_data uids.now) }
{
    let mut values = Vec::new(alloc);
    for uid in uids.as_slice() {
        values.push(uid_value(alloc, uid)?)?;
    }
    Ok(Json::Array(values))
}
