//! Whether a world has no record that could be taken for an entity or for the value of a function.
ghost use Rattle.std.specs.Prelude.{◌≡◌, ◌&&◌, ℕ, List, map};
ghost use Rattle.std.specs.List.{list_all};
ghost use Rattle.sc_world.specs.declared.entity.EntityData.{EntityData as AnyEntity};
ghost use Rattle.sc_world_json.specs.PlainKeys.{is_plain_name, is_plain, are_plain, is_plain_entry, plain_keys};

use crate::mark::mark_named;
use sc_values::{Rec, Set, Value};
use sc_world::{EntityData, Store, World};

/// Whether no record in a world has a field `__entity` or `__extn`: neither the context nor the
/// attributes and tags of an entity, nor a record inside them. A world with plain keys is read back
/// from its text, unless that nests too deep to be read.
pub fn plain_keys(world: &World) -> bool
    ensures { result ≡ plain_keys world.now }
{
    let context = are_plain(&world.request.context);
    let entries = are_plain_entries(&world.store);
    context && entries
}

fn are_plain_entries(store: &Store) -> bool
    ensures { result ≡ list_all is_plain_entry store.now }
{
    for (_, entity) in store.entities().iter() {
        if !is_plain_entity(entity) {
            return false;
        }
    }
    true
}

fn is_plain_entity(entity: &EntityData) -> bool
    ensures { result ≡ (are_plain entity.now.attrs && are_plain entity.now.tags) }
{
    let attrs = are_plain(&entity.attrs);
    let tags = are_plain(&entity.tags);
    attrs && tags
}

#[cycle(plain)]
#[tactic(auto, unfolding(crate::specs::PlainKeys::is_plain))]
fn is_plain(value: &Value) -> bool
    ensures { result ≡ is_plain value.now }
{
    match value {
        Value::Bool(_) => true,
        Value::Long(_) => true,
        Value::String(_) => true,
        Value::Entity(_) => true,
        Value::Set(members) => is_plain_set(members),
        Value::Record(fields) => are_plain(fields),
        Value::Decimal(_) => true,
        Value::Ip(_) => true,
    }
}

#[cycle(plain)]
fn is_plain_set(members: &Set) -> bool
    ensures { result ≡ list_all is_plain members.now }
{
    for member in members.as_slice() {
        if !is_plain(member) {
            return false;
        }
    }
    true
}

#[cycle(plain)]
fn are_plain(fields: &Rec) -> bool
    ensures { result ≡ are_plain fields.now }
{
    for field in fields.as_slice() {
        if !is_plain_name(field.0.as_str()) {
            return false;
        }
        if !is_plain(&field.1) {
            return false;
        }
    }
    true
}

/// Whether a name marks no object.
fn is_plain_name(name: &str) -> bool
    ensures { result ≡ is_plain_name name.now }
{
    mark_named(name).is_none()
}
