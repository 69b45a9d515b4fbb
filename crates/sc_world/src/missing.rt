//! The least of the entities that have to be stored and aren't.
ghost use Rattle.std.specs.Prelude.{◌≡◌, ◌++◌, flat_map, None, MatchOption};
ghost use Rattle.std.specs.List.{AllByRecursion};
ghost use Rattle.std.specs.Option.{option_copied};
ghost use Rattle.std.specs.Ordering.{match_ordering};
ghost use Rattle.sc_names.specs.Uids.{uid_cmp};
ghost use Rattle.sc_values.specs.declared.value.Value.TheVariants.{Record};
ghost use Rattle.sc_world.specs.Named.{uids_in, uids_in_data, uids_in_entry, request_uids};
ghost use Rattle.sc_world.specs.Least.{wanted, IsMissing, IsLeast};
ghost use Rattle.sc_world.specs.Tests.{lesser, least_missing};
ghost use Rattle.sc_world.specs.WellFormed.{IsStored};

use crate::entity::EntityData;
use crate::store::Store;
use crate::uids::is_stored;
use crate::world::{Request, World};
use sc_names::{Lits, Uid, compare};
use sc_schema::{Schema, actions};
use sc_values::{Rec, Set, Value};
use std::cmp::Ordering;

/// The least entity that a world has to store and doesn't: one that its request or a stored entity
/// names, a literal or a declared action.
pub fn first_missing<'w>(s: &'w Schema, w: &'w World, lits: &'w Lits) -> Option<&'w Uid>
    ensures { MatchOption result (AllByRecursion (IsStored w.now.store) (wanted s.now lits.now w.now)) (λ uid. IsLeast
        (IsMissing s.now lits.now w.now) uid.now) }
{
    least_wanted(s, w, lits)
}

fn least_wanted<'w>(s: &'w Schema, w: &'w World, lits: &'w Lits) -> Option<&'w Uid>
    ensures { option_copied result ≡ least_missing w.now.store None (wanted s.now lits.now w.now) }
{
    let in_request = least_in_request(&w.store, &w.request);
    let in_entities = least_in_entities(&w.store, in_request);
    let in_lits = least_in(&w.store, in_entities, lits.as_slice());
    least_in(&w.store, in_lits, actions(s))
}

fn least_in_request<'w>(store: &Store, r: &'w Request) -> Option<&'w Uid>
    ensures { option_copied result ≡ least_missing store.now None (request_uids r.now) }
{
    let principal = lesser(store, None, &r.principal);
    let action = lesser(store, principal, &r.action);
    let resource = lesser(store, action, &r.resource);
    least_in_record(store, resource, &r.context)
}

fn least_in_entities<'w>(store: &'w Store, so_far: Option<&'w Uid>) -> Option<&'w Uid>
    ensures { option_copied result ≡ least_missing store.now (option_copied so_far.entry)
        (flat_map uids_in_entry store.now) }
{
    let mut least = so_far;
    for (_, entity) in store.entities().iter() {
        least = least_in_entity(store, least, entity);
    }
    least
}

fn least_in_entity<'w>(
    store: &Store,
    least: Option<&'w Uid>,
    entity: &'w EntityData,
) -> Option<&'w Uid>
    ensures { option_copied result ≡ least_missing store.now (option_copied least.entry) (uids_in_data entity.now) }
{
    let in_attrs = least_in_record(store, least, &entity.attrs);
    let in_tags = least_in_record(store, in_attrs, &entity.tags);
    least_in(store, in_tags, entity.ancestors.as_slice())
}

fn least_in<'w>(store: &Store, so_far: Option<&'w Uid>, uids: &'w [Uid]) -> Option<&'w Uid>
    ensures { option_copied result ≡ least_missing store.now (option_copied so_far.entry) uids.now }
{
    let mut least = so_far;
    for uid in uids {
        least = lesser(store, least, uid);
    }
    least
}

/// The least of the uids that a value names and that aren't stored, and of one more, if there is one.
#[cycle(missing)]
fn least_in_value<'w>(store: &Store, least: Option<&'w Uid>, v: &'w Value) -> Option<&'w Uid>
    ensures { option_copied result ≡ least_missing store.now (option_copied least.entry) (uids_in v.now) }
{
    match v {
        Value::Bool(_) => least,
        Value::Long(_) => least,
        Value::String(_) => least,
        Value::Entity(uid) => lesser(store, least, uid),
        Value::Set(members) => least_in_set(store, least, members),
        Value::Record(fields) => least_in_record(store, least, fields),
        Value::Decimal(_) => least,
        Value::Ip(_) => least,
    }
}

#[cycle(missing)]
fn least_in_set<'w>(store: &Store, so_far: Option<&'w Uid>, members: &'w Set) -> Option<&'w Uid>
    ensures { option_copied result ≡ least_missing store.now (option_copied so_far.entry)
        (flat_map uids_in members.now) }
{
    let mut least = so_far;
    for member in members.as_slice() {
        least = least_in_value(store, least, member);
    }
    least
}

#[cycle(missing)]
fn least_in_record<'w>(store: &Store, so_far: Option<&'w Uid>, fields: &'w Rec) -> Option<&'w Uid>
    ensures { option_copied result ≡ least_missing store.now (option_copied so_far.entry)
        (uids_in (Record fields.now)) }
{
    let mut least = so_far;
    for field in fields.as_slice() {
        least = least_in_value(store, least, &field.1);
    }
    least
}

/// The lesser of two uids, the second of which counts only if it isn't stored.
fn lesser<'w>(store: &Store, least: Option<&'w Uid>, uid: &'w Uid) -> Option<&'w Uid>
    ensures { option_copied result ≡ lesser store.now (option_copied least.entry) uid.now }
{
    if is_stored(store, uid) {
        return least;
    }
    match least {
        Some(other) => Some(lesser_of(uid, other)),
        None => Some(uid),
    }
}

fn lesser_of<'w>(uid: &'w Uid, other: &'w Uid) -> &'w Uid
    ensures { result.now ≡ match_ordering (uid_cmp uid.now other.now) uid.now other.now other.now }
{
    match compare(uid, other) {
        Ordering::Less => uid,
        Ordering::Equal => other,
        Ordering::Greater => other,
    }
}
