//! Stores all that is named: what is given as it stands, and each other entity as it is by default.
ghost use Rattle.std.specs.Prelude.{◌≡◌, ◌<◌, ◌++◌, get_or, length, IfOk, OnOk};
ghost use Rattle.sc_names.specs.declared.uid.Uid.{Uid as AnyUid};
ghost use Rattle.sc_values.specs.Proper.{IsUidText};
ghost use Rattle.sc_world.specs.Filling.{IsStep, HaveTexts};
ghost use Rattle.sc_world.specs.Defaults as defaults;
ghost use Rattle.sc_world.specs.Given.{AreAsGiven, StoresNamedWith};
ghost use Rattle.sc_world.specs.Named.{uids_in_data};
ghost use Rattle.sc_world.specs.Stores.{with_entity};

use crate::default_entity::default_data;
use crate::first_uids::first_uids;
use crate::named::put_in_entity;
use crate::store::Store;
use crate::uids::is_stored;
use crate::world::Request;
use sc_lists::Seq;
use sc_names::{Lits, Uid};
use sc_schema::Schema;
use std::alloc::{AllocError, Global};

/// The store of what is given and of all else that is named.
pub(crate) fn filled(
    alloc: Global,
    s: &Schema,
    given: Store,
    request: &Request,
    lits: &Lits,
) -> Result<Store, AllocError>
    ensures texts { IfOk result (λ es. HaveTexts given → HaveTexts es) }
    ensures value { IfOk result (AreAsGiven s.now given) }
    ensures exact { IfOk result (StoresNamedWith s.now given request.now lits.now) }
{
    let mut uids = first_uids(alloc, s, &given, request, lits)?;
    let mut store = given;
    let mut done = 0;
    while done < uids.len() {
        fill_at(alloc, s, &mut uids, &mut store, done)?;
        done += 1;
    }
    Ok(store)
}

/// Stores the entity at a place of the list where it isn't stored yet, and puts what it names at the
/// list's end.
fn fill_at(
    alloc: Global,
    s: &Schema,
    uids: &mut Seq<Uid>,
    store: &mut Store,
    at: usize,
) -> Result<(), AllocError>
    requires { at < length uids.old }
    ensures { OnOk result ((d : AnyUid) → IsStep s.now uids.old store.old (get_or uids.old at d) uids.new store.new) }
{
    let uid = &uids.as_slice()[at];
    if is_stored(store, uid) {
        return Ok(());
    }
    let uid = uid.try_clone(alloc)?;
    fill_with(alloc, s, uids, store, uid)
}

fn fill_with(
    alloc: Global,
    s: &Schema,
    uids: &mut Seq<Uid>,
    store: &mut Store,
    uid: Uid,
) -> Result<(), AllocError>
    ensures text { IsUidText uid }
    ensures uids { OnOk result (uids.new ≡ uids.old ++ uids_in_data (defaults.default_data s.now uid)) }
    ensures store { OnOk result (store.new ≡ with_entity uid (defaults.default_data s.now uid) store.old) }
{
    has_texts(&uid);
    let entity = default_data(alloc, s, &uid)?;
    put_in_entity(alloc, uids, &entity)?;
    store.insert(uid, entity)
}

/// A uid's name and id are texts, as they are by their types.
fn has_texts(uid: &Uid)
    ensures { IsUidText uid.now }
{
    let _type_name = uid.type_name.as_str();
    let _id = uid.id.as_str();
}
