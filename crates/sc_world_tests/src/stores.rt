//! What is stored of entities.
use crate::samples::uid;
use sc_lists::{Seq, Text};
use sc_values::{Rec, Value};
use sc_world::{EntityData, Store};
use std::alloc::{AllocError, Global};

fn level(alloc: Global, number: i64) -> Result<Rec, AllocError> {
    let mut fields = Seq::new(alloc);
    fields.push((Text::from_str(alloc, "level")?, Value::Long(number)))?;
    Ok(fields)
}

/// Stores an entity with its level as an attribute.
fn put(
    alloc: Global,
    store: &mut Store,
    type_name: &str,
    id: &str,
    number: i64,
) -> Result<(), AllocError> {
    let attrs = level(alloc, number)?;
    let (ancestors, tags) = (Seq::new(alloc), Seq::new(alloc));
    store.insert(
        uid(alloc, type_name, id)?,
        EntityData {
            attrs,
            ancestors,
            tags,
        },
    )
}

/// Stores users `bob` and `ann`, of whom `ann` is stored twice, and a group `ann`.
fn put_three(alloc: Global, store: &mut Store) -> Result<(), AllocError> {
    put(alloc, store, "User", "bob", 2)?;
    put(alloc, store, "User", "ann", 1)?;
    put(alloc, store, "Group", "ann", 3)?;
    put(alloc, store, "User", "ann", 5)
}

fn first_number(fields: &Rec) -> i64 {
    match fields.get(0) {
        Some((_, Value::Long(number))) => *number,
        _ => 0,
    }
}

/// The level of an entity, if it is stored.
fn level_of(alloc: Global, store: &Store, type_name: &str, id: &str) -> Option<i64> {
    match uid(alloc, type_name, id) {
        Ok(uid) => Some(first_number(&store.get(&uid)?.attrs)),
        Err(_) => Some(0),
    }
}

fn stores_three(alloc: Global, store: &Store) -> bool {
    store.entities().len() == 3
        && level_of(alloc, store, "User", "ann") == Some(5)
        && level_of(alloc, store, "User", "bob") == Some(2)
        && level_of(alloc, store, "Group", "ann") == Some(3)
        && level_of(alloc, store, "User", "") == None
}

fn stores_entities_of(alloc: Global) -> bool {
    let mut store = Store::new(alloc);
    match put_three(alloc, &mut store) {
        Ok(()) => stores_three(alloc, &store),
        Err(_) => false,
    }
}

#[test]
fn stores_entities(rt: HostRuntime) {
    let holds = stores_entities_of(rt.alloc());
    assert!(rt; holds);
}
