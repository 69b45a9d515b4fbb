//! Values of types, well-formed worlds, and what keeps worlds from being so.
use crate::samples::{CHANGES, DOC, Told, WRITTEN, changed_world, literal, schema};
use sc_names::{Lits, Uid};
use sc_replay::{Break, first_break};
use sc_schema::{Schema, Ty, environments};
use sc_values::Value;
use sc_world::{World, conforms, well_formed};
use std::alloc::Global;

// ---- values of types

fn is_truth_of(ty: Ty) -> bool {
    conforms(&Value::Bool(true), &ty)
}

#[test]
fn types_of_truth(rt: HostRuntime) {
    assert!(rt; is_truth_of(Ty::Bool));
    assert!(rt; is_truth_of(Ty::True));
    assert!(rt; !is_truth_of(Ty::False));
    assert!(rt; !is_truth_of(Ty::Long));
}

// ---- what is told of a world

fn is_uid(uid: &Uid, type_name: &str, id: &str) -> bool {
    uid.type_name.as_str() == type_name && uid.id.as_str() == id
}

fn is_told_of_break(found: &Break, told: Told) -> bool {
    match told {
        Told::Nothing => false,
        Told::Request => matches!(found, Break::Request),
        Told::Entity(type_name, id) => match found {
            Break::Entity(uid) => is_uid(uid, type_name, id),
            _ => false,
        },
        Told::Missing(type_name, id) => match found {
            Break::Missing(uid) => is_uid(uid, type_name, id),
            _ => false,
        },
    }
}

pub(crate) fn is_told_of(
    alloc: Global,
    schema: &Schema,
    world: &World,
    literals: &Lits,
    told: Told,
) -> bool {
    match first_break(alloc, schema, world, literals) {
        Ok(Some(found)) => is_told_of_break(&found, told),
        Ok(None) => matches!(told, Told::Nothing),
        Err(_) => false,
    }
}

/// Whether a world is well-formed for requests of a user to view a document.
fn is_well_formed(schema: &Schema, world: &World, literals: &Lits) -> bool {
    match environments(schema).get(2) {
        Some(env) => well_formed(schema, env, world, literals),
        None => false,
    }
}

/// Whether this is told of a world, which is well-formed just where nothing is told.
fn is_told(alloc: Global, schema: &Schema, world: &World, literals: &Lits, told: Told) -> bool {
    is_told_of(alloc, schema, world, literals, told)
        && is_well_formed(schema, world, literals) == matches!(told, Told::Nothing)
}

// ---- worlds of which a part is changed

fn is_told_by(
    alloc: Global,
    schema: &Schema,
    literals: &Lits,
    (part, other): (&str, &str),
    told: Told,
) -> bool {
    match changed_world(alloc, part, other) {
        Some(world) => is_told(alloc, schema, &world, literals, told),
        None => false,
    }
}

fn is_told_with(alloc: Global, literals: &Lits, change: (&str, &str), told: Told) -> bool {
    match schema(alloc) {
        Some(schema) => is_told_by(alloc, &schema, literals, change, told),
        None => false,
    }
}

fn is_told_of_change(alloc: Global, change: (&str, &str), told: Told) -> bool {
    is_told_with(alloc, &Lits::new(alloc), change, told)
}

#[test]
fn what_is_told_of_changes(rt: HostRuntime) {
    for &(part, other, told) in CHANGES {
        assert!(rt;
            is_told_of_change(rt.alloc(), (part, other), told),
            "{other}"
        );
    }
}

fn is_told_of_literal(alloc: Global, literal: Option<Lits>, document: &str, told: Told) -> bool {
    match literal {
        Some(literals) => is_told_with(alloc, &literals, (DOC, document), told),
        None => false,
    }
}

#[test]
fn what_is_told_of_literals(rt: HostRuntime) {
    let alloc = rt.alloc();
    for &(type_name, id, document, told) in WRITTEN {
        let literal = literal(alloc, type_name, id);
        assert!(rt;
            is_told_of_literal(alloc, literal, document, told),
            "{type_name} {id}"
        );
    }
}

// ---- a request of another environment

fn fits_user(schema: &Schema, world: Option<World>, none: &Lits) -> bool {
    match world {
        Some(world) => is_well_formed(schema, &world, none),
        None => true,
    }
}

/// Whether the world is well-formed for requests of a user where a team asks.
fn fits_team(alloc: Global) -> bool {
    let user = r#""principal":{"id":"u","type":"User"}"#;
    let team = r#""principal":{"id":"t","type":"Team"}"#;
    match schema(alloc) {
        Some(schema) => fits_user(&schema, changed_world(alloc, user, team), &Lits::new(alloc)),
        None => true,
    }
}

#[test]
fn request_of_another_environment(rt: HostRuntime) {
    let fits = fits_team(rt.alloc());
    assert!(rt; !fits);
}
