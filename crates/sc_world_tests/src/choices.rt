//! Entities of enumerated types: in values, requests and stored entities, by default, and in what worlds do.
ghost use Rattle.std.specs.Prelude.{Contains};
ghost use Rattle.sc_schema.specs.Declarations.{environments};

use crate::default_worlds::begins_by;
use crate::samples::Told::{self, Entity, Missing, Nothing, Request};
use crate::samples::literal;
use crate::well_formed_worlds::is_told_of;
use sc_names::Lits;
use sc_schema::{Env, Schema, environments};
use sc_schema_json::read_schema;
use sc_world::{World, well_formed};
use sc_world_json::read_world;
use std::alloc::Global;

/// Users, of whom there are two, view documents and paints. There are two paints; documents have one, may be tagged
/// with more and may be below them.
const SCHEMA: &str =
    r#"{"":{"entityTypes":{"Doc":{"memberOfTypes":["Paint"],"shape":{"type":"Record","attributes":{"paint":{"type":"Entity","name":"Paint"}}},"tags":{"type":"Entity","name":"Paint"}},"Paint":{"enum":["red","green"]},"User":{"enum":["b","a"]}},"actions":{"view":{"appliesTo":{"principalTypes":["User"],"resourceTypes":["Doc","Paint"],"context":{"type":"Record","attributes":{"paint":{"type":"Entity","name":"Paint"}}}}}}}}"#;

/// The user `a` views a document that is red, has the tag red and is below green; the context is green.
const WORLD: &str =
    r#"{"entities":[{"attrs":{},"parents":[],"tags":{},"uid":{"id":"view","type":"Action"}},{"attrs":{"paint":{"__entity":{"id":"red","type":"Paint"}}},"parents":[{"id":"green","type":"Paint"}],"tags":{"k":{"__entity":{"id":"red","type":"Paint"}}},"uid":{"id":"d","type":"Doc"}},{"attrs":{},"parents":[],"tags":{},"uid":{"id":"green","type":"Paint"}},{"attrs":{},"parents":[],"tags":{},"uid":{"id":"red","type":"Paint"}},{"attrs":{},"parents":[],"tags":{},"uid":{"id":"a","type":"User"}}],"request":{"action":{"id":"view","type":"Action"},"context":{"paint":{"__entity":{"id":"green","type":"Paint"}}},"principal":{"id":"a","type":"User"},"resource":{"id":"d","type":"Doc"}}}"#;

/// The world by default: the first of each choice.
const DEFAULT: &str =
    r#"{"entities":[{"attrs":{},"parents":[],"tags":{},"uid":{"id":"view","type":"Action"}},{"attrs":{"paint":{"__entity":{"id":"red","type":"Paint"}}},"parents":[],"tags":{},"uid":{"id":"","type":"Doc"}},{"attrs":{},"parents":[],"tags":{},"uid":{"id":"red","type":"Paint"}},{"attrs":{},"parents":[],"tags":{},"uid":{"id":"b","type":"User"}}],"request":{"action":{"id":"view","type":"Action"},"context":{"paint":{"__entity":{"id":"red","type":"Paint"}}},"principal":{"id":"b","type":"User"},"resource":{"id":"","type":"Doc"}}}"#;

const CONTEXT: &str = r#""context":{"paint":{"__entity":{"id":"green","type":"Paint"}}}"#;

const PRINCIPAL: &str = r#""principal":{"id":"a","type":"User"}"#;

const RESOURCE: &str = r#""resource":{"id":"d","type":"Doc"}"#;

const ATTRS: &str = r#"{"attrs":{"paint":{"__entity":{"id":"red","type":"Paint"}}}"#;

const PARENTS: &str = r#""parents":[{"id":"green","type":"Paint"}]"#;

const TAGS: &str = r#""tags":{"k":{"__entity":{"id":"red","type":"Paint"}}}"#;

const RED: &str = r#"{"attrs":{},"parents":[],"tags":{},"uid":{"id":"red","type":"Paint"}},"#;

const USER: &str = r#"{"attrs":{},"parents":[],"tags":{},"uid":{"id":"a","type":"User"}}"#;

/// Parts of the world, what stands in their place, and what is told of the world then.
const CHANGES: &[(&str, &str, Told)] = &[
    (CONTEXT, CONTEXT, Nothing),
    // what is no choice in the request
    (
        CONTEXT,
        r#""context":{"paint":{"__entity":{"id":"blue","type":"Paint"}}}"#,
        Request,
    ),
    (
        CONTEXT,
        r#""context":{"paint":{"__entity":{"id":"","type":"Paint"}}}"#,
        Request,
    ),
    (
        PRINCIPAL,
        r#""principal":{"id":"c","type":"User"}"#,
        Request,
    ),
    (PRINCIPAL, r#""principal":{"id":"","type":"User"}"#, Request),
    // a choice that isn't stored
    (
        PRINCIPAL,
        r#""principal":{"id":"b","type":"User"}"#,
        Missing("User", "b"),
    ),
    (RED, "", Missing("Paint", "red")),
    // what is no choice in an attribute, a tag, and among the ancestors
    (
        ATTRS,
        r#"{"attrs":{"paint":{"__entity":{"id":"blue","type":"Paint"}}}"#,
        Entity("Doc", "d"),
    ),
    (
        TAGS,
        r#""tags":{"k":{"__entity":{"id":"blue","type":"Paint"}}}"#,
        Entity("Doc", "d"),
    ),
    (
        PARENTS,
        r#""parents":[{"id":"blue","type":"Paint"}]"#,
        Entity("Doc", "d"),
    ),
    // a choice instead
    (
        ATTRS,
        r#"{"attrs":{"paint":{"__entity":{"id":"green","type":"Paint"}}}"#,
        Nothing,
    ),
    (
        TAGS,
        r#""tags":{"k":{"__entity":{"id":"green","type":"Paint"}}}"#,
        Nothing,
    ),
    (
        PARENTS,
        r#""parents":[{"id":"red","type":"Paint"}]"#,
        Nothing,
    ),
    // stored entities: a further choice, and what is none
    (
        USER,
        r#"{"attrs":{},"parents":[],"tags":{},"uid":{"id":"a","type":"User"}},{"attrs":{},"parents":[],"tags":{},"uid":{"id":"b","type":"User"}}"#,
        Nothing,
    ),
    (
        USER,
        r#"{"attrs":{},"parents":[],"tags":{},"uid":{"id":"a","type":"User"}},{"attrs":{},"parents":[],"tags":{},"uid":{"id":"c","type":"User"}}"#,
        Entity("User", "c"),
    ),
    // a choice with an attribute, a tag, an ancestor
    (
        RED,
        r#"{"attrs":{"n":1},"parents":[],"tags":{},"uid":{"id":"red","type":"Paint"}},"#,
        Entity("Paint", "red"),
    ),
    (
        RED,
        r#"{"attrs":{},"parents":[],"tags":{"k":1},"uid":{"id":"red","type":"Paint"}},"#,
        Entity("Paint", "red"),
    ),
    (
        RED,
        r#"{"attrs":{},"parents":[{"id":"green","type":"Paint"}],"tags":{},"uid":{"id":"red","type":"Paint"}},"#,
        Entity("Paint", "red"),
    ),
];

/// Resources of the enumerated type, and what is told of the world then.
const RESOURCES: &[(&str, Told)] = &[
    (r#""resource":{"id":"red","type":"Paint"}"#, Nothing),
    (r#""resource":{"id":"green","type":"Paint"}"#, Nothing),
    (r#""resource":{"id":"blue","type":"Paint"}"#, Request),
];

/// Uids that policies write, and what is told of the world then.
const WRITTEN: &[(&str, &str, Told)] = &[
    ("Paint", "red", Nothing),
    ("User", "b", Missing("User", "b")),
];

/// Whether this is told of a world, which is well-formed for an environment just where nothing is told.
fn is_told_in(
    alloc: Global,
    schema: &Schema,
    env: &Env,
    literals: &Lits,
    world: &World,
    told: Told,
) -> bool
    requires { Contains (environments schema.now) env.now }
{
    is_told_of(alloc, schema, world, literals, told)
        && well_formed(schema, env, world, literals) == matches!(told, Nothing)
}

fn is_told(
    alloc: Global,
    schema: &Schema,
    at: usize,
    literals: &Lits,
    world: &World,
    told: Told,
) -> bool {
    match environments(schema).get(at) {
        Some(env) => is_told_in(alloc, schema, env, literals, world, told),
        None => false,
    }
}

fn is_told_of_text(alloc: Global, at: usize, literals: &Lits, world: &str, told: Told) -> bool {
    match read_schema(alloc, SCHEMA.as_bytes()) {
        Ok(schema) => is_told_by(alloc, &schema, at, literals, world, told),
        Err(_) => false,
    }
}

fn is_told_by(
    alloc: Global,
    schema: &Schema,
    at: usize,
    literals: &Lits,
    world: &str,
    told: Told,
) -> bool {
    match read_world(alloc, world.as_bytes()) {
        Ok(world) => is_told(alloc, schema, at, literals, &world, told),
        Err(_) => false,
    }
}

/// Whether this is told of the world with another text in the place of a part, for an environment.
fn is_told_of_change(
    alloc: Global,
    at: usize,
    literals: &Lits,
    (part, other): (&str, &str),
    told: Told,
) -> bool {
    match WORLD.replace(alloc, part, other) {
        Ok(world) => is_told_of_text(alloc, at, literals, world.as_str(), told),
        Err(_) => false,
    }
}

#[test]
fn what_is_told_of_choices(rt: HostRuntime) {
    let alloc = rt.alloc();
    let none = Lits::new(alloc);
    for &(part, other, told) in CHANGES {
        let is = is_told_of_change(alloc, 0, &none, (part, other), told);
        assert!(rt; is, "{other}");
    }
}

#[test]
fn resources_that_are_choices(rt: HostRuntime) {
    let alloc = rt.alloc();
    let none = Lits::new(alloc);
    for &(other, told) in RESOURCES {
        let is = is_told_of_change(alloc, 1, &none, (RESOURCE, other), told);
        assert!(rt; is, "{other}");
    }
}

fn is_told_of_literal(alloc: Global, literal: Option<Lits>, told: Told) -> bool {
    match literal {
        Some(literals) => is_told_of_text(alloc, 0, &literals, WORLD, told),
        None => false,
    }
}

#[test]
fn choices_that_policies_write(rt: HostRuntime) {
    let alloc = rt.alloc();
    for &(type_name, id, told) in WRITTEN {
        let is = is_told_of_literal(alloc, literal(alloc, type_name, id), told);
        assert!(rt; is, "{type_name} {id}");
    }
}

#[test]
fn first_choices_by_default(rt: HostRuntime) {
    assert!(rt; begins_by(rt.alloc(), SCHEMA, DEFAULT));
}
