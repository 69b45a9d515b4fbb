//! Worlds in which everything is as it is by default, but for what is given.
ghost use Rattle.std.specs.Prelude.{Contains};
ghost use Rattle.sc_schema.specs.Declarations.{environments};

use crate::samples::{literal, schema, uid};
use sc_names::Lits;
use sc_schema::{Env, Schema, environments};
use sc_schema_json::read_schema;
use sc_world::{
    Request, Store, World, default_context, default_world, well_formed, world_for, world_with,
};
use sc_world_json::{read_world, world_text};
use std::alloc::{AllocError, Global};

/// A document and a user, who views it.
const DEFAULT: &str =
    r#"{"entities":[{"attrs":{},"parents":[],"tags":{},"uid":{"id":"view","type":"Action"}},{"attrs":{},"parents":[],"tags":{},"uid":{"id":"","type":"Doc"}},{"attrs":{},"parents":[{"id":"view","type":"Action"}],"tags":{},"uid":{"id":"buy","type":"Shop::Action"}},{"attrs":{"level":0},"parents":[],"tags":{},"uid":{"id":"","type":"User"}}],"request":{"action":{"id":"view","type":"Action"},"context":{"mfa":false},"principal":{"id":"","type":"User"},"resource":{"id":"","type":"Doc"}}}"#;

/// Users view documents; the context has one truth value.
const SMALL_SCHEMA: &str =
    r#"{"":{"entityTypes":{"User":{},"Doc":{}},"actions":{"view":{"appliesTo":{"principalTypes":["User"],"resourceTypes":["Doc"],"context":{"type":"Record","attributes":{"mfa":{"type":"Boolean"}}}}}}}}"#;

/// A document and a user, who views it, and nothing else.
const OF_SMALL_SCHEMA: &str =
    r#"{"entities":[{"attrs":{},"parents":[],"tags":{},"uid":{"id":"view","type":"Action"}},{"attrs":{},"parents":[],"tags":{},"uid":{"id":"","type":"Doc"}},{"attrs":{},"parents":[],"tags":{},"uid":{"id":"","type":"User"}}],"request":{"action":{"id":"view","type":"Action"},"context":{"mfa":false},"principal":{"id":"","type":"User"},"resource":{"id":"","type":"Doc"}}}"#;

/// The same with a team.
const WITH_TEAM: &str =
    r#"{"entities":[{"attrs":{},"parents":[],"tags":{},"uid":{"id":"view","type":"Action"}},{"attrs":{},"parents":[],"tags":{},"uid":{"id":"","type":"Doc"}},{"attrs":{},"parents":[{"id":"view","type":"Action"}],"tags":{},"uid":{"id":"buy","type":"Shop::Action"}},{"attrs":{},"parents":[],"tags":{},"uid":{"id":"t","type":"Team"}},{"attrs":{"level":0},"parents":[],"tags":{},"uid":{"id":"","type":"User"}}],"request":{"action":{"id":"view","type":"Action"},"context":{"mfa":false},"principal":{"id":"","type":"User"},"resource":{"id":"","type":"Doc"}}}"#;

/// A document `d` and a user `u`, who views it.
const OF_REQUEST: &str =
    r#"{"entities":[{"attrs":{},"parents":[],"tags":{},"uid":{"id":"view","type":"Action"}},{"attrs":{},"parents":[],"tags":{},"uid":{"id":"d","type":"Doc"}},{"attrs":{},"parents":[{"id":"view","type":"Action"}],"tags":{},"uid":{"id":"buy","type":"Shop::Action"}},{"attrs":{"level":0},"parents":[],"tags":{},"uid":{"id":"u","type":"User"}}],"request":{"action":{"id":"view","type":"Action"},"context":{"mfa":false},"principal":{"id":"u","type":"User"},"resource":{"id":"d","type":"Doc"}}}"#;

/// A user `u`, who is in a team and has a friend.
const GIVEN: &str =
    r#"{"entities":[{"attrs":{"friends":[{"__entity":{"id":"v","type":"User"}}],"level":7},"parents":[{"id":"t","type":"Team"}],"tags":{"k":"x"},"uid":{"id":"u","type":"User"}}],"request":{"action":{"id":"view","type":"Action"},"context":{"mfa":false},"principal":{"id":"u","type":"User"},"resource":{"id":"d","type":"Doc"}}}"#;

/// The same with what it names: a document, a team, another user and the declared actions.
const WITH_GIVEN: &str =
    r#"{"entities":[{"attrs":{},"parents":[],"tags":{},"uid":{"id":"view","type":"Action"}},{"attrs":{},"parents":[],"tags":{},"uid":{"id":"d","type":"Doc"}},{"attrs":{},"parents":[{"id":"view","type":"Action"}],"tags":{},"uid":{"id":"buy","type":"Shop::Action"}},{"attrs":{},"parents":[],"tags":{},"uid":{"id":"t","type":"Team"}},{"attrs":{"friends":[{"__entity":{"id":"v","type":"User"}}],"level":7},"parents":[{"id":"t","type":"Team"}],"tags":{"k":"x"},"uid":{"id":"u","type":"User"}},{"attrs":{"level":0},"parents":[],"tags":{},"uid":{"id":"v","type":"User"}}],"request":{"action":{"id":"view","type":"Action"},"context":{"mfa":false},"principal":{"id":"u","type":"User"},"resource":{"id":"d","type":"Doc"}}}"#;

/// A call that makes a world.
#[derive(Clone, Copy)]
enum Call {
    Default,
    ForRequest,
    WithNothing,
    WithGiven,
}

/// A request of the user `u` to view the document `d`.
fn request(alloc: Global, schema: &Schema, env: &Env) -> Result<Request, AllocError> {
    Ok(Request {
        principal: uid(alloc, "User", "u")?,
        action: uid(alloc, "Action", "view")?,
        resource: uid(alloc, "Doc", "d")?,
        context: default_context(alloc, schema, env)?,
    })
}

fn for_request(
    alloc: Global,
    schema: &Schema,
    env: &Env,
    literals: &Lits,
) -> Result<World, AllocError> {
    world_for(alloc, schema, request(alloc, schema, env)?, literals)
}

/// The world of the default request in which nothing is given.
fn with_nothing(
    alloc: Global,
    schema: &Schema,
    env: &Env,
    literals: &Lits,
) -> Result<World, AllocError>
    requires { Contains (environments schema.now) env.now }
{
    let request = default_world(alloc, schema, env, literals)?.request;
    world_with(alloc, schema, request, Store::new(alloc), literals)
}

/// The world in which what a text has is given.
fn with_given(alloc: Global, schema: &Schema, literals: &Lits, text: &str) -> Option<World> {
    match read_world(alloc, text.as_bytes()) {
        Ok(world) => world_with(alloc, schema, world.request, world.store, literals).ok(),
        Err(_) => None,
    }
}

fn made(alloc: Global, call: Call, schema: &Schema, env: &Env, literals: &Lits) -> Option<World>
    requires { Contains (environments schema.now) env.now }
{
    match call {
        Call::Default => default_world(alloc, schema, env, literals).ok(),
        Call::ForRequest => for_request(alloc, schema, env, literals).ok(),
        Call::WithNothing => with_nothing(alloc, schema, env, literals).ok(),
        Call::WithGiven => with_given(alloc, schema, literals, GIVEN),
    }
}

/// Whether a world is well-formed and has this text.
fn has_text(
    alloc: Global,
    schema: &Schema,
    env: &Env,
    literals: &Lits,
    world: &World,
    text: &str,
) -> bool
    requires { Contains (environments schema.now) env.now }
{
    if !well_formed(schema, env, world, literals) {
        return false;
    }
    match world_text(alloc, world) {
        Ok(found) => found.as_str() == text,
        Err(_) => false,
    }
}

fn makes_in(
    alloc: Global,
    call: Call,
    schema: &Schema,
    env: &Env,
    literals: &Lits,
    text: &str,
) -> bool
    requires { Contains (environments schema.now) env.now }
{
    match made(alloc, call, schema, env, literals) {
        Some(world) => has_text(alloc, schema, env, literals, &world, text),
        None => false,
    }
}

/// Whether a call makes the world with this text for requests of a user to view a document.
fn makes(alloc: Global, call: Call, literals: &Lits, text: &str) -> bool {
    match schema(alloc) {
        Some(schema) => makes_by(alloc, call, &schema, literals, text),
        None => false,
    }
}

fn makes_by(alloc: Global, call: Call, schema: &Schema, literals: &Lits, text: &str) -> bool {
    match environments(schema).get(2) {
        Some(env) => makes_in(alloc, call, schema, env, literals, text),
        None => false,
    }
}

/// Whether a call makes the world with this text where policies write no uid.
fn makes_plainly(alloc: Global, call: Call, text: &str) -> bool {
    makes(alloc, call, &Lits::new(alloc), text)
}

/// Whether the default world where policies write a team is the one with this text.
fn makes_with_team(alloc: Global, text: &str) -> bool {
    match literal(alloc, "Team", "t") {
        Some(team) => makes(alloc, Call::Default, &team, text),
        None => false,
    }
}

/// Whether the default world of the first kind of request is the one with this text, where policies write no uid.
fn begins_with(alloc: Global, schema: &Schema, text: &str) -> bool {
    match environments(schema).get(0) {
        Some(env) => makes_in(alloc, Call::Default, schema, env, &Lits::new(alloc), text),
        None => false,
    }
}

/// The same of the schema that a text spells.
pub(crate) fn begins_by(alloc: Global, schema: &str, text: &str) -> bool {
    match read_schema(alloc, schema.as_bytes()) {
        Ok(schema) => begins_with(alloc, &schema, text),
        Err(_) => false,
    }
}

#[test]
fn world_of_a_small_schema(rt: HostRuntime) {
    assert!(rt; begins_by(rt.alloc(), SMALL_SCHEMA, OF_SMALL_SCHEMA));
}

#[test]
fn worlds_by_default(rt: HostRuntime) {
    let alloc = rt.alloc();
    assert!(rt; makes_plainly(alloc, Call::Default, DEFAULT));
    assert!(rt; makes_plainly(alloc, Call::ForRequest, OF_REQUEST));
    assert!(rt; makes_with_team(alloc, WITH_TEAM));
}

#[test]
fn worlds_with_given_entities(rt: HostRuntime) {
    let alloc = rt.alloc();
    assert!(rt; makes_plainly(alloc, Call::WithNothing, DEFAULT));
    assert!(rt; makes_plainly(alloc, Call::WithGiven, WITH_GIVEN));
}
