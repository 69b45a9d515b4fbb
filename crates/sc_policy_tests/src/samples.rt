//! Policies by their text, and the world in which they are tried.
use sc_ast::{Expr, Place, Policy, PolicySet};
use sc_names::Uid;
use sc_parser::read_policies;
use sc_world::World;
use sc_world_json::read_world;
use std::alloc::{AllocError, Global};

/// A policy whose clause has a body that begins at byte 43.
const SAMPLE: &str = "permit(principal, action, resource) when { BODY };";

/// A user who may view a document, with `mfa` in the context; the user alone is stored, with an
/// attribute `age`, an ancestor `Team::"t"` and a tag `k`.
const WORLD: &str =
    r#"{"entities":[{"attrs":{"age":7},"parents":[{"id":"t","type":"Team"}],"tags":{"k":true},"uid":{"id":"0","type":"User"}}],"request":{"action":{"id":"view","type":"Action"},"context":{"mfa":true},"principal":{"id":"0","type":"User"},"resource":{"id":"0","type":"Doc"}}}"#;

pub(crate) fn at(offset: u64) -> Place {
    Place { offset }
}

/// The sample with this body.
pub(crate) fn sample(alloc: Global, body: &str) -> Result<String, AllocError> {
    SAMPLE.replace(alloc, "BODY", body)
}

/// The policies of a file, if it is read.
pub(crate) fn policies(alloc: Global, file: &str) -> Option<PolicySet> {
    read_policies(alloc, file.as_bytes()).ok()
}

/// The sample with this body, if it is read.
pub(crate) fn policies_with(alloc: Global, body: &str) -> Option<PolicySet> {
    match sample(alloc, body) {
        Ok(file) => policies(alloc, file.as_str()),
        Err(_) => None,
    }
}

/// The body of a policy's first clause, if it has one.
pub(crate) fn body_of(policy: &Policy) -> Option<&Expr> {
    match policy.conditions.get(0) {
        Some(clause) => Some(&clause.body),
        None => None,
    }
}

/// The body of the first clause of the first policy, if there is one.
pub(crate) fn first_body(policies: &PolicySet) -> Option<&Expr> {
    match policies.get(0) {
        Some(policy) => body_of(policy),
        None => None,
    }
}

pub(crate) fn is_uid(uid: &Uid, type_name: &str, id: &str) -> bool {
    uid.type_name.as_str() == type_name && uid.id.as_str() == id
}

/// The world, if its text is read.
pub(crate) fn world(alloc: Global) -> Option<World> {
    read_world(alloc, WORLD.as_bytes()).ok()
}
