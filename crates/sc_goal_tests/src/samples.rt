//! Policies by their text, and the schema that they are typed under.
use sc_ast::{Policy, PolicySet};
use sc_lists::Boxed;
use sc_parser::read_policies;
use sc_schema::{Env, Schema};
use sc_schema_json::read_schema;
use sc_typing::{TypedExpr, type_policy};
use std::alloc::{AllocError, Global};

/// Users, who may be in groups, have a name and tags, and may have a boss, view documents; the context has
/// three truth values and a number.
const SCHEMA: &str =
    r#"{"":{"entityTypes":{"Group":{},"User":{"memberOfTypes":["Group"],"shape":{"type":"Record","attributes":{"boss":{"type":"Entity","name":"User","required":false},"name":{"type":"String"}}},"tags":{"type":"Long"}},"Doc":{}},"actions":{"view":{"appliesTo":{"principalTypes":["User"],"resourceTypes":["Doc"],"context":{"type":"Record","attributes":{"x":{"type":"Boolean"},"y":{"type":"Boolean"},"z":{"type":"Boolean"},"n":{"type":"Long"}}}}}}}}"#;

/// A policy with this body.
const SAMPLE: &str = "permit(principal, action, resource) when { BODY };";

/// The schema. That its text isn't read counts as want of memory.
pub(crate) fn schema(alloc: Global) -> Result<Schema, AllocError> {
    match read_schema(alloc, SCHEMA.as_bytes()) {
        Ok(schema) => Ok(schema),
        Err(_) => Err(AllocError),
    }
}

/// The policies of a file. That it isn't read counts as want of memory.
pub(crate) fn policies(alloc: Global, file: &str) -> Result<PolicySet, AllocError> {
    match read_policies(alloc, file.as_bytes()) {
        Ok(policies) => Ok(policies),
        Err(_) => Err(AllocError),
    }
}

/// The sample with this body.
pub(crate) fn sample(alloc: Global, body: &str) -> Result<PolicySet, AllocError> {
    let file = SAMPLE.replace(alloc, "BODY", body)?;
    policies(alloc, file.as_str())
}

/// The condition of a policy with its types. That it has none counts as want of memory.
pub(crate) fn typed(
    alloc: Global,
    schema: &Schema,
    env: &Env,
    policy: &Policy,
) -> Result<Boxed<TypedExpr>, AllocError> {
    match type_policy(alloc, schema, env, policy) {
        Ok(condition) => Boxed::new(alloc, condition),
        Err(_) => Err(AllocError),
    }
}
