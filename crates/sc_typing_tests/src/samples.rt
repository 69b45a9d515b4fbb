//! Policies by their text, and the schema that they are typed under.
use sc_ast::{Place, PolicySet};
use sc_parser::read_policies;
use sc_schema::Schema;
use sc_schema_json::read_schema;
use std::alloc::{AllocError, Global};

/// Teams and users, who may be in teams, view documents and teams; to buy is to view.
const SCHEMA: &str =
    r#"{"":{"entityTypes":{"Doc":{},"Team":{"memberOfTypes":["Team"]},"User":{"memberOfTypes":["Team"],"shape":{"type":"Record","attributes":{"box":{"type":"Record","attributes":{"n":{"type":"Boolean","required":false}}},"level":{"type":"Long"},"nick":{"type":"String","required":false}}},"tags":{"type":"String"}}},"actions":{"view":{"appliesTo":{"principalTypes":["Team","User"],"resourceTypes":["Doc","Team"],"context":{"type":"Record","attributes":{"mfa":{"type":"Boolean"}}}}}}},"Shop":{"actions":{"buy":{"memberOf":[{"id":"view","type":"Action"}]}}}}"#;

/// A policy whose clause has a body that begins at byte 43.
const SAMPLE: &str = "permit(principal, action, resource) when { BODY };";

pub(crate) fn at(offset: u64) -> Place {
    Place { offset }
}

pub(crate) fn schema(alloc: Global) -> Result<Schema, AllocError> {
    schema_of(alloc, SCHEMA)
}

/// The schema of a text. That it isn't read counts as want of memory.
pub(crate) fn schema_of(alloc: Global, text: &str) -> Result<Schema, AllocError> {
    match read_schema(alloc, text.as_bytes()) {
        Ok(schema) => Ok(schema),
        Err(_) => Err(AllocError),
    }
}

/// The policies of a file. That it isn't read counts as want of memory.
pub(crate) fn policies(alloc: Global, file: &str) -> Result<PolicySet, AllocError> {
    match read_policies(alloc, file.as_bytes()) {
        Ok(policies) => Ok(policies),
        Err(_) => Err(AllocError),
    }
}

/// The sample with this body.
pub(crate) fn sample(alloc: Global, body: &str) -> Result<PolicySet, AllocError> {
    match SAMPLE.replace(alloc, "BODY", body) {
        Ok(file) => policies(alloc, file.as_str()),
        Err(_) => Err(AllocError),
    }
}
