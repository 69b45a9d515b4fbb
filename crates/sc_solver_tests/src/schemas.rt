//! A schema of documents, teams and users, each of whom has a manager. Users and teams view
//! documents, teams and users, and the context has the truth values `a` and `b`.
use sc_schema::Schema;
use sc_schema_json::read_schema;
use std::alloc::{AllocError, Global};

const SCHEMA: &str =
    r#"{"":{"entityTypes":{"Doc":{},"Team":{"memberOfTypes":["Team"]},"User":{"memberOfTypes":["Team"],"shape":{"type":"Record","attributes":{"level":{"type":"Long"},"manager":{"type":"Entity","name":"User"},"nick":{"type":"String","required":false}}},"tags":{"type":"String"}}},"actions":{"view":{"appliesTo":{"principalTypes":["Team","User"],"resourceTypes":["Doc","Team","User"],"context":{"type":"Record","attributes":{"a":{"type":"Boolean"},"b":{"type":"Boolean"}}}}}}},"Shop":{"actions":{"buy":{"memberOf":[{"id":"view","type":"Action"}]}}}}"#;

/// The place of the environment in which a team views a team.
pub(crate) const TEAM_TEAM: usize = 1;
/// The place of the environment in which a user views a document.
pub(crate) const USER_DOC: usize = 3;
/// The place of the environment in which a user views a user.
pub(crate) const USER_USER: usize = 5;

/// The schema. That its text isn't read counts as want of memory.
pub(crate) fn schema(alloc: Global) -> Result<Schema, AllocError> {
    match read_schema(alloc, SCHEMA.as_bytes()) {
        Ok(schema) => Ok(schema),
        Err(_) => Err(AllocError),
    }
}
