//! Actions that stand above themselves.
ghost use Rattle.sc_schema.specs.Resolved.{IsResolved};

use crate::declared::declared;
use crate::texts::is_text;
use sc_names::uid_text;
use sc_schema::ResolvedSchema;
use sc_schema_json::least_cycle;
use std::alloc::{AllocError, Global};

/// The text of the least action of a schema that is in itself, and `none` where none is.
fn cycle_text(alloc: Global, schema: &ResolvedSchema) -> Result<String, AllocError>
    requires { IsResolved schema.now }
{
    match least_cycle(alloc, schema)? {
        Some(uid) => uid_text(alloc, &uid),
        None => String::from_str(alloc, "none"),
    }
}

/// Whether this is told of the schema that a file declares.
fn has_cycle(alloc: Global, text: &str, told: &str) -> bool {
    match declared(alloc, text) {
        Some(schema) => is_text(cycle_text(alloc, &schema), told),
        None => false,
    }
}

/// Files with the least action that is in itself.
const CYCLES: &[(&str, &str)] = &[
    // two in each other
    (
        r#"{"":{"actions":{"a":{"memberOf":[{"id":"b"}]},"b":{"memberOf":[{"id":"a"}]}}},"A":{"actions":{"z":{}}}}"#,
        r#"Action::"a""#,
    ),
    // one of a later namespace
    (
        r#"{"":{"actions":{"a":{"memberOf":[{"id":"b"}]},"b":{"memberOf":[{"id":"a"}]}}},"A":{"actions":{"z":{"memberOf":[{"id":"z"}]}}}}"#,
        r#"A::Action::"z""#,
    ),
    (
        r#"{"":{"actions":{"a":{"memberOf":[{"id":"b"}]},"b":{}}},"A":{"actions":{"z":{"memberOf":[{"id":"z"}]}}}}"#,
        r#"A::Action::"z""#,
    ),
    // one in another, which is in none
    (
        r#"{"":{"actions":{"a":{"memberOf":[{"id":"b"}]},"b":{}}},"A":{"actions":{"z":{}}}}"#,
        "none",
    ),
];

#[test]
fn least_actions_in_themselves(rt: HostRuntime) {
    for &(text, told) in CYCLES {
        assert!(rt; has_cycle(rt.alloc(), text, told), "{text}");
    }
}
