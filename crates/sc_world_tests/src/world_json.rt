//! Worlds that are written and read, and the first faults of those that aren't read.
use sc_lists::Fault;
use sc_world_json::{WorldFault, plain_keys, read_world, world_text, world_value};
use serde_json::Value as Json;
use std::alloc::{AllocError, Global};

/// A world with nothing stored and an empty context.
const SAMPLE: &str =
    r#"{"entities":[],"request":{"action":{"id":"view","type":"Action"},"context":{},"principal":{"id":"0","type":"User"},"resource":{"id":"0","type":"Doc"}}}"#;

/// The entities of the sample.
const ENTITIES: &str = "[]";
/// The context of the sample.
const CONTEXT: &str = "{}";

/// What a world's fault says, and the text of one that is read.
fn told_of(alloc: Global, text: &str) -> Result<String, AllocError> {
    match read_world(alloc, text.as_bytes()) {
        Ok(world) => world_text(alloc, &world),
        Err(fault) => format!(in alloc; "{fault}"),
    }
}

/// Whether what is told of a text is this one, which is given in two parts.
fn is_told(alloc: Global, text: &str, begin: &str, end: &str) -> bool {
    match told_of(alloc, text) {
        Ok(told) => told.as_str().strip_prefix(begin) == Some(end),
        Err(_) => false,
    }
}

/// Whether the same is told of the sample with another text in the place of a part.
fn is_told_with(alloc: Global, (part, other): (&str, &str), begin: &str, end: &str) -> bool {
    match SAMPLE.replace(alloc, part, other) {
        Ok(text) => is_told(alloc, text.as_str(), begin, end),
        Err(_) => false,
    }
}

/// Whether the sample with one text in the place of a part is read and written with another.
fn is_read_as(alloc: Global, part: &str, other: &str, written: &str) -> bool {
    match SAMPLE.replace(alloc, part, written) {
        Ok(text) => is_told_with(alloc, (part, other), text.as_str(), ""),
        Err(_) => false,
    }
}

/// Whether bytes are told to be no JSON.
fn is_not_json(alloc: Global, bytes: &[u8]) -> bool {
    matches!(
        read_world(alloc, bytes),
        Err(Fault::Told(WorldFault::NotJson))
    )
}

/// Texts that have no tree.
const NO_TREES: &[&str] = &["{", "", "{} {}", r#"{"entities":1e400}"#, r#"["\ud800"]"#];

#[test]
fn bytes_without_a_tree(rt: HostRuntime) {
    let alloc = rt.alloc();
    assert!(rt; is_told(alloc, "", "not JSON", ""));
    for &text in NO_TREES {
        assert!(rt; is_not_json(alloc, text.as_bytes()), "{text}");
    }
    assert!(rt; is_not_json(alloc, b"[\"\xff\"]".as_slice()));
}

/// Faults of the whole.
const WHOLE: &[(&str, &str)] = &[
    ("[]", ""),
    ("null", ""),
    ("{}", ""),
    (r#"{"entities":[]}"#, ""),
    (r#"{"entities":{},"request":{},"spare":0}"#, ""),
    (r#"{"entities":[],"requests":{}}"#, ""),
    (r#"{"entities":{},"request":{}}"#, "/entities"),
    (r#"{"entities":[],"request":{}}"#, "/request"),
];

#[test]
fn faults_of_the_whole(rt: HostRuntime) {
    for &(text, path) in WHOLE {
        assert!(rt;
            is_told(rt.alloc(), text, "bad world at ", path),
            "{text}: {path}"
        );
    }
}

/// Faults of a context, with what stands in its place.
const CONTEXTS: &[(&str, &str)] = &[
    ("[]", ""),
    ("null", ""),
    (r#"{"a":null}"#, "/a"),
    (r#"{"a":1.0}"#, "/a"),
    (r#"{"a":-0}"#, "/a"),
    (r#"{"a":9223372036854775808}"#, "/a"),
    (r#"{"a":[true,{"b/~":[null]}]}"#, "/a/1/b~1~0/0"),
    (r#"{"b":null,"a":null}"#, "/a"),
    (r#"{"a":null,"a":1,"b":null}"#, "/b"),
    (r#"{"__entity":{"id":"0","type":"User"}}"#, ""),
    (r#"{"__extn":{"arg":"1.0","fn":"decimal"}}"#, ""),
    (r#"{"a":{"__entity":1}}"#, "/a/__entity"),
    (r#"{"a":{"__entity":{"id":"0"}}}"#, "/a/__entity"),
    (
        r#"{"a":{"__entity":{"id":0,"type":"User"}}}"#,
        "/a/__entity/id",
    ),
    (
        r#"{"a":{"__entity":{"id":"0","type":"User","__entity":1}}}"#,
        "/a/__entity",
    ),
    (r#"{"a":{"__extn":{"fn":"decimal"}}}"#, "/a/__extn"),
    (
        r#"{"a":{"__extn":{"arg":"1.0","fn":"nope"}}}"#,
        "/a/__extn/fn",
    ),
    (r#"{"a":{"__extn":{"arg":1,"fn":"nope"}}}"#, "/a/__extn/arg"),
    (
        r#"{"a":{"__extn":{"arg":"1","fn":"decimal"}}}"#,
        "/a/__extn/arg",
    ),
    (
        r#"{"a":{"__extn":{"arg":"1.0","fn":"ip"}}}"#,
        "/a/__extn/arg",
    ),
    (
        r#"{"a":{"__extn":{"arg":"::1","fn":null}}}"#,
        "/a/__extn/fn",
    ),
    (r#"{"a":{"__extn":"ip"}}"#, "/a/__extn"),
];

#[test]
fn faults_of_contexts(rt: HostRuntime) {
    let begin = "bad world at /request/context";
    for &(context, path) in CONTEXTS {
        assert!(rt;
            is_told_with(rt.alloc(), (CONTEXT, context), begin, path),
            "{context}: {path}"
        );
    }
}

/// Faults of entities, with what stands in their place.
const STORED: &[(&str, &str)] = &[
    ("[1]", "/0"),
    (
        r#"[{"attrs":{},"parents":[],"uid":{"id":"0","type":"User"}}]"#,
        "/0",
    ),
    (
        r#"[{"attrs":[],"parents":{},"tags":{},"uid":{"id":"0","type":"User"}}]"#,
        "/0/attrs",
    ),
    (
        r#"[{"attrs":{},"parents":{},"tags":1,"uid":{"id":"0","type":"User"}}]"#,
        "/0/parents",
    ),
    (
        r#"[{"attrs":{},"parents":[{"id":"0","type":"User"},1],"tags":{},"uid":{"id":"0","type":"User"}}]"#,
        "/0/parents/1",
    ),
    (
        r#"[{"attrs":{},"parents":[],"tags":{"__extn":1},"uid":{"id":"0","type":"User"}}]"#,
        "/0/tags",
    ),
    (
        r#"[{"attrs":{},"parents":[],"tags":{},"uid":"User::\"0\""}]"#,
        "/0/uid",
    ),
    (
        r#"[{"attrs":{},"parents":[],"tags":{},"uid":{"id":"0","type":"User"}},{"attrs":{},"parents":[],"tags":{},"uid":{"id":"0","type":"User"}},1]"#,
        "/1/uid",
    ),
    (
        r#"[{"attrs":{},"parents":[],"tags":{},"uid":{"id":"0","type":"User"}},{"attrs":1,"parents":[],"tags":{},"uid":{"id":"0","type":"User"}}]"#,
        "/1/attrs",
    ),
    (
        r#"[{"attrs":{},"parents":[],"tags":{},"uid":{"id":"0","type":"User"}},{"attrs":{},"parents":[],"tags":{},"uid":{"id":"1","type":"User"}},{"attrs":{},"parents":[],"tags":{},"uid":{"type":"User","id":"0"}}]"#,
        "/2/uid",
    ),
];

#[test]
fn faults_of_entities(rt: HostRuntime) {
    let begin = "bad world at /entities";
    for &(entities, path) in STORED {
        assert!(rt;
            is_told_with(rt.alloc(), (ENTITIES, entities), begin, path),
            "{entities}: {path}"
        );
    }
}

fn text_of(alloc: Global, value: &Json) -> Result<String, AllocError> {
    value.to_string(alloc)
}

fn has_text(alloc: Global, value: &Json, text: &str) -> bool {
    match text_of(alloc, value) {
        Ok(found) => found.as_str() == text,
        Err(_) => false,
    }
}

fn value_of(alloc: Global, text: &str) -> Result<Json, AllocError> {
    match read_world(alloc, text.as_bytes()) {
        Ok(world) => world_value(alloc, &world),
        Err(_) => Err(AllocError),
    }
}

/// Whether the text of a world's JSON value is the one that it is read from.
fn is_value_text(alloc: Global, text: &str) -> bool {
    match value_of(alloc, text) {
        Ok(value) => has_text(alloc, &value, text),
        Err(_) => false,
    }
}

/// Worlds as they are written: one with a truth value alone, and one with each kind of value.
const WRITTEN: &[&str] = &[
    r#"{"entities":[{"attrs":{},"parents":[],"tags":{},"uid":{"id":"view","type":"Action"}},{"attrs":{},"parents":[],"tags":{},"uid":{"id":"0","type":"Doc"}},{"attrs":{},"parents":[],"tags":{},"uid":{"id":"0","type":"User"}}],"request":{"action":{"id":"view","type":"Action"},"context":{"mfa":true},"principal":{"id":"0","type":"User"},"resource":{"id":"0","type":"Doc"}}}"#,
    r#"{"entities":[{"attrs":{"addr":{"__extn":{"arg":"10.0.0.1/8","fn":"ip"}},"name":"\"é\n"},"parents":[{"id":"g","type":"Group"}],"tags":{"boss":{"__entity":{"id":"1","type":"User"}},"numbers":[-5]},"uid":{"id":"0","type":"User"}}],"request":{"action":{"id":"view","type":"Shop::Action"},"context":{"price":{"__extn":{"arg":"-1.2345","fn":"decimal"}},"rest":{"mfa":false}},"principal":{"id":"0","type":"User"},"resource":{"id":"","type":"Doc"}}}"#,
];

#[test]
fn worlds_that_were_written(rt: HostRuntime) {
    for &text in WRITTEN {
        assert!(rt; is_told(rt.alloc(), text, text, ""), "{text}");
        assert!(rt; is_value_text(rt.alloc(), text), "{text}");
    }
}

/// Contexts, and how they are written once they are read.
const READ: &[(&str, &str)] = &[
    (r#"{"s":[3,1,[],3,"x",1]}"#, r#"{"s":[1,3,"x",[]]}"#),
    (
        r#"{"n":-9223372036854775808,"a":{"b":{}}}"#,
        r#"{"a":{"b":{}},"n":-9223372036854775808}"#,
    ),
    (
        r#"{"e":{"__entity":{"type":"any text","id":"é"}}}"#,
        r#"{"e":{"__entity":{"id":"é","type":"any text"}}}"#,
    ),
    (
        r#"{"d":{"__extn":{"fn":"decimal","arg":"-01.5"}}}"#,
        r#"{"d":{"__extn":{"arg":"-1.5000","fn":"decimal"}}}"#,
    ),
    (
        r#"{"i":{"__extn":{"fn":"ip","arg":"::1"}}}"#,
        r#"{"i":{"__extn":{"arg":"0:0:0:0:0:0:0:1/128","fn":"ip"}}}"#,
    ),
    (
        r#"{"__entity":1,"__extn":2}"#,
        r#"{"__entity":1,"__extn":2}"#,
    ),
    (r#"{"a":null,"a":false}"#, r#"{"a":false}"#),
];

#[test]
fn contexts_that_are_read(rt: HostRuntime) {
    for &(context, written) in READ {
        assert!(rt;
            is_read_as(rt.alloc(), CONTEXT, context, written),
            "{context}"
        );
    }
}

#[test]
fn entities_and_parents_in_any_order(rt: HostRuntime) {
    let given =
        r#"[{"uid":{"id":"1","type":"User"},"tags":{"t":[]},"parents":[{"id":"b","type":"Group"},{"id":"a","type":"Group"},{"type":"Group","id":"b"}],"attrs":{}},{"attrs":{},"parents":[],"tags":{},"uid":{"id":"0","type":"User"}}]"#;
    let written =
        r#"[{"attrs":{},"parents":[],"tags":{},"uid":{"id":"0","type":"User"}},{"attrs":{},"parents":[{"id":"a","type":"Group"},{"id":"b","type":"Group"}],"tags":{"t":[]},"uid":{"id":"1","type":"User"}}]"#;
    let same = is_read_as(rt.alloc(), ENTITIES, given, written);
    assert!(rt; same);
}

fn has_plain_keys(alloc: Global, text: &str) -> Option<bool> {
    match read_world(alloc, text.as_bytes()) {
        Ok(world) => Some(plain_keys(&world)),
        Err(_) => None,
    }
}

/// Whether no record of the sample with this context has a field with the name of a mark.
fn is_plain(alloc: Global, context: &str) -> Option<bool> {
    match SAMPLE.replace(alloc, CONTEXT, context) {
        Ok(text) => has_plain_keys(alloc, text.as_str()),
        Err(_) => None,
    }
}

/// Contexts, each with whether no record has a field with the name of a mark.
const PLAIN: &[(&str, bool)] = &[
    (
        r#"{"a":[{"b":1}],"e":{"__entity":{"id":"0","type":"User"}}}"#,
        true,
    ),
    (r#"{"a":[{"__entity":1,"b":1}]}"#, false),
    (r#"{"__extn":1,"b":1}"#, false),
];

#[test]
fn keys_that_are_plain(rt: HostRuntime) {
    for &(context, plain) in PLAIN {
        assert!(rt; is_plain(rt.alloc(), context) == Some(plain), "{context}");
    }
}
