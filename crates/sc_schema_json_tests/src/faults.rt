//! First faults of schema files.
use sc_lists::Fault;
use sc_schema_json::read_schema;
use sc_schema_syntax::SchemaFault;
use std::alloc::{AllocError, Global};

fn fault_text(alloc: Global, fault: &Fault<SchemaFault>) -> Result<String, AllocError> {
    format!(in alloc; "{fault}")
}

/// What the fault of a file says, and `read` of one that has none.
fn told_of(alloc: Global, bytes: &[u8]) -> Result<String, AllocError> {
    match read_schema(alloc, bytes) {
        Ok(_) => String::from_str(alloc, "read"),
        Err(fault) => fault_text(alloc, &fault),
    }
}

/// Whether a text is made and is this one.
pub fn is_text(found: Result<String, AllocError>, text: &str) -> bool {
    match found {
        Ok(found) => found.as_str() == text,
        Err(_) => false,
    }
}

/// Whether this is told of a file.
fn is_told(alloc: Global, bytes: &[u8], told: &str) -> bool {
    is_text(told_of(alloc, bytes), told)
}

/// Whether this is told of a file, if it is made.
pub fn is_told_of_made(alloc: Global, file: Result<String, AllocError>, told: &str) -> bool {
    match file {
        Ok(text) => is_told(alloc, text.as_bytes(), told),
        Err(_) => false,
    }
}

/// Files with faults of their form.
const FORMS: &[(&str, &str)] = &[
    ("", "not JSON"),
    ("{", "not JSON"),
    ("{}x", "not JSON"),
    (r#"{"":{"x":1e400}}"#, "not JSON"),
    (r#"{"":{"entityTypes":{"\ud800":{}}}}"#, "not JSON"),
    ("[]", "bad shape at "),
    ("null", "bad shape at "),
    (r#"{"":[]}"#, "bad shape at /"),
    (r#"{"":{"x":1}}"#, "bad shape at //x"),
    (r#"{"":{"entityTypes":[]}}"#, "bad shape at //entityTypes"),
    (
        r#"{"":{"entityTypes":{"U":{"memberOfTypes":["V",1]}}}}"#,
        "bad shape at //entityTypes/U/memberOfTypes/1",
    ),
    (
        r#"{"":{"entityTypes":{"U":{"shape":{"type":"Record","attributes":{},"additionalAttributes":true}}}}}"#,
        "bad shape at //entityTypes/U/shape/additionalAttributes",
    ),
    (
        r#"{"":{"actions":{"a":{"attributes":{"x":1}}}}}"#,
        "bad shape at //actions/a/attributes",
    ),
    (
        r#"{"":{"commonTypes":{"T":{"type":"Extension","name":"datetime"}}}}"#,
        "bad shape at //commonTypes/T/name",
    ),
    // choices are texts, each once, and stand alone
    (
        r#"{"":{"entityTypes":{"U":{"enum":[]}}}}"#,
        "bad shape at //entityTypes/U/enum",
    ),
    (
        r#"{"":{"entityTypes":{"U":{"enum":["a","b","a"]}}}}"#,
        "bad shape at //entityTypes/U/enum/2",
    ),
    (
        r#"{"":{"entityTypes":{"U":{"tags":{"type":"String"},"enum":["a"]}}}}"#,
        "bad shape at //entityTypes/U/tags",
    ),
    // a missing member at its object, and before the members that are there
    (
        r#"{"":{"commonTypes":{"T":{"type":"Set","x":1}}}}"#,
        "bad shape at //commonTypes/T",
    ),
    (
        r#"{"":{"commonTypes":{"T":{"type":1,"x":1}}}}"#,
        "bad shape at //commonTypes/T/type",
    ),
    // members in the order of their bytes
    (
        r#"{"b":{"x":1},"a":{"entityTypes":1,"actions":1}}"#,
        "bad shape at /a/actions",
    ),
    (
        r#"{"":{"commonTypes":{"b":{},"B":{}}}}"#,
        "bad shape at //commonTypes/B",
    ),
    // names that can't be declared, before what stands there
    (r#"{"a b":1}"#, "bad name at /a b"),
    (r#"{"a::":{}}"#, "bad name at /a::"),
    (
        r#"{"":{"entityTypes":{"Action":1}}}"#,
        "bad name at //entityTypes/Action",
    ),
    (
        r#"{"":{"entityTypes":{"A::B":{}}}}"#,
        "bad name at //entityTypes/A::B",
    ),
    (
        r#"{"":{"commonTypes":{"Bool":1}}}"#,
        "bad name at //commonTypes/Bool",
    ),
    (
        r#"{"":{"commonTypes":{"if":{}}}}"#,
        "bad name at //commonTypes/if",
    ),
    // paths are pointers: `~0` for `~`, `~1` for `/`
    (r#"{"a/b":{}}"#, "bad name at /a~1b"),
    (
        r#"{"":{"entityTypes":{"~1~0":{}}}}"#,
        "bad name at //entityTypes/~01~00",
    ),
    (
        r#"{"":{"actions":{"/~\"":{"memberOf":[{"id":"a"},{}]}}}}"#,
        "bad shape at //actions/~1~0\"/memberOf/1",
    ),
    // the last of members with one name
    (
        r#"{"":{"entityTypes":{"U":{}}},"":{"x":1}}"#,
        "bad shape at //x",
    ),
];

/// Files of the form with an unknown name.
const NAMES: &[(&str, &str)] = &[
    (
        r#"{"":{"entityTypes":{"User":{"memberOfTypes":["Team"]}}}}"#,
        "unknown type at //entityTypes/User/memberOfTypes/0",
    ),
    (
        r#"{"N":{"entityTypes":{"U":{}}},"":{"entityTypes":{"V":{"memberOfTypes":["U"]}}}}"#,
        "unknown type at //entityTypes/V/memberOfTypes/0",
    ),
    (
        r#"{"N":{"entityTypes":{"U":{"memberOfTypes":["M::U"]}}},"N::M":{"entityTypes":{"U":{}}}}"#,
        "unknown type at /N/entityTypes/U/memberOfTypes/0",
    ),
    (
        r#"{"":{"commonTypes":{"T":{"type":"Bool"}}}}"#,
        "unknown type at //commonTypes/T/type",
    ),
    (
        r#"{"":{"commonTypes":{"T":{"type":"U"}},"entityTypes":{"U":{}}}}"#,
        "unknown type at //commonTypes/T/type",
    ),
    (
        r#"{"":{"commonTypes":{"T":{"type":"Entity","name":"T"}}}}"#,
        "unknown type at //commonTypes/T/name",
    ),
    // no type of actions is named
    (
        r#"{"":{"actions":{"a":{"appliesTo":{"principalTypes":["Action"]}}}}}"#,
        "unknown type at //actions/a/appliesTo/principalTypes/0",
    ),
    (
        r#"{"":{"actions":{"a":{}},"commonTypes":{"T":{"type":"EntityOrCommon","name":"Action"}}}}"#,
        "unknown type at //commonTypes/T/name",
    ),
    (
        r#"{"":{"entityTypes":{"U":{"shape":{"type":"Record","attributes":{"a/b~":{"type":"Set","element":{"type":"Entity","name":"V"}}}}}}}}"#,
        "unknown type at //entityTypes/U/shape/attributes/a~1b~0/element/name",
    ),
    (
        r#"{"":{"actions":{"a":{"memberOf":[{"id":"a"},{"id":"b"}]}}}}"#,
        "unknown action at //actions/a/memberOf/1",
    ),
    // without a type an action of its own namespace is meant
    (
        r#"{"":{"actions":{"b":{}}},"N":{"actions":{"a":{"memberOf":[{"id":"b"}]}}}}"#,
        "unknown action at /N/actions/a/memberOf/0",
    ),
    // members in the order of their bytes
    (
        r#"{"":{"entityTypes":{"U":{"memberOfTypes":["V"]}},"actions":{"a":{"memberOf":[{"id":"b"}],"appliesTo":{"context":{"type":"T"}}}}}}"#,
        "unknown type at //actions/a/appliesTo/context/type",
    ),
    (
        r#"{"":{"entityTypes":{"U":{"memberOfTypes":["V"]}},"actions":{"a":{"memberOf":[{"id":"b"}]}}}}"#,
        "unknown action at //actions/a/memberOf/0",
    ),
    (
        r#"{"":{"entityTypes":{"U":{"tags":{"type":"T"},"shape":{"type":"S"}}}}}"#,
        "unknown type at //entityTypes/U/shape/type",
    ),
];

/// Files with known names and common types or actions on a cycle, or types of the wrong form.
const TYPES: &[(&str, &str)] = &[
    (
        r#"{"":{"commonTypes":{"A":{"type":"A"}}}}"#,
        "type A reaches itself",
    ),
    // the least that reaches itself, and not one that leads to it
    (
        r#"{"":{"commonTypes":{"A":{"type":"Set","element":{"type":"C"}},"C":{"type":"Record","attributes":{"b":{"type":"B"}}},"B":{"type":"EntityOrCommon","name":"C"}}}}"#,
        "type B reaches itself",
    ),
    (
        r#"{"":{"commonTypes":{"B":{"type":"B"}}},"A":{"commonTypes":{"C":{"type":"D"},"D":{"type":"C"}}}}"#,
        "type A::C reaches itself",
    ),
    (
        r#"{"":{"actions":{"a":{"memberOf":[{"id":"b"}]},"b":{"memberOf":[{"id":"a"}]}}}}"#,
        "action \"a\" of Action is in itself",
    ),
    (
        r#"{"":{"actions":{"a":{"memberOf":[{"id":"c"}]},"b":{"memberOf":[{"id":"c"}]},"c":{"memberOf":[{"id":"b"}]}}}}"#,
        "action \"b\" of Action is in itself",
    ),
    (
        r#"{"N":{"actions":{"a":{"memberOf":[{"id":"a"}]}}},"":{"actions":{"b":{"memberOf":[{"id":"b"}]}}}}"#,
        "action \"b\" of Action is in itself",
    ),
    (
        r#"{"A":{"actions":{"b":{"memberOf":[{"id":"b"}]}}},"":{"actions":{"a":{"memberOf":[{"id":"a"}]}}}}"#,
        "action \"b\" of A::Action is in itself",
    ),
    (
        r#"{"":{"entityTypes":{"U":{"shape":{"type":"Long"}}}}}"#,
        "no record type at //entityTypes/U/shape",
    ),
    (
        r#"{"":{"commonTypes":{"T":{"type":"Boolean"}},"entityTypes":{"U":{"shape":{"type":"T"}}}}}"#,
        "no record type at //entityTypes/U/shape",
    ),
    (
        r#"{"":{"actions":{"a":{"appliesTo":{"context":{"type":"String"}}}},"entityTypes":{"U":{"shape":{"type":"Long"}}}}}"#,
        "no record type at //actions/a/appliesTo/context",
    ),
    (
        r#"{"N":{"actions":{"a/b~":{"appliesTo":{"context":{"type":"String"}}}}}}"#,
        "no record type at /N/actions/a~1b~0/appliesTo/context",
    ),
    // the form of the whole file before its names, names before cycles, common types before actions,
    // cycles before types
    (
        r#"{"":{"entityTypes":{"U":{"memberOfTypes":["V"]}}},"z":1}"#,
        "bad shape at /z",
    ),
    (
        r#"{"":{"commonTypes":{"A":{"type":"A"}},"entityTypes":{"U":{"memberOfTypes":["V"]}}}}"#,
        "unknown type at //entityTypes/U/memberOfTypes/0",
    ),
    (
        r#"{"":{"commonTypes":{"A":{"type":"A"}},"actions":{"a":{"memberOf":[{"id":"a"}]}}}}"#,
        "type A reaches itself",
    ),
    (
        r#"{"":{"entityTypes":{"U":{"shape":{"type":"Long"}}},"commonTypes":{"A":{"type":"A"}}}}"#,
        "type A reaches itself",
    ),
    (
        r#"{"":{"entityTypes":{"U":{"shape":{"type":"Long"}}},"actions":{"a":{"memberOf":[{"id":"a"}]}}}}"#,
        "action \"a\" of Action is in itself",
    ),
];

#[test]
fn faults_of_form(rt: HostRuntime) {
    for &(text, told) in FORMS {
        assert!(rt; is_told(rt.alloc(), text.as_bytes(), told), "{text}");
    }
}

#[test]
fn faults_of_names(rt: HostRuntime) {
    for &(text, told) in NAMES {
        assert!(rt; is_told(rt.alloc(), text.as_bytes(), told), "{text}");
    }
}

#[test]
fn faults_of_types_and_actions(rt: HostRuntime) {
    for &(text, told) in TYPES {
        assert!(rt; is_told(rt.alloc(), text.as_bytes(), told), "{text}");
    }
}

#[test]
fn bytes_that_are_no_text(rt: HostRuntime) {
    let bytes = b"{\"\xff\":{}}".as_slice();
    assert!(rt; is_told(rt.alloc(), bytes, "not JSON"));
}
