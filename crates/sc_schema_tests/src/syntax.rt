//! What schema files say before any name in them is looked up, and the first faults of their form.
use crate::texts::{fault_text, is_text};
use sc_lists::Text;
use sc_schema_syntax::{
    ExtensionKind, WrittenAction, WrittenAttributes, WrittenEntityType, WrittenNamespace,
    WrittenPresence, WrittenSchema, WrittenType, read_syntax, syntax_laws,
};
use std::alloc::{AllocError, Global};

/// What a file's fault says, and `read` of one that is read.
fn told_of(alloc: Global, bytes: &[u8]) -> Result<String, AllocError> {
    match read_syntax(alloc, bytes) {
        Ok(_) => String::from_str(alloc, "read"),
        Err(fault) => fault_text(alloc, &fault),
    }
}

fn is_told(alloc: Global, bytes: &[u8], told: &str) -> bool {
    is_text(told_of(alloc, bytes), told)
}

/// Files that have no tree.
const NO_TREES: &[&str] = &[
    "{",
    "",
    "{} {}",
    r#"{"":{"annotations":1e400}}"#,
    r#"{"a":"\ud800"}"#,
];

#[test]
fn files_without_a_tree(rt: HostRuntime) {
    syntax_laws();
    for &text in NO_TREES {
        assert!(rt; is_told(rt.alloc(), text.as_bytes(), "not JSON"), "{text}");
    }
    assert!(rt; is_told(rt.alloc(), b"{\"\xff\":{}}".as_slice(), "not JSON"));
}

/// The faults of files that are JSON, each with its path.
const FAULTS: &[(&str, &str)] = &[
    ("[]", "bad shape at "),
    ("null", "bad shape at "),
    (r#""""#, "bad shape at "),
    (r#"{"":[]}"#, "bad shape at /"),
    (r#"{"a b":{}}"#, "bad name at /a b"),
    (r#"{"a~b/c":{}}"#, "bad name at /a~0b~1c"),
    (r#"{"if":{}}"#, "bad name at /if"),
    (r#"{"annotations":[]}"#, "bad shape at /annotations"),
    (r#"{"A::":[]}"#, "bad name at /A::"),
    (r#"{"":{"types":{}}}"#, "bad shape at //types"),
    (r#"{"":{"entityTypes":[]}}"#, "bad shape at //entityTypes"),
    (r#"{"":{"actions":null}}"#, "bad shape at //actions"),
    (r#"{"":{"commonTypes":1}}"#, "bad shape at //commonTypes"),
    (
        r#"{"A::B":{"entityTypes":{"Action":{}}}}"#,
        "bad name at /A::B/entityTypes/Action",
    ),
    (
        r#"{"":{"entityTypes":{"A::B":{}}}}"#,
        "bad name at //entityTypes/A::B",
    ),
    (
        r#"{"":{"entityTypes":{"":[]}}}"#,
        "bad name at //entityTypes/",
    ),
    (
        r#"{"":{"entityTypes":{"U":[]}}}"#,
        "bad shape at //entityTypes/U",
    ),
    (
        r#"{"":{"entityTypes":{"U":{"memberOfTypes":"T"}}}}"#,
        "bad shape at //entityTypes/U/memberOfTypes",
    ),
    (
        r#"{"":{"entityTypes":{"U":{"memberOfTypes":["T",1]}}}}"#,
        "bad shape at //entityTypes/U/memberOfTypes/1",
    ),
    (
        r#"{"":{"entityTypes":{"U":{"shape":"Record"}}}}"#,
        "bad shape at //entityTypes/U/shape",
    ),
    (
        r#"{"":{"entityTypes":{"U":{"tags":[]}}}}"#,
        "bad shape at //entityTypes/U/tags",
    ),
    (
        r#"{"":{"entityTypes":{"U":{"shape":{"type":"Record","attributes":{},"additionalAttributes":true}}}}}"#,
        "bad shape at //entityTypes/U/shape/additionalAttributes",
    ),
    (
        r#"{"":{"entityTypes":{"U":{"shape":{"type":"Record","attributes":{"a":{"type":"Long","required":1}}}}}}}"#,
        "bad shape at //entityTypes/U/shape/attributes/a/required",
    ),
    (
        r#"{"":{"entityTypes":{"U":{"shape":{"type":"Record","attributes":{"annotations":{}}}}}}}"#,
        "bad shape at //entityTypes/U/shape/attributes/annotations",
    ),
    (
        r#"{"":{"actions":{"a/b":[]}}}"#,
        "bad shape at //actions/a~1b",
    ),
    (
        r#"{"":{"actions":{"a":{"memberOf":{}}}}}"#,
        "bad shape at //actions/a/memberOf",
    ),
    (
        r#"{"":{"actions":{"a":{"memberOf":[{"id":"b"},{"type":"T"}]}}}}"#,
        "bad shape at //actions/a/memberOf/1",
    ),
    (
        r#"{"":{"actions":{"a":{"memberOf":[{"id":1}]}}}}"#,
        "bad shape at //actions/a/memberOf/0/id",
    ),
    (
        r#"{"":{"actions":{"a":{"memberOf":[{"id":"b","type":1}]}}}}"#,
        "bad shape at //actions/a/memberOf/0/type",
    ),
    (
        r#"{"":{"actions":{"a":{"memberOf":[{"ID":"b"}]}}}}"#,
        "bad shape at //actions/a/memberOf/0",
    ),
    (
        r#"{"":{"actions":{"a":{"appliesTo":null}}}}"#,
        "bad shape at //actions/a/appliesTo",
    ),
    (
        r#"{"":{"actions":{"a":{"appliesTo":{"principalTypes":[null]}}}}}"#,
        "bad shape at //actions/a/appliesTo/principalTypes/0",
    ),
    (
        r#"{"":{"actions":{"a":{"appliesTo":{"resourceTypes":"T"}}}}}"#,
        "bad shape at //actions/a/appliesTo/resourceTypes",
    ),
    (
        r#"{"":{"actions":{"a":{"appliesTo":{"context":{"type":"Long","required":true}}}}}}"#,
        "bad shape at //actions/a/appliesTo/context/required",
    ),
    (
        r#"{"":{"actions":{"a":{"appliesTo":{"actions":[]}}}}}"#,
        "bad shape at //actions/a/appliesTo/actions",
    ),
    (
        r#"{"":{"actions":{"a":{"attributes":{"b":1}}}}}"#,
        "bad shape at //actions/a/attributes",
    ),
    (
        r#"{"":{"actions":{"a":{"attributes":[]}}}}"#,
        "bad shape at //actions/a/attributes",
    ),
    (
        r#"{"":{"commonTypes":{"Bool":{"type":"Long"}}}}"#,
        "bad name at //commonTypes/Bool",
    ),
    (
        r#"{"":{"commonTypes":{"EntityOrCommon":{"type":"Long"}}}}"#,
        "bad name at //commonTypes/EntityOrCommon",
    ),
    (
        r#"{"":{"commonTypes":{"has":[]}}}"#,
        "bad name at //commonTypes/has",
    ),
    (
        r#"{"":{"commonTypes":{"T":{}}}}"#,
        "bad shape at //commonTypes/T",
    ),
    (
        r#"{"":{"commonTypes":{"T":{"a":1,"type":null}}}}"#,
        "bad shape at //commonTypes/T/type",
    ),
    (
        r#"{"":{"commonTypes":{"T":{"a":1,"type":"Set"}}}}"#,
        "bad shape at //commonTypes/T",
    ),
    (
        r#"{"":{"commonTypes":{"T":{"type":"Set","element":{"type":"Set"}}}}}"#,
        "bad shape at //commonTypes/T/element",
    ),
    (
        r#"{"":{"commonTypes":{"T":{"type":"Record"}}}}"#,
        "bad shape at //commonTypes/T",
    ),
    (
        r#"{"":{"commonTypes":{"T":{"type":"Entity"}}}}"#,
        "bad shape at //commonTypes/T",
    ),
    (
        r#"{"":{"commonTypes":{"T":{"type":"Entity","name":{}}}}}"#,
        "bad shape at //commonTypes/T/name",
    ),
    (
        r#"{"":{"commonTypes":{"T":{"type":"EntityOrCommon"}}}}"#,
        "bad shape at //commonTypes/T",
    ),
    (
        r#"{"":{"commonTypes":{"T":{"type":"Extension","name":"datetime"}}}}"#,
        "bad shape at //commonTypes/T/name",
    ),
    (
        r#"{"":{"commonTypes":{"T":{"type":"Long","name":"a"}}}}"#,
        "bad shape at //commonTypes/T/name",
    ),
    (
        r#"{"":{"commonTypes":{"T":{"type":"a","element":{}}}}}"#,
        "bad shape at //commonTypes/T/element",
    ),
    (
        r#"{"":{"commonTypes":{"T":{"type":"Record","attributes":[]}}}}"#,
        "bad shape at //commonTypes/T/attributes",
    ),
    (
        r#"{"b":{"actions":[]},"a":{"entityTypes":[],"commonTypes":[]}}"#,
        "bad shape at /a/commonTypes",
    ),
];

#[test]
fn faults_with_their_paths(rt: HostRuntime) {
    for &(text, told) in FAULTS {
        assert!(rt; is_told(rt.alloc(), text.as_bytes(), told), "{text}");
    }
}

/// Files that are read.
const READ: &[&str] = &[
    "{}",
    r#"{"":{"annotations":{"doc":[]}}}"#,
    r#"{"annotations":{"entityTypes":{"annotations":{"annotations":1}}}}"#,
    r#"{"":{"actions":{"annotations":{"annotations":1,"attributes":{}}}}}"#,
    r#"{"":{"actions":{"a":{"memberOf":[{"id":"b","annotations":1}],"appliesTo":{"annotations":1}}}}}"#,
    r#"{"":{"commonTypes":{"T":{"type":"U","annotations":1}}}}"#,
    r#"{"":[],"":{}}"#,
];

#[test]
fn annotations_are_skipped(rt: HostRuntime) {
    for &text in READ {
        assert!(rt; is_told(rt.alloc(), text.as_bytes(), "read"), "{text}");
    }
}

/// A schema with each kind of declaration and of type.
const WHOLE: &str = r#"{
    "Shop": {
        "commonTypes": {
            "Address": {
                "type": "Record",
                "additionalAttributes": false,
                "attributes": {
                    "street": {"type": "String"},
                    "number": {"type": "Long", "required": false},
                    "checked": {"type": "Boolean", "required": true},
                    "from": {"type": "Extension", "name": "ipaddr"},
                    "price": {"type": "Extension", "name": "decimal"},
                    "owner": {"type": "Entity", "name": "User"},
                    "other": {"type": "EntityOrCommon", "name": "__cedar::Long"},
                    "more": {"type": "Set", "element": {"type": "Shop::Address"}}
                }
            }
        },
        "entityTypes": {
            "User": {
                "memberOfTypes": ["Team", "Shop::Club"],
                "shape": {"type": "Address"},
                "tags": {"type": "String"}
            },
            "Team": {},
            "Role": {"annotations": {}, "enum": ["reader", "admin", ""]}
        },
        "actions": {
            "view": {
                "memberOf": [{"id": "read"}, {"id": "all", "type": "Action"}],
                "appliesTo": {
                    "principalTypes": ["User"],
                    "resourceTypes": ["User", "Team"],
                    "context": {"type": "Record", "attributes": {}}
                }
            },
            "read": {"attributes": {}}
        }
    },
    "": {}
}"#;

/// What that schema has: actions first, then common types, then entity types.
const TOLD: &str = r#"namespace 
namespace Shop
action read
action view in read in Action::all for User on User on Team with { }
type Address = { checked: Boolean; from: ipaddr; more: set of common Shop::Address; number?: Long; other: any __cedar::Long; owner: entity User; price: decimal; street: String; }
entity Role choice reader choice admin choice 
entity Team
entity User in Team in Shop::Club = common Address tags String
"#;

/// Writes a type.
#[cycle(telling)]
fn put_type(told: &mut String, written: &WrittenType) -> Result<(), AllocError> {
    match written {
        WrittenType::Boolean => told.push_str("Boolean"),
        WrittenType::Long => told.push_str("Long"),
        WrittenType::String => told.push_str("String"),
        WrittenType::Set(member) => {
            told.push_str("set of ")?;
            put_type(told, member.get())
        }
        WrittenType::Record(fields) => put_fields(told, fields),
        WrittenType::Entity(name) => put_word(told, "entity ", name),
        WrittenType::Extension(ExtensionKind::Ipaddr) => told.push_str("ipaddr"),
        WrittenType::Extension(ExtensionKind::Decimal) => told.push_str("decimal"),
        WrittenType::EntityOrCommon(name) => put_word(told, "any ", name),
        WrittenType::Common(name) => put_word(told, "common ", name),
    }
}

/// Writes the attributes of a record, with a `?` behind the name of one that may be absent.
#[cycle(telling)]
fn put_fields(told: &mut String, fields: &WrittenAttributes) -> Result<(), AllocError> {
    told.push_str("{ ")?;
    for field in fields.as_slice() {
        put_word(told, "", &field.0)?;
        told.push_str(mark_of(field.1))?;
        put_type(told, &field.2)?;
        told.push_str("; ")?;
    }
    told.push_str("}")
}

fn mark_of(presence: WrittenPresence) -> &'static str {
    match presence {
        WrittenPresence::Required => ": ",
        WrittenPresence::Optional => "?: ",
    }
}

/// Writes a text behind a word.
fn put_word(told: &mut String, word: &str, text: &Text) -> Result<(), AllocError> {
    told.push_str(word)?;
    told.push_str(text.as_str())
}

/// Writes each text behind a word.
fn put_words(told: &mut String, word: &str, texts: &[Text]) -> Result<(), AllocError> {
    for text in texts {
        put_word(told, word, text)?;
    }
    Ok(())
}

/// Writes a type behind a word, if there is one.
fn put_part(told: &mut String, word: &str, part: &Option<WrittenType>) -> Result<(), AllocError> {
    match part {
        Some(written) => {
            told.push_str(word)?;
            put_type(told, written)
        }
        None => Ok(()),
    }
}

/// Writes the actions that an action is in, each with its type, if the file says one.
fn put_parents(told: &mut String, action: &WrittenAction) -> Result<(), AllocError> {
    for parent in action.parents.as_slice() {
        told.push_str(" in ")?;
        if let Some(name) = &parent.type_name {
            put_word(told, "", name)?;
            told.push_str("::")?;
        }
        put_word(told, "", &parent.id)?;
    }
    Ok(())
}

fn put_action(told: &mut String, action: &WrittenAction) -> Result<(), AllocError> {
    put_word(told, "action ", &action.id)?;
    put_parents(told, action)?;
    put_words(told, " for ", action.principals.as_slice())?;
    put_words(told, " on ", action.resources.as_slice())?;
    put_part(told, " with ", &action.context)?;
    told.push_str("\n")
}

fn put_entity_type(told: &mut String, declared: &WrittenEntityType) -> Result<(), AllocError> {
    put_word(told, "entity ", &declared.name)?;
    put_words(told, " in ", declared.parents.as_slice())?;
    put_part(told, " = ", &declared.shape)?;
    put_part(told, " tags ", &declared.tags)?;
    put_words(told, " choice ", declared.choices.as_slice())?;
    told.push_str("\n")
}

fn put_common_types(told: &mut String, namespace: &WrittenNamespace) -> Result<(), AllocError> {
    for common_type in namespace.common_types.as_slice() {
        put_word(told, "type ", &common_type.name)?;
        told.push_str(" = ")?;
        put_type(told, &common_type.body)?;
        told.push_str("\n")?;
    }
    Ok(())
}

fn put_namespace(told: &mut String, namespace: &WrittenNamespace) -> Result<(), AllocError> {
    put_word(told, "namespace ", &namespace.name)?;
    told.push_str("\n")?;
    for action in namespace.actions.as_slice() {
        put_action(told, action)?;
    }
    put_common_types(told, namespace)?;
    for declared in namespace.entity_types.as_slice() {
        put_entity_type(told, declared)?;
    }
    Ok(())
}

/// What a schema has.
fn lines_of(alloc: Global, schema: &WrittenSchema) -> Result<String, AllocError> {
    let mut told = String::new(alloc);
    for namespace in schema.namespaces.as_slice() {
        put_namespace(&mut told, namespace)?;
    }
    Ok(told)
}

/// Whether the schema that a file spells has this.
fn spells(alloc: Global, text: &str, told: &str) -> bool {
    match read_syntax(alloc, text.as_bytes()) {
        Ok(schema) => is_text(lines_of(alloc, &schema), told),
        Err(_) => false,
    }
}

#[test]
fn each_kind_of_declaration(rt: HostRuntime) {
    assert!(rt; spells(rt.alloc(), WHOLE, TOLD));
}
