//! Names in schema files: what each stands for, and the first that is unknown.
use crate::declared::declared;
use crate::texts::{fault_text, is_text};
use sc_names::{Name, Uid, put_uid};
use sc_schema::{
    ResolvedAction, ResolvedEntityType, ResolvedNamespace, ResolvedSchema, ResolvedType,
};
use sc_schema_names::{resolution_laws, resolve};
use sc_schema_syntax::{WrittenSchema, read_syntax};
use std::alloc::{AllocError, Global};

/// What a file's fault says, and `resolved` of one whose names are known.
fn told_of(alloc: Global, written: &WrittenSchema) -> Result<String, AllocError> {
    match resolve(alloc, written) {
        Ok(_) => String::from_str(alloc, "resolved"),
        Err(fault) => fault_text(alloc, &fault),
    }
}

fn is_told(alloc: Global, text: &str, told: &str) -> bool {
    match read_syntax(alloc, text.as_bytes()) {
        Ok(written) => is_text(told_of(alloc, &written), told),
        Err(_) => false,
    }
}

/// Files with the fault of the first name in them that is unknown.
const FAULTS: &[(&str, &str)] = &[
    (
        r#"{"":{"entityTypes":{"User":{"memberOfTypes":["Team"]}}}}"#,
        "unknown type at //entityTypes/User/memberOfTypes/0",
    ),
    (
        r#"{"":{"entityTypes":{"U":{"memberOfTypes":["U","if"]}}}}"#,
        "unknown type at //entityTypes/U/memberOfTypes/1",
    ),
    (
        r#"{"":{"entityTypes":{"U":{"memberOfTypes":["::U"]}}}}"#,
        "unknown type at //entityTypes/U/memberOfTypes/0",
    ),
    (
        r#"{"A":{"entityTypes":{"U":{"memberOfTypes":["V"]}}},"B":{"entityTypes":{"V":{}}}}"#,
        "unknown type at /A/entityTypes/U/memberOfTypes/0",
    ),
    (
        r#"{"A":{"entityTypes":{"U":{"memberOfTypes":["B::U"]}}},"A::B":{"entityTypes":{"U":{}}}}"#,
        "unknown type at /A/entityTypes/U/memberOfTypes/0",
    ),
    (
        r#"{"":{"entityTypes":{"U":{"tags":{"type":"X"},"shape":{"type":"Y"},"memberOfTypes":["Z"]}}}}"#,
        "unknown type at //entityTypes/U/memberOfTypes/0",
    ),
    (
        r#"{"":{"entityTypes":{"U":{"tags":{"type":"X"},"shape":{"type":"Y"}}}}}"#,
        "unknown type at //entityTypes/U/shape/type",
    ),
    (
        r#"{"":{"entityTypes":{"U":{"tags":{"type":"X"}}}}}"#,
        "unknown type at //entityTypes/U/tags/type",
    ),
    (
        r#"{"":{"commonTypes":{"T":{"type":"Bool"}}}}"#,
        "unknown type at //commonTypes/T/type",
    ),
    (
        r#"{"":{"commonTypes":{"T":{"type":"ipaddr"}}}}"#,
        "unknown type at //commonTypes/T/type",
    ),
    (
        r#"{"":{"commonTypes":{"T":{"type":"__cedar::Long"}}}}"#,
        "unknown type at //commonTypes/T/type",
    ),
    (
        r#"{"":{"commonTypes":{"T":{"type":"U"}},"entityTypes":{"U":{}}}}"#,
        "unknown type at //commonTypes/T/type",
    ),
    (
        r#"{"":{"commonTypes":{"T":{"type":"Entity","name":"T"}}}}"#,
        "unknown type at //commonTypes/T/name",
    ),
    (
        r#"{"":{"commonTypes":{"T":{"type":"Entity","name":"Long"}}}}"#,
        "unknown type at //commonTypes/T/name",
    ),
    (
        r#"{"":{"commonTypes":{"T":{"type":"EntityOrCommon","name":"Set"}}}}"#,
        "unknown type at //commonTypes/T/name",
    ),
    (
        r#"{"":{"commonTypes":{"T":{"type":"EntityOrCommon","name":"__cedar::Record"}}}}"#,
        "unknown type at //commonTypes/T/name",
    ),
    (
        r#"{"":{"commonTypes":{"T":{"type":"EntityOrCommon","name":"__cedar::__cedar::Long"}}}}"#,
        "unknown type at //commonTypes/T/name",
    ),
    (
        r#"{"":{"commonTypes":{"T":{"type":"Set","element":{"type":"Set","element":{"type":"X"}}}}}}"#,
        "unknown type at //commonTypes/T/element/element/type",
    ),
    (
        r#"{"":{"entityTypes":{"U":{"shape":{"type":"Record","attributes":{"b":{"type":"X"},"a/~":{"type":"Entity","name":"X"}}}}}}}"#,
        "unknown type at //entityTypes/U/shape/attributes/a~1~0/name",
    ),
    (
        r#"{"":{"actions":{"a":{"memberOf":[{"id":"x"}],"appliesTo":{"resourceTypes":["R"],"principalTypes":["P"],"context":{"type":"C"}}}}}}"#,
        "unknown type at //actions/a/appliesTo/context/type",
    ),
    (
        r#"{"":{"actions":{"a":{"memberOf":[{"id":"x"}],"appliesTo":{"resourceTypes":["R"],"principalTypes":["P"]}}}}}"#,
        "unknown type at //actions/a/appliesTo/principalTypes/0",
    ),
    (
        r#"{"":{"actions":{"a":{"memberOf":[{"id":"x"}],"appliesTo":{"resourceTypes":["U","R"],"principalTypes":["U"]}}},"entityTypes":{"U":{}}}}"#,
        "unknown type at //actions/a/appliesTo/resourceTypes/1",
    ),
    (
        r#"{"":{"actions":{"a":{"appliesTo":{"principalTypes":["Action"]}}}}}"#,
        "unknown type at //actions/a/appliesTo/principalTypes/0",
    ),
    (
        r#"{"":{"actions":{"a":{"memberOf":[{"id":"a"},{"id":"x"}]}}}}"#,
        "unknown action at //actions/a/memberOf/1",
    ),
    (
        r#"{"":{"actions":{"a":{"memberOf":[{"id":"a","type":"B"}]}}}}"#,
        "unknown action at //actions/a/memberOf/0",
    ),
    (
        r#"{"":{"actions":{"x":{}}},"A":{"actions":{"a":{"memberOf":[{"id":"x"}]}}}}"#,
        "unknown action at /A/actions/a/memberOf/0",
    ),
    (
        r#"{"A":{"actions":{"x":{}}},"":{"actions":{"a":{"memberOf":[{"id":"x","type":"Action"}]}}}}"#,
        "unknown action at //actions/a/memberOf/0",
    ),
    (
        r#"{"":{"actions":{"a/b":{"memberOf":[{"id":""}]}}}}"#,
        "unknown action at //actions/a~1b/memberOf/0",
    ),
    (
        r#"{"":{"entityTypes":{"U":{"memberOfTypes":["X"]}},"commonTypes":{"T":{"type":"X"}},"actions":{"a":{"memberOf":[{"id":"x"}]}}}}"#,
        "unknown action at //actions/a/memberOf/0",
    ),
    (
        r#"{"":{"entityTypes":{"U":{"memberOfTypes":["X"]}},"commonTypes":{"T":{"type":"X"}}}}"#,
        "unknown type at //commonTypes/T/type",
    ),
    (
        r#"{"":{"actions":{"b":{"memberOf":[{"id":"x"}]},"a":{"appliesTo":{"context":{"type":"X"}}}}}}"#,
        "unknown type at //actions/a/appliesTo/context/type",
    ),
    (
        r#"{"b":{"entityTypes":{"U":{"memberOfTypes":["X"]}}},"a":{"entityTypes":{"V":{"memberOfTypes":["X"]}}}}"#,
        "unknown type at /a/entityTypes/V/memberOfTypes/0",
    ),
];

#[test]
fn faults_with_their_paths(rt: HostRuntime) {
    resolution_laws();
    for &(text, told) in FAULTS {
        assert!(rt; is_told(rt.alloc(), text, told), "{text}");
    }
}

/// A word for a type, and the name in it.
fn word_of(alloc: Global, body: &ResolvedType) -> Result<String, AllocError> {
    match body {
        ResolvedType::Boolean => String::from_str(alloc, "Boolean"),
        ResolvedType::Long => String::from_str(alloc, "Long"),
        ResolvedType::String => String::from_str(alloc, "String"),
        ResolvedType::Decimal => String::from_str(alloc, "decimal"),
        ResolvedType::Ip => String::from_str(alloc, "ipaddr"),
        ResolvedType::Entity(name) => format!(in alloc; "entity {}", name.as_str()),
        ResolvedType::Set(_) => String::from_str(alloc, "Set"),
        ResolvedType::Record(_) => String::from_str(alloc, "Record"),
        ResolvedType::Common(name) => format!(in alloc; "common {}", name.as_str()),
    }
}

/// The type that `Z` stands for in the last namespace, if it stands for one.
fn body_in(schema: &ResolvedSchema) -> Option<&ResolvedType> {
    let namespace = schema.namespaces.as_slice().last()?;
    for common_type in namespace.common_types.as_slice() {
        if common_type.key.as_str() == "Z" {
            return Some(&common_type.body);
        }
    }
    None
}

/// Whether `Z` stands for a type with this word in the last namespace.
fn has_word(alloc: Global, schema: &ResolvedSchema, word: &str) -> bool {
    match body_in(schema) {
        Some(body) => is_text(word_of(alloc, body), word),
        None => false,
    }
}

fn stands_for(alloc: Global, text: &str, word: &str) -> bool {
    match declared(alloc, text) {
        Some(schema) => has_word(alloc, &schema, word),
        None => false,
    }
}

/// Files with what `Z` stands for in their last namespace.
const TYPES: &[(&str, &str)] = &[
    // a common type comes before an entity type
    (
        r#"{"":{"commonTypes":{"T":{"type":"Long"},"Z":{"type":"EntityOrCommon","name":"T"}},"entityTypes":{"T":{}}}}"#,
        "common T",
    ),
    // the current namespace comes before the empty one
    (
        r#"{"":{"commonTypes":{"T":{"type":"Long"}}},"A":{"commonTypes":{"Z":{"type":"EntityOrCommon","name":"T"}},"entityTypes":{"T":{}}}}"#,
        "entity A::T",
    ),
    (
        r#"{"":{"commonTypes":{"T":{"type":"Long"}}},"A":{"commonTypes":{"T":{"type":"Long"},"Z":{"type":"T"}}}}"#,
        "common A::T",
    ),
    (
        r#"{"":{"entityTypes":{"T":{}}},"A":{"commonTypes":{"Z":{"type":"Entity","name":"T"}},"entityTypes":{"T":{}}}}"#,
        "entity A::T",
    ),
    // the empty namespace comes last
    (
        r#"{"":{"commonTypes":{"T":{"type":"Long"}},"entityTypes":{"T":{}}},"A":{"commonTypes":{"Z":{"type":"EntityOrCommon","name":"T"}}}}"#,
        "common T",
    ),
    (
        r#"{"":{"entityTypes":{"T":{}}},"A":{"commonTypes":{"Z":{"type":"Entity","name":"T"}}}}"#,
        "entity T",
    ),
    (
        r#"{"":{"commonTypes":{"T":{"type":"Long"}}},"A":{"commonTypes":{"Z":{"type":"T"}}}}"#,
        "common T",
    ),
    // a longer path stands for itself
    (
        r#"{"A":{"entityTypes":{"B":{}}},"A::A":{"entityTypes":{"B":{}}},"C":{"commonTypes":{"Z":{"type":"Entity","name":"A::B"}}}}"#,
        "entity A::B",
    ),
    (
        r#"{"A":{"commonTypes":{"B":{"type":"Long"},"Z":{"type":"A::B"}}}}"#,
        "common A::B",
    ),
    // a type may stand for itself
    (r#"{"":{"commonTypes":{"Z":{"type":"Z"}}}}"#, "common Z"),
    // primitive and extension types
    (
        r#"{"":{"commonTypes":{"Z":{"type":"EntityOrCommon","name":"__cedar::Long"}}}}"#,
        "Long",
    ),
    (
        r#"{"A":{"commonTypes":{"Z":{"type":"EntityOrCommon","name":"Long"}}}}"#,
        "Long",
    ),
    (
        r#"{"":{"commonTypes":{"Z":{"type":"EntityOrCommon","name":"Bool"}}}}"#,
        "Boolean",
    ),
    (
        r#"{"":{"commonTypes":{"Z":{"type":"EntityOrCommon","name":"__cedar::Boolean"}}}}"#,
        "Boolean",
    ),
    (
        r#"{"":{"commonTypes":{"Z":{"type":"EntityOrCommon","name":"String"}}}}"#,
        "String",
    ),
    (
        r#"{"":{"commonTypes":{"Z":{"type":"EntityOrCommon","name":"__cedar::ipaddr"}}}}"#,
        "ipaddr",
    ),
    (
        r#"{"":{"commonTypes":{"Z":{"type":"EntityOrCommon","name":"decimal"}}}}"#,
        "decimal",
    ),
    // what is declared comes before them
    (
        r#"{"":{"commonTypes":{"ipaddr":{"type":"Long"},"Z":{"type":"EntityOrCommon","name":"ipaddr"}}}}"#,
        "common ipaddr",
    ),
    (
        r#"{"":{"entityTypes":{"Long":{}}},"A":{"commonTypes":{"Z":{"type":"EntityOrCommon","name":"Long"}}}}"#,
        "entity Long",
    ),
    (
        r#"{"":{"commonTypes":{"Z":{"type":"EntityOrCommon","name":"__cedar::Long"}},"entityTypes":{"Long":{}}}}"#,
        "Long",
    ),
    (
        r#"{"":{"commonTypes":{"ipaddr":{"type":"Long"},"Z":{"type":"Extension","name":"ipaddr"}}}}"#,
        "ipaddr",
    ),
    (
        r#"{"":{"commonTypes":{"Z":{"type":"Set","element":{"type":"Boolean"}}}}}"#,
        "Set",
    ),
];

#[test]
fn what_names_stand_for(rt: HostRuntime) {
    for &(text, word) in TYPES {
        assert!(rt; stands_for(rt.alloc(), text, word), "{text}");
    }
}

/// A file with an action in others, some by a type and some without one.
const GROUPS: &str = r#"{
    "": {
        "actions": {"all": {}}
    },
    "Shop": {
        "actions": {
            "all": {},
            "view": {
                "memberOf": [
                    {"id": "all"},
                    {"id": "all", "type": "Action"},
                    {"id": "read", "type": "Kept::Action"}
                ],
                "appliesTo": {"principalTypes": ["User", "Team"], "resourceTypes": ["Shop::User"]}
            }
        },
        "entityTypes": {"Team": {}, "User": {"memberOfTypes": ["Team"]}}
    },
    "Kept": {
        "actions": {"read": {"memberOf": [{"id": "all", "type": "Action"}]}}
    }
}"#;

/// What each namespace of that file declares.
const TOLD: &[&str] = &[
    r#": Action::"all"; "#,
    r#"Kept: Kept::Action::"read" in Action::"all"; "#,
    r#"Shop: Shop::Action::"all"; Shop::Action::"view" in Shop::Action::"all" in Shop::Action::"all" in Kept::Action::"read" for Shop::User for Shop::Team on Shop::User; Team Shop::Team; User Shop::User in Shop::Team; "#,
];

/// Writes each uid behind a word.
fn put_uids(told: &mut String, word: &str, uids: &[Uid]) -> Result<(), AllocError> {
    for uid in uids {
        told.push_str(word)?;
        put_uid(told, uid)?;
    }
    Ok(())
}

/// Writes each name behind a word.
fn put_names(told: &mut String, word: &str, names: &[Name]) -> Result<(), AllocError> {
    for name in names {
        told.push_str(word)?;
        told.push_str(name.as_str())?;
    }
    Ok(())
}

fn put_action(told: &mut String, action: &ResolvedAction) -> Result<(), AllocError> {
    put_uid(told, &action.uid)?;
    put_uids(told, " in ", action.parents.as_slice())?;
    put_names(told, " for ", action.principals.as_slice())?;
    put_names(told, " on ", action.resources.as_slice())?;
    told.push_str("; ")
}

fn put_entity_type(told: &mut String, declared: &ResolvedEntityType) -> Result<(), AllocError> {
    told.push_str(declared.key.as_str())?;
    told.push_str(" ")?;
    told.push_str(declared.name.as_str())?;
    put_names(told, " in ", declared.parents.as_slice())?;
    told.push_str("; ")
}

/// Writes what a namespace declares: its actions, then its entity types.
fn put_namespace(told: &mut String, namespace: &ResolvedNamespace) -> Result<(), AllocError> {
    told.push_str(namespace.name.as_str())?;
    told.push_str(": ")?;
    for action in namespace.actions.as_slice() {
        put_action(told, action)?;
    }
    for declared in namespace.entity_types.as_slice() {
        put_entity_type(told, declared)?;
    }
    Ok(())
}

fn text_of(alloc: Global, namespace: &ResolvedNamespace) -> Result<String, AllocError> {
    let mut told = String::new(alloc);
    put_namespace(&mut told, namespace)?;
    Ok(told)
}

/// Whether the namespace at a place of a schema declares this.
fn declares(alloc: Global, schema: &ResolvedSchema, place: usize, told: &str) -> bool {
    match schema.namespaces.get(place) {
        Some(namespace) => is_text(text_of(alloc, namespace), told),
        None => false,
    }
}

fn groups_declare(alloc: Global, place: usize, told: &str) -> bool {
    match declared(alloc, GROUPS) {
        Some(schema) => declares(alloc, &schema, place, told),
        None => false,
    }
}

#[test]
fn names_in_full(rt: HostRuntime) {
    for (place, told) in TOLD.iter().enumerate() {
        assert!(rt; groups_declare(rt.alloc(), place, told), "{told}");
    }
}
