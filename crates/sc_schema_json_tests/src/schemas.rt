//! What schema files spell: each schema is told in lines, entity types first, then actions, then
//! environments.
use crate::faults::is_text;
use sc_lists::Text;
use sc_names::{Name, Uid, put_uid};
use sc_schema::{
    Attributes, EntityKind, Env, Presence, Schema, Ty, action_ancestors, actions, ancestor_types,
    attrs_of, choices_of, context_of, entity_types, environments, tags_of,
};
use sc_schema_json::{read_schema, spelling_laws};
use std::alloc::{AllocError, Global};

/// Writes a type.
#[cycle(telling)]
fn put_type(told: &mut String, ty: &Ty) -> Result<(), AllocError> {
    match ty {
        Ty::True => told.push_str("True"),
        Ty::False => told.push_str("False"),
        Ty::Bool => told.push_str("Bool"),
        Ty::Long => told.push_str("Long"),
        Ty::String => told.push_str("String"),
        Ty::Decimal => told.push_str("Decimal"),
        Ty::Ip => told.push_str("Ip"),
        Ty::Entity(kind) => put_kind(told, kind),
        Ty::Set(member) => {
            told.push_str("set of ")?;
            put_type(told, member.get())
        }
        Ty::Record(fields) => put_fields(told, fields),
    }
}

/// Writes a type of entities, with its choices if it is enumerated.
fn put_kind(told: &mut String, kind: &EntityKind) -> Result<(), AllocError> {
    told.push_str(kind.name.as_str())?;
    put_choices(told, kind.choices.as_slice())
}

fn put_choices(told: &mut String, ids: &[Text]) -> Result<(), AllocError> {
    for id in ids {
        told.push_str("|")?;
        told.push_str(id.as_str())?;
    }
    Ok(())
}

/// Writes the fields of a record, with a `?` behind the name of one that may be absent.
#[cycle(telling)]
fn put_fields(told: &mut String, fields: &Attributes) -> Result<(), AllocError> {
    told.push_str("{ ")?;
    for field in fields.as_slice() {
        told.push_str(field.0.as_str())?;
        told.push_str(mark_of(field.1))?;
        put_type(told, &field.2)?;
        told.push_str("; ")?;
    }
    told.push_str("}")
}

fn mark_of(presence: Presence) -> &'static str {
    match presence {
        Presence::Required => ": ",
        Presence::Optional => "?: ",
    }
}

/// Writes a type behind a word, if there is one.
fn put_part(told: &mut String, word: &str, ty: Option<&Ty>) -> Result<(), AllocError> {
    match ty {
        Some(ty) => {
            told.push_str(word)?;
            put_type(told, ty)
        }
        None => Ok(()),
    }
}

/// Writes the names of what stands above an entity type.
fn put_names(told: &mut String, names: Option<&[Name]>) -> Result<(), AllocError> {
    if let Some(names) = names {
        for name in names {
            told.push_str(" in ")?;
            told.push_str(name.as_str())?;
        }
    }
    Ok(())
}

fn put_entity_type(told: &mut String, schema: &Schema, name: &Name) -> Result<(), AllocError> {
    told.push_str(name.as_str())?;
    put_names(told, ancestor_types(schema, name))?;
    put_part(told, " ", attrs_of(schema, name))?;
    put_part(told, " tags ", tags_of(schema, name))?;
    if let Some(ids) = choices_of(schema, name) {
        told.push_str(" ")?;
        put_choices(told, ids)?;
    }
    told.push_str("\n")
}

/// Writes the uids of what stands above an action.
fn put_uids(told: &mut String, uids: Option<&[Uid]>) -> Result<(), AllocError> {
    if let Some(uids) = uids {
        for uid in uids {
            told.push_str(" in ")?;
            put_uid(told, uid)?;
        }
    }
    Ok(())
}

fn put_action(told: &mut String, schema: &Schema, uid: &Uid) -> Result<(), AllocError> {
    put_uid(told, uid)?;
    put_uids(told, action_ancestors(schema, uid))?;
    put_part(told, " ", context_of(schema, uid))?;
    told.push_str("\n")
}

fn put_environment(told: &mut String, env: &Env) -> Result<(), AllocError> {
    told.push_str(env.principal.as_str())?;
    told.push_str(" ")?;
    put_uid(told, &env.action)?;
    told.push_str(" ")?;
    told.push_str(env.resource.as_str())?;
    told.push_str("\n")
}

/// What a schema has.
fn lines_of(alloc: Global, schema: &Schema) -> Result<String, AllocError> {
    let mut told = String::new(alloc);
    for name in entity_types(schema) {
        put_entity_type(&mut told, schema, name)?;
    }
    for uid in actions(schema) {
        put_action(&mut told, schema, uid)?;
    }
    for env in environments(schema) {
        put_environment(&mut told, env)?;
    }
    Ok(told)
}

/// Whether the schema of a file has this.
fn spells(alloc: Global, text: &str, told: &str) -> bool {
    match read_schema(alloc, text.as_bytes()) {
        Ok(schema) => is_text(lines_of(alloc, &schema), told),
        Err(_) => false,
    }
}

/// Files with what their schemas have.
const SCHEMAS: &[(&str, &str)] = &[
    ("{}", ""),
    (r#"{"":{}}"#, ""),
    (
        r#"{"N":{"entityTypes":{},"actions":{},"commonTypes":{}}}"#,
        "",
    ),
    (
        r#"{"": {
            "entityTypes": {"User": {}, "Doc": {}},
            "actions": {"view": {"appliesTo": {
                "principalTypes": ["User"],
                "resourceTypes": ["Doc"],
                "context": {"type": "Record", "attributes": {"mfa": {"type": "Boolean"}}}
            }}}
        }}"#,
        r#"Doc { }
User { }
Action::"view" { mfa: Bool; }
User Action::"view" Doc
"#,
    ),
    // each type, fields by their names
    (
        r#"{"": {"entityTypes": {"U": {"shape": {"type": "Record", "attributes": {
            "s": {"type": "String"},
            "l": {"type": "Long", "required": true},
            "b": {"type": "Boolean", "required": false},
            "i": {"type": "Extension", "name": "ipaddr"},
            "d": {"type": "Extension", "name": "decimal"},
            "e": {"type": "Entity", "name": "U"},
            "t": {"type": "Set", "element": {"type": "Set", "element": {"type": "Long"}}},
            "r": {"type": "Record", "attributes": {"x": {"type": "Long"}}, "additionalAttributes": false},
            "": {"type": "EntityOrCommon", "name": "U", "required": false}
        }}}}}}"#,
        "U { ?: U; b?: Bool; d: Decimal; e: U; i: Ip; l: Long; r: { x: Long; }; s: String; t: set of set of Long; }\n",
    ),
    // tags, which may be of any type
    (
        r#"{"": {"entityTypes": {
            "U": {"tags": {"type": "Set", "element": {"type": "String"}}},
            "V": {"tags": {"type": "Record", "attributes": {}}, "shape": {"type": "Record", "attributes": {}}}
        }}}"#,
        "U { } tags set of String\nV { } tags { }\n",
    ),
    // what stands above an entity type, which may be above itself
    (
        r#"{"": {"entityTypes": {
            "A": {"memberOfTypes": ["B", "B"]},
            "B": {"memberOfTypes": ["C"]},
            "C": {},
            "D": {"memberOfTypes": ["D"]},
            "E": {"memberOfTypes": ["F"]},
            "F": {"memberOfTypes": ["E", "A"]}
        }}}"#,
        r#"A in B in C { }
B in C { }
C { }
D in D { }
E in A in B in C in E in F { }
F in A in B in C in E in F { }
"#,
    ),
    // what stands above an action
    (
        r#"{"": {"actions": {
            "all": {},
            "read": {"memberOf": [{"id": "all"}]},
            "view": {"memberOf": [{"id": "read"}, {"id": "read", "type": "Action"}]}
        }}}"#,
        r#"Action::"all" { }
Action::"read" in Action::"all" { }
Action::"view" in Action::"all" in Action::"read" { }
"#,
    ),
    // actions in others of other namespaces
    (
        r#"{
            "": {"actions": {"all": {}, "one": {}}},
            "Shop": {"actions": {
                "all": {"memberOf": [{"id": "all", "type": "Kept::Action"}]},
                "buy": {"memberOf": [{"id": "all"}]}
            }},
            "Kept": {"actions": {
                "all": {"memberOf": [{"id": "own", "type": "Action"}, {"id": "one", "type": "Action"}]},
                "own": {}
            }}
        }"#,
        r#"Action::"all" { }
Action::"one" { }
Kept::Action::"all" in Action::"one" in Kept::Action::"own" { }
Kept::Action::"own" { }
Shop::Action::"all" in Action::"one" in Kept::Action::"all" in Kept::Action::"own" { }
Shop::Action::"buy" in Action::"one" in Kept::Action::"all" in Kept::Action::"own" in Shop::Action::"all" { }
"#,
    ),
    // a name in its own namespace before the empty one
    (
        r#"{
            "": {"entityTypes": {"U": {}, "V": {}}},
            "N": {"entityTypes": {"U": {"memberOfTypes": ["U", "V", "N::W"]}, "W": {}}}
        }"#,
        r#"N::U in N::U in N::W in V { }
N::W { }
U { }
V { }
"#,
    ),
    // any type: a common type of the namespace, an entity type of it, the same of the empty one
    (
        r#"{
            "": {"commonTypes": {"A": {"type": "Long"}, "B": {"type": "Long"}, "C": {"type": "Long"}}, "entityTypes": {"C": {}, "D": {}}},
            "N": {"commonTypes": {"A": {"type": "String"}}, "entityTypes": {"A": {}, "B": {"shape": {"type": "Record", "attributes": {
                "a": {"type": "EntityOrCommon", "name": "A"},
                "b": {"type": "EntityOrCommon", "name": "B"},
                "c": {"type": "EntityOrCommon", "name": "C"},
                "d": {"type": "EntityOrCommon", "name": "D"},
                "e": {"type": "EntityOrCommon", "name": "N::A"},
                "f": {"type": "A"},
                "g": {"type": "B"},
                "h": {"type": "Entity", "name": "A"}
            }}}}}
        }"#,
        r#"C { }
D { }
N::A { }
N::B { a: String; b: N::B; c: Long; d: D; e: String; f: String; g: Long; h: N::A; }
"#,
    ),
    // any type: a primitive or extension type last, and always after `__cedar::`
    (
        r#"{
            "": {"entityTypes": {"Long": {}}},
            "N": {"commonTypes": {"ipaddr": {"type": "Boolean"}}, "entityTypes": {"U": {"shape": {"type": "Record", "attributes": {
                "a": {"type": "EntityOrCommon", "name": "Long"},
                "b": {"type": "EntityOrCommon", "name": "__cedar::Long"},
                "c": {"type": "EntityOrCommon", "name": "ipaddr"},
                "d": {"type": "EntityOrCommon", "name": "__cedar::ipaddr"},
                "e": {"type": "EntityOrCommon", "name": "decimal"},
                "f": {"type": "EntityOrCommon", "name": "Bool"},
                "g": {"type": "EntityOrCommon", "name": "Boolean"},
                "h": {"type": "EntityOrCommon", "name": "__cedar::String"},
                "i": {"type": "Extension", "name": "ipaddr"}
            }}}}}
        }"#,
        r#"Long { }
N::U { a: Long; b: Long; c: Bool; d: Ip; e: Decimal; f: Bool; g: Bool; h: String; i: Ip; }
"#,
    ),
    // common types written out, whichever is declared first
    (
        r#"{"": {
            "commonTypes": {
                "A": {"type": "Set", "element": {"type": "B"}},
                "B": {"type": "Record", "attributes": {"c": {"type": "C", "required": false}, "d": {"type": "EntityOrCommon", "name": "C"}}},
                "C": {"type": "EntityOrCommon", "name": "U"}
            },
            "entityTypes": {"U": {"shape": {"type": "B"}, "tags": {"type": "A"}}},
            "actions": {"a": {"appliesTo": {"context": {"type": "EntityOrCommon", "name": "B"}}}}
        }}"#,
        r#"U { c?: U; d: U; } tags set of { c?: U; d: U; }
Action::"a" { c?: U; d: U; }
"#,
    ),
    // the body of a common type means what it means in its own namespace
    (
        r#"{
            "M": {"commonTypes": {"T": {"type": "Record", "attributes": {"u": {"type": "Entity", "name": "U"}}}}, "entityTypes": {"U": {}}},
            "N": {"entityTypes": {"U": {"shape": {"type": "M::T"}}}}
        }"#,
        "M::U { }\nN::U { u: M::U; }\n",
    ),
    // environments by action, then principal, then resource, each once
    (
        r#"{
            "": {"entityTypes": {"U": {}, "V": {}}, "actions": {
                "b": {"appliesTo": {"principalTypes": ["V", "U", "V"], "resourceTypes": ["V", "U"]}},
                "a": {"appliesTo": {"principalTypes": ["N::W"], "resourceTypes": ["U", "U"]}}
            }},
            "N": {"entityTypes": {"W": {}}, "actions": {"c": {"appliesTo": {"principalTypes": ["W", "U"], "resourceTypes": ["W"]}}}}
        }"#,
        r#"N::W { }
U { }
V { }
Action::"a" { }
Action::"b" { }
N::Action::"c" { }
N::W Action::"a" U
U Action::"b" U
U Action::"b" V
V Action::"b" U
V Action::"b" V
N::W N::Action::"c" N::W
U N::Action::"c" N::W
"#,
    ),
    // an action without principals or without resources has no environment
    (
        r#"{"": {"entityTypes": {"U": {}}, "actions": {
            "a": {"appliesTo": {"principalTypes": ["U"]}},
            "b": {"appliesTo": {"principalTypes": [], "resourceTypes": ["U"]}},
            "c": {"appliesTo": {}},
            "d": {"attributes": {}, "memberOf": []}
        }}}"#,
        r#"U { }
Action::"a" { }
Action::"b" { }
Action::"c" { }
Action::"d" { }
"#,
    ),
    // an action's id is any text, its order that of the bytes
    (
        r#"{"": {"actions": {"\u00e9": {}, "": {}, "a/b~c": {"memberOf": [{"id": ""}]}, "\"": {}, "Z": {}, "if": {}}}}"#,
        "Action::\"\" { }\nAction::\"\\\"\" { }\nAction::\"Z\" { }\nAction::\"a/b~c\" in Action::\"\" { }\nAction::\"if\" { }\nAction::\"é\" { }\n",
    ),
    // namespaces of several parts
    (
        r#"{"A::B": {"entityTypes": {"U": {"memberOfTypes": ["U", "A::B::V"]}, "V": {}}}, "A": {"entityTypes": {"V": {}}}}"#,
        "A::B::U in A::B::U in A::B::V { }\nA::B::V { }\nA::V { }\n",
    ),
    // a common type and an entity type of one name, and names that words of types have
    (
        r#"{"": {"entityTypes": {"T": {"memberOfTypes": ["T"], "shape": {"type": "T"}}, "Set": {}, "Bool": {}},
            "commonTypes": {"T": {"type": "Record", "attributes": {"t": {"type": "Entity", "name": "T"}, "s": {"type": "Entity", "name": "Set"}}}, "Action": {"type": "Long"}}}}"#,
        "Bool { }\nSet { }\nT in T { s: Set; t: T; }\n",
    ),
    // annotations stand anywhere, and are names like others where names stand
    (
        r#"{"": {"annotations": {"doc": "x"},
            "entityTypes": {"U": {"annotations": 1, "shape": {"annotations": null, "type": "Record", "attributes": {"annotations": {"type": "Long", "annotations": {"a": [1, 2]}}}}}, "annotations": {}},
            "actions": {"a": {"annotations": {}, "memberOf": [{"id": "annotations", "annotations": true}], "appliesTo": {"annotations": "", "principalTypes": ["U"], "resourceTypes": ["annotations"]}}, "annotations": {}},
            "commonTypes": {"annotations": {"type": "Long"}}}}"#,
        r#"U { annotations: Long; }
annotations { }
Action::"a" in Action::"annotations" { }
Action::"annotations" { }
U Action::"a" annotations
"#,
    ),
    // of members with one name the last counts
    (
        r#"{"": 1, "": {"entityTypes": {"V": {}}, "entityTypes": {"U": {"shape": 1, "shape": {"type": "Long", "type": "Record", "attributes": {"a": {"type": "X"}, "a": {"type": "Long"}}}}}}}"#,
        "U { a: Long; }\n",
    ),
    (
        r#"{"": {"entityTypes": {"U": {"memberOfTypes": ["U"]}, "\u0055": {}}}}"#,
        "U { }\n",
    ),
    (
        r#"{"": {"actions": {"a": {"memberOf": [{"id": "a"}], "memberOf": [{"id": "a", "id": "b"}]}, "b": {}}}}"#,
        r#"Action::"a" in Action::"b" { }
Action::"b" { }
"#,
    ),
    // enumerated types, which stand where others do, and whose choices go with each type that names them
    (
        r#"{
            "": {
                "entityTypes": {
                    "Role": {"enum": ["reader", "admin"]},
                    "User": {"memberOfTypes": ["Role"], "shape": {"type": "Record", "attributes": {
                        "role": {"type": "Entity", "name": "Role"},
                        "all": {"type": "Set", "element": {"type": "Roles"}},
                        "other": {"type": "EntityOrCommon", "name": "N::Role"},
                        "self": {"type": "Entity", "name": "User"}
                    }}, "tags": {"type": "Roles"}}
                },
                "commonTypes": {"Roles": {"type": "EntityOrCommon", "name": "Role"}},
                "actions": {"a": {"appliesTo": {"principalTypes": ["Role"], "resourceTypes": ["User", "N::Role"],
                    "context": {"type": "Record", "attributes": {"role": {"type": "Roles"}}}}}}
            },
            "N": {"entityTypes": {"Role": {"annotations": {}, "enum": ["", "admin", "a|b"]}}}
        }"#,
        r#"N::Role { } ||admin|a|b
Role { } |reader|admin
User in Role { all: set of Role|reader|admin; other: N::Role||admin|a|b; role: Role|reader|admin; self: User; } tags Role|reader|admin
Action::"a" { role: Role|reader|admin; }
Role Action::"a" N::Role
Role Action::"a" User
"#,
    ),
    // white space, escapes and members in any order
    (
        " { \"\" :\t{ \"entityTypes\" : { \"\\u0055\" : { \"tags\" : { \"element\" : { \"name\" : \"U\" , \"type\" : \"Entity\" } , \"type\" : \"S\\u0065t\" } } }\r\n} } \n",
        "U { } tags set of U\n",
    ),
];

#[test]
fn what_files_spell(rt: HostRuntime) {
    spelling_laws();
    for &(text, told) in SCHEMAS {
        assert!(rt; spells(rt.alloc(), text, told), "{text}");
    }
}
