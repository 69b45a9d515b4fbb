//! What is read from schemas of the entity types and the actions that they declare.
use crate::texts::is_text;
use sc_lists::Text;
use sc_names::{Name, Uid, put_uid};
use sc_schema::{
    Env, Schema, Ty, action_ancestors, actions, ancestor_types, attrs_of, choices_of, context_of,
    entity_types, environments, is_action_type, kind_of, lookup_laws, order_laws, tags_of,
};
use sc_schema_json::read_schema;
use std::alloc::{AllocError, Global};

/// A schema of three entity types and two actions, of which one is in the other.
const SAMPLE: &str = r#"{
    "": {
        "entityTypes": {
            "Doc": {},
            "Team": {"memberOfTypes": ["Team"]},
            "User": {
                "memberOfTypes": ["Team"],
                "shape": {"type": "Record", "attributes": {"level": {"type": "Long"}, "nick": {"type": "String", "required": false}}},
                "tags": {"type": "String"}
            }
        },
        "actions": {"view": {"appliesTo": {
            "principalTypes": ["Team", "User"],
            "resourceTypes": ["Doc", "Team"],
            "context": {"type": "Record", "attributes": {"mfa": {"type": "Boolean"}}}
        }}}
    },
    "Shop": {"actions": {"buy": {"memberOf": [{"id": "view", "type": "Action"}]}}}
}"#;

/// A schema in which types and actions stand above others through others.
const CHAINS: &str = r#"{"": {
    "entityTypes": {
        "D": {"memberOfTypes": ["D"]},
        "B": {"memberOfTypes": ["C"]},
        "A": {"memberOfTypes": ["B"]},
        "C": {}
    },
    "actions": {
        "x": {"memberOf": [{"id": "g"}], "appliesTo": {"principalTypes": ["B", "A", "B"], "resourceTypes": ["C"]}},
        "h": {},
        "g": {"memberOf": [{"id": "h"}]}
    }
}}"#;

/// The schema that a text spells, if it spells one.
fn schema(alloc: Global, text: &str) -> Option<Schema> {
    read_schema(alloc, text.as_bytes()).ok()
}

fn name(alloc: Global, text: &str) -> Result<Name, AllocError> {
    Ok(Name::from_text(Text::from_str(alloc, text)?))
}

fn uid(alloc: Global, type_name: &str, id: &str) -> Result<Uid, AllocError> {
    Ok(Uid {
        type_name: name(alloc, type_name)?,
        id: Text::from_str(alloc, id)?,
    })
}

/// Writes names, each with a space behind it.
fn put_names(told: &mut String, names: &[Name]) -> Result<(), AllocError> {
    for name in names {
        told.push_str(name.as_str())?;
        told.push_str(" ")?;
    }
    Ok(())
}

/// Writes uids, each with a space behind it.
fn put_uids(told: &mut String, uids: &[Uid]) -> Result<(), AllocError> {
    for uid in uids {
        put_uid(told, uid)?;
        told.push_str(" ")?;
    }
    Ok(())
}

/// Names, each with a space behind it, and `none` where there are none.
fn names_text(alloc: Global, names: Option<&[Name]>) -> Result<String, AllocError> {
    let mut told = String::new(alloc);
    match names {
        Some(names) => put_names(&mut told, names)?,
        None => told.push_str("none")?,
    }
    Ok(told)
}

/// Uids, each with a space behind it, and `none` where there are none.
fn uids_text(alloc: Global, uids: Option<&[Uid]>) -> Result<String, AllocError> {
    let mut told = String::new(alloc);
    match uids {
        Some(uids) => put_uids(&mut told, uids)?,
        None => told.push_str("none")?,
    }
    Ok(told)
}

fn put_environment(told: &mut String, env: &Env) -> Result<(), AllocError> {
    told.push_str(env.principal.as_str())?;
    told.push_str(" ")?;
    put_uid(told, &env.action)?;
    told.push_str(" ")?;
    told.push_str(env.resource.as_str())?;
    told.push_str("; ")
}

/// The environments of a schema.
fn environments_text(alloc: Global, schema: &Schema) -> Result<String, AllocError> {
    let mut told = String::new(alloc);
    for env in environments(schema) {
        put_environment(&mut told, env)?;
    }
    Ok(told)
}

/// Whether a schema has these environments.
fn has_environments(alloc: Global, text: &str, told: &str) -> bool {
    match schema(alloc, text) {
        Some(schema) => is_text(environments_text(alloc, &schema), told),
        None => false,
    }
}

/// Schemas, and their environments.
const ENVIRONMENTS: &[(&str, &str)] = &[
    (
        SAMPLE,
        r#"Team Action::"view" Doc; Team Action::"view" Team; User Action::"view" Doc; User Action::"view" Team; "#,
    ),
    // a type that is named twice counts once
    (CHAINS, r#"A Action::"x" C; B Action::"x" C; "#),
];

#[test]
fn environments_in_order(rt: HostRuntime) {
    for &(text, told) in ENVIRONMENTS {
        assert!(rt; has_environments(rt.alloc(), text, told), "{told}");
    }
}

/// Whether a schema declares these entity types.
fn has_types(alloc: Global, text: &str, names: &str) -> bool {
    match schema(alloc, text) {
        Some(schema) => is_text(names_text(alloc, Some(entity_types(&schema))), names),
        None => false,
    }
}

/// Whether a schema declares these actions.
fn has_actions(alloc: Global, text: &str, uids: &str) -> bool {
    match schema(alloc, text) {
        Some(schema) => is_text(uids_text(alloc, Some(actions(&schema))), uids),
        None => false,
    }
}

/// Schemas, and the entity types and the actions that they declare.
const DECLARED: &[(&str, &str, &str)] = &[
    (
        SAMPLE,
        "Doc Team User ",
        r#"Action::"view" Shop::Action::"buy" "#,
    ),
    (
        CHAINS,
        "A B C D ",
        r#"Action::"g" Action::"h" Action::"x" "#,
    ),
];

#[test]
fn declarations_stand_in_order(rt: HostRuntime) {
    for &(text, names, uids) in DECLARED {
        assert!(rt; has_types(rt.alloc(), text, names), "{names}");
        assert!(rt; has_actions(rt.alloc(), text, uids), "{uids}");
    }
}

/// How many entity types and actions a schema declares.
fn counts(alloc: Global, text: &str) -> Option<(usize, usize)> {
    let schema = schema(alloc, text)?;
    schema.laws();
    Some((schema.types().len(), schema.declared_actions().len()))
}

#[test]
fn all_are_declared(rt: HostRuntime) {
    lookup_laws();
    order_laws();
    assert!(rt; counts(rt.alloc(), SAMPLE) == Some((3, 2)));
    assert!(rt; counts(rt.alloc(), CHAINS) == Some((4, 3)));
}

fn is_under_name(alloc: Global, text: &str, name: &Name, above: &str) -> bool {
    match schema(alloc, text) {
        Some(schema) => is_text(names_text(alloc, ancestor_types(&schema, name)), above),
        None => false,
    }
}

/// Whether just these types stand above a type.
fn is_under(alloc: Global, text: &str, of: &str, above: &str) -> bool {
    match name(alloc, of) {
        Ok(name) => is_under_name(alloc, text, &name, above),
        Err(_) => false,
    }
}

/// Schemas, entity types, and the types that stand above these.
const UNDER: &[(&str, &str, &str)] = &[
    (SAMPLE, "Doc", ""),
    (SAMPLE, "Team", "Team "),
    (SAMPLE, "User", "Team "),
    (SAMPLE, "Action", ""),
    (SAMPLE, "Shop::Action", "Action "),
    (SAMPLE, "Page", "none"),
    (CHAINS, "A", "B C "),
    (CHAINS, "B", "C "),
    (CHAINS, "C", ""),
    (CHAINS, "D", "D "),
];

#[test]
fn types_above_types(rt: HostRuntime) {
    for &(text, of, above) in UNDER {
        assert!(rt; is_under(rt.alloc(), text, of, above), "{of}");
    }
}

/// A schema of two enumerated types and one that isn't.
const ROLES: &str = r#"{"": {
    "entityTypes": {
        "Level": {"enum": ["low", "high"]},
        "Role": {"enum": ["reader", "admin", ""]},
        "User": {"shape": {"type": "Record", "attributes": {"role": {"type": "Role"}}}}
    },
    "commonTypes": {"Role": {"type": "Entity", "name": "Role"}},
    "actions": {"view": {}}
}}"#;

/// Writes texts, each with a comma behind it, and `none` where there are none.
fn put_texts(told: &mut String, texts: Option<&[Text]>) -> Result<(), AllocError> {
    match texts {
        Some(texts) => put_each(told, texts),
        None => told.push_str("none"),
    }
}

fn put_each(told: &mut String, texts: &[Text]) -> Result<(), AllocError> {
    for text in texts {
        told.push_str(text.as_str())?;
        told.push_str(",")?;
    }
    Ok(())
}

/// The choices of a type as they are read, and as its kind has them.
fn choices_text(alloc: Global, schema: &Schema, name: &Name) -> Result<String, AllocError> {
    let mut told = String::new(alloc);
    put_texts(&mut told, choices_of(schema, name))?;
    let kind = kind_of(alloc, schema, name)?;
    told.push_str(" ")?;
    told.push_str(kind.name.as_str())?;
    told.push_str(" ")?;
    put_each(&mut told, kind.choices.as_slice())?;
    Ok(told)
}

fn has_choices_of_name(alloc: Global, text: &str, name: &Name, told: &str) -> bool {
    match schema(alloc, text) {
        Some(schema) => is_text(choices_text(alloc, &schema, name), told),
        None => false,
    }
}

/// Whether a type has these choices in a schema.
fn has_choices(alloc: Global, text: &str, of: &str, told: &str) -> bool {
    match name(alloc, of) {
        Ok(name) => has_choices_of_name(alloc, text, &name, told),
        Err(_) => false,
    }
}

/// Schemas, types, and the choices of these.
const CHOICES: &[(&str, &str, &str)] = &[
    (ROLES, "Level", "low,high, Level low,high,"),
    (ROLES, "Role", "reader,admin,, Role reader,admin,,"),
    (ROLES, "User", "none User "),
    (ROLES, "Action", "none Action "),
    (ROLES, "Page", "none Page "),
    (SAMPLE, "Doc", "none Doc "),
];

#[test]
fn choices_in_their_order(rt: HostRuntime) {
    for &(text, of, told) in CHOICES {
        assert!(rt; has_choices(rt.alloc(), text, of, told), "{of}");
    }
}

fn field_count(ty: Option<&Ty>) -> Option<usize> {
    match ty {
        Some(Ty::Record(fields)) => Some(fields.as_slice().len()),
        _ => None,
    }
}

/// What the sample declares of entities of a type: how many attributes they have, whether they have
/// tags, and whether they are actions.
type Declared = (Option<usize>, bool, bool);

fn declared_of_name(alloc: Global, name: &Name) -> Option<Declared> {
    let schema = schema(alloc, SAMPLE)?;
    let count = field_count(attrs_of(&schema, name));
    let has_tags = tags_of(&schema, name).is_some();
    Some((count, has_tags, is_action_type(&schema, name)))
}

fn declared_of(alloc: Global, of: &str) -> Option<Declared> {
    match name(alloc, of) {
        Ok(name) => declared_of_name(alloc, &name),
        Err(_) => None,
    }
}

/// Types, and what the sample declares of them.
const OF_TYPES: &[(&str, Declared)] = &[
    ("User", (Some(2), true, false)),
    ("Doc", (Some(0), false, false)),
    ("Shop::Action", (Some(0), false, true)),
    ("Page", (None, false, false)),
];

#[test]
fn attributes_and_tags(rt: HostRuntime) {
    for &(of, declared) in OF_TYPES {
        assert!(rt; declared_of(rt.alloc(), of) == Some(declared), "{of}");
    }
}

/// The actions that an action is in, each with a space behind it, and `none` where there is no such action.
fn groups_text(alloc: Global, schema: &Schema, action: &Uid) -> Result<String, AllocError> {
    uids_text(alloc, action_ancestors(schema, action))
}

/// Whether an action is in just these, and its context has so many attributes.
fn is_in(alloc: Global, text: &str, action: &Uid, (above, count): (&str, Option<usize>)) -> bool {
    match schema(alloc, text) {
        Some(schema) => {
            field_count(context_of(&schema, action)) == count
                && is_text(groups_text(alloc, &schema, action), above)
        }
        None => false,
    }
}

/// The same of the action of this type and this id.
fn is_action_in(
    alloc: Global,
    text: &str,
    (type_name, id): (&str, &str),
    declared: (&str, Option<usize>),
) -> bool {
    match uid(alloc, type_name, id) {
        Ok(action) => is_in(alloc, text, &action, declared),
        Err(_) => false,
    }
}

/// Schemas, the types and ids of actions, and what these are in, with the number of attributes of their
/// contexts.
const OF_ACTIONS: &[(&str, (&str, &str), (&str, Option<usize>))] = &[
    (SAMPLE, ("Action", "view"), ("", Some(1))),
    (
        SAMPLE,
        ("Shop::Action", "buy"),
        (r#"Action::"view" "#, Some(0)),
    ),
    (SAMPLE, ("Action", "buy"), ("none", None)),
    (
        CHAINS,
        ("Action", "x"),
        (r#"Action::"g" Action::"h" "#, Some(0)),
    ),
    (CHAINS, ("Action", "g"), (r#"Action::"h" "#, Some(0))),
    (CHAINS, ("Action", "h"), ("", Some(0))),
];

#[test]
fn actions_above_actions_and_contexts(rt: HostRuntime) {
    for &(text, of, declared) in OF_ACTIONS {
        assert!(rt; is_action_in(rt.alloc(), text, of, declared), "{}", of.1);
    }
}
