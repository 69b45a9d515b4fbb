//! Literals of enumerated types: the first that is no choice, and the types of those that are.
use crate::answers::Answer::{self, Always, Breaks, Either};
use crate::answers::{Skipped, answer_of};
use crate::samples::{at, policies, sample, schema_of};
use sc_ast::PolicySet;
use sc_schema::{Schema, environments};
use sc_typing::{NameFault, NameKind, TypeRule, check_names};
use std::alloc::Global;

/// The users `a` and `b` view documents and colours, of which there is one; a document has a colour and an owner.
const SCHEMA: &str =
    r#"{"":{"entityTypes":{"Colour":{"enum":["red"]},"Doc":{"shape":{"type":"Record","attributes":{"colour":{"type":"Entity","name":"Colour"},"owner":{"type":"Entity","name":"User"}}}},"User":{"enum":["a","b"]}},"actions":{"view":{"appliesTo":{"principalTypes":["User"],"resourceTypes":["Doc"],"context":{"type":"Record","attributes":{"mfa":{"type":"Boolean"}}}}}}}}"#;

/// Files, and of their first undeclared name the kind, the policy and the byte at which it stands.
const UNDECLARED: &[(&str, NameKind, usize, u64)] = &[
    (
        "permit(principal, action, resource) when { principal == User::\"c\" };",
        NameKind::UnknownChoice,
        0,
        56,
    ),
    (
        "permit(principal, action, resource) when { principal == User::\"\" };",
        NameKind::UnknownChoice,
        0,
        56,
    ),
    // in scopes, in sets, behind `in`, and where nothing is evaluated
    (
        "permit(principal == User::\"c\", action, resource);",
        NameKind::UnknownChoice,
        0,
        20,
    ),
    (
        "permit(principal, action, resource) when { [User::\"a\", User::\"c\"].contains(principal) };",
        NameKind::UnknownChoice,
        0,
        55,
    ),
    (
        "permit(principal, action, resource) when { principal is User in User::\"c\" };",
        NameKind::UnknownChoice,
        0,
        64,
    ),
    (
        "permit(principal, action, resource) when { false && principal == User::\"c\" };",
        NameKind::UnknownChoice,
        0,
        65,
    ),
    // before other faults, and behind them
    (
        "permit(principal == User::\"c\", action == Action::\"edit\", resource);",
        NameKind::UnknownChoice,
        0,
        20,
    ),
    (
        "permit(principal, action == Action::\"edit\", resource) when { principal == User::\"c\" };",
        NameKind::UnknownAction,
        0,
        28,
    ),
    (
        "permit(principal, action, resource) when { [User::\"c\", Robot::\"r\"].contains(principal) };",
        NameKind::UnknownChoice,
        0,
        44,
    ),
    (
        "permit(principal, action, resource) when { [Robot::\"r\", User::\"c\"].contains(principal) };",
        NameKind::UnknownEntityType,
        0,
        44,
    ),
    (
        "permit(principal == User::\"a\", action, resource);
permit(principal == User::\"c\", action, resource);",
        NameKind::UnknownChoice,
        1,
        70,
    ),
];

/// Choices, and entities of types that aren't enumerated.
const DECLARED: &str =
    "permit(principal == User::\"a\", action == Action::\"view\", resource == Doc::\"x\") when { [User::\"b\"].contains(resource.owner) && resource.colour == Colour::\"red\" };";

/// The types of bodies where a user views a document, and the rules that they break.
const TYPES: &[(&str, Answer)] = &[
    ("principal == User::\"b\"", Either),
    ("resource.owner == principal", Either),
    ("User::\"a\" == User::\"a\"", Always(true)),
    ("User::\"a\" == User::\"b\"", Always(false)),
    ("[principal, User::\"a\"].contains(resource.owner)", Either),
    (
        "(if context.mfa then principal else User::\"a\") == resource.owner",
        Either,
    ),
    // entities of two types are never equal, and don't join
    ("principal == resource.colour", Always(false)),
    ("principal == resource", Always(false)),
    (
        "[principal, Colour::\"red\"].contains(principal)",
        Breaks(TypeRule::NoJoin, 43),
    ),
    // what is enumerated has no attributes
    ("principal has name", Always(false)),
    ("principal.name", Breaks(TypeRule::NoAttribute, 52)),
    ("principal in User::\"a\"", Either),
    ("principal in Colour::\"red\"", Always(false)),
];

fn is_told_of(alloc: Global, policies: &PolicySet, told: Option<NameFault>) -> bool {
    match schema_of(alloc, SCHEMA) {
        Ok(schema) => check_names(&schema, policies).err() == told,
        Err(_) => false,
    }
}

/// Whether this is the first undeclared name of the policies of a file, or all are declared where none
/// is told.
fn is_told(alloc: Global, file: &str, told: Option<NameFault>) -> bool {
    match policies(alloc, file) {
        Ok(policies) => is_told_of(alloc, &policies, told),
        Err(_) => false,
    }
}

#[test]
fn what_is_no_choice(rt: HostRuntime) {
    for &(file, kind, policy, offset) in UNDECLARED {
        let place = at(offset);
        let told = NameFault {
            kind,
            policy,
            place,
        };
        assert!(rt; is_told(rt.alloc(), file, Some(told)), "{file}");
    }
}

#[test]
fn choices_that_are_declared(rt: HostRuntime) {
    assert!(rt; is_told(rt.alloc(), DECLARED, None));
}

fn first_answer(alloc: Global, schema: &Schema, policies: &PolicySet) -> Option<(Answer, Skipped)> {
    let env = environments(schema).get(0)?;
    let policy = policies.get(0)?;
    answer_of(alloc, schema, env, policy)
}

fn typed_under(alloc: Global, schema: &Schema, body: &str) -> Option<(Answer, Skipped)> {
    match sample(alloc, body) {
        Ok(policies) => first_answer(alloc, schema, &policies),
        Err(_) => None,
    }
}

/// Whether this is what typing answers of a policy with this body.
fn is_answered(alloc: Global, body: &str, answer: Answer) -> bool {
    let typed = match schema_of(alloc, SCHEMA) {
        Ok(schema) => typed_under(alloc, &schema, body),
        Err(_) => None,
    };
    match typed {
        Some((found, _)) => found == answer,
        None => false,
    }
}

#[test]
fn types_of_choices(rt: HostRuntime) {
    for &(body, answer) in TYPES {
        assert!(rt; is_answered(rt.alloc(), body, answer), "{body}");
    }
}
