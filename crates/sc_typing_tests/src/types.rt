//! The types of bodies where a user views a document, and the first rules that they break.
use crate::answers::Answer::{self, Always, Breaks, Either};
use crate::answers::answer_for;
use crate::samples::at;
use sc_typing::{TypeFault, TypeRule};
use std::test::Fail;

/// Truth values.
const LOGIC: &[(&str, Answer)] = &[
    ("context.mfa", Either),
    ("1", Breaks(TypeRule::NotBoolean, 43)),
    ("false || true", Always(true)),
    ("true && false", Always(false)),
    ("true || 2", Always(true)),
    ("false && 2", Always(false)),
    ("!false", Always(true)),
    ("if true then context.mfa else 1", Either),
    (
        "if context.mfa then 1 else \"a\"",
        Breaks(TypeRule::NoJoin, 43),
    ),
    // operands are typed before their kinds are asked for
    ("1 && (1 + \"a\" < 2)", Breaks(TypeRule::NotLong, 53)),
];

/// Sets and records, of which those join that have the same required attributes.
const JOINED: &[(&str, Answer)] = &[
    ("[1].contains(2)", Either),
    ("[1].contains(\"a\")", Breaks(TypeRule::NoJoin, 46)),
    ("[].contains(1)", Breaks(TypeRule::EmptySet, 43)),
    ("{n: 1}.n < 2", Either),
    ("{n: 1}.m < 2", Breaks(TypeRule::NoAttribute, 49)),
    (
        "(if context.mfa then {n: true} else {n: true}).n",
        Always(true),
    ),
    ("(if context.mfa then {n: true} else {n: false}).n", Either),
    (
        "(if context.mfa then principal.box else principal.box) has n",
        Either,
    ),
    (
        "(if context.mfa then principal.box else {n: false}) has n",
        Breaks(TypeRule::NoJoin, 44),
    ),
];

/// Entities, and actions, of which the schema decides what they are in.
const ENTITIES: &[(&str, Answer)] = &[
    (
        "Shop::Action::\"buy\" in [Action::\"view\", Team::\"t\"]",
        Always(true),
    ),
    ("action in Shop::Action::\"buy\"", Always(false)),
    ("principal in Team::\"t\"", Either),
    ("principal in resource", Always(false)),
    ("principal is User", Always(true)),
    ("principal is Team in 1", Always(false)),
    ("1 in principal", Breaks(TypeRule::NotEntity, 43)),
    ("principal in 1", Breaks(TypeRule::NotEntityOrSet, 56)),
];

/// What is known of attributes and tags where they are read: what both sides of `&&` say, and what each
/// side of `||` does.
const KNOWN: &[(&str, Answer)] = &[
    ("principal.level.n", Breaks(TypeRule::NotObject, 52)),
    ("principal.nick == \"x\"", Breaks(TypeRule::MaybeAbsent, 52)),
    ("principal has nick && principal.nick == \"x\"", Either),
    ("resource.hasTag(\"k\")", Always(false)),
    (
        "resource.getTag(\"k\") == \"x\"",
        Breaks(TypeRule::NoTags, 51),
    ),
    (
        "principal.getTag(\"k\") == \"x\"",
        Breaks(TypeRule::TagMaybeAbsent, 52),
    ),
    (
        "principal.hasTag(\"k\") && principal.getTag(\"k\") == \"x\"",
        Either,
    ),
    (
        "principal has nick && principal.hasTag(\"k\") && principal.nick == principal.getTag(\"k\")",
        Either,
    ),
    (
        "(principal has nick && principal.hasTag(\"k\") || principal.hasTag(\"k\")) && principal.getTag(\"k\") == \"x\"",
        Either,
    ),
    (
        "(principal has nick && principal.hasTag(\"k\") || principal.hasTag(\"k\")) && principal.nick == \"x\"",
        Breaks(TypeRule::MaybeAbsent, 126),
    ),
    (
        "principal.hasTag(if principal has nick then \"a\" else \"b\") && principal.getTag(if principal has nick then \"a\" else \"b\") == \"x\"",
        Either,
    ),
];

/// Operands of other kinds.
const OPERANDS: &[(&str, Answer)] = &[
    ("1 like \"a\"", Breaks(TypeRule::NotString, 43)),
    ("1.contains(2)", Breaks(TypeRule::NotSet, 43)),
    (
        "decimal(\"x\") == decimal(\"1.0\")",
        Breaks(TypeRule::BadLiteral, 43),
    ),
    (
        "decimal(\"1.0\").lessThan(1)",
        Breaks(TypeRule::NotDecimal, 67),
    ),
    ("ip(\"::1\").isInRange(1)", Breaks(TypeRule::NotIp, 63)),
];

#[test]
fn truth_values(rt: HostRuntime) {
    for &(body, expected) in LOGIC {
        assert!(rt; answer_for(rt.alloc(), body) == Some(expected), "{body}");
    }
}

#[test]
fn sets_and_records(rt: HostRuntime) {
    for &(body, expected) in JOINED {
        assert!(rt; answer_for(rt.alloc(), body) == Some(expected), "{body}");
    }
}

#[test]
fn entities_and_actions(rt: HostRuntime) {
    for &(body, expected) in ENTITIES {
        assert!(rt; answer_for(rt.alloc(), body) == Some(expected), "{body}");
    }
}

#[test]
fn what_is_known(rt: HostRuntime) {
    for &(body, expected) in KNOWN {
        assert!(rt; answer_for(rt.alloc(), body) == Some(expected), "{body}");
    }
}

#[test]
fn operands(rt: HostRuntime) {
    for &(body, expected) in OPERANDS {
        assert!(rt; answer_for(rt.alloc(), body) == Some(expected), "{body}");
    }
}

#[test]
fn fault_as_text(rt: HostRuntime) -> Result<(), Fail> {
    let fault = TypeFault {
        rule: TypeRule::NotLong,
        at: at(5),
    };
    assert!(rt; format!(in rt.alloc(); "{fault}")?.as_str() == "ill-typed: NotLong at 5");
    Ok(())
}
