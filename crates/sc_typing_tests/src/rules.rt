//! Rules of typing by the texts of bodies where a user views a document: what each body may be or which
//! rule it breaks at which byte, and what of it is skipped.
use crate::answers::Answer::{self, Always, Breaks, Either};
use crate::answers::Skipped::{self, Names, Nothing, Operand};
use crate::answers::{answer_for, typed};
use sc_typing::TypeRule;
use std::alloc::Global;

/// A body, what typing answers, and what is skipped.
type Row = (&'static str, Answer, Skipped);

/// Truth values of which one side decides.
const BRANCHES: &[Row] = &[
    ("context.mfa || false", Either, Nothing),
    ("context.mfa || true", Always(true), Nothing),
    (
        "(principal has nick || false) && principal.nick == \"x\"",
        Either,
        Nothing,
    ),
    ("true || 1", Always(true), Operand(51)),
    ("false && 1", Always(false), Operand(52)),
    ("if false then 1 else context.mfa", Either, Operand(57)),
    (
        "if false then 1 == \"a\" else true",
        Always(true),
        Operand(59),
    ),
    ("if true then context.mfa else 1", Either, Operand(73)),
    (
        "if false then true else 1",
        Breaks(TypeRule::NotBoolean, 43),
        Nothing,
    ),
    (
        "if 1 then true else true",
        Breaks(TypeRule::NotBoolean, 46),
        Nothing,
    ),
];

/// `has`, of one name and of several.
const HAS: &[Row] = &[
    ("principal has level", Either, Nothing),
    ("context has mfa", Always(true), Nothing),
    ("{n: 1} has n", Always(true), Nothing),
    ("principal has zone", Always(false), Nothing),
    ("action has name", Always(false), Nothing),
    ("principal has box.n", Either, Nothing),
    ("principal has box.n && principal.box.n", Either, Nothing),
    ("principal has zone.n.m", Always(false), Names(2)),
    ("principal has box.zone.n", Always(false), Names(1)),
    ("principal has box.zone && 1", Always(false), Operand(69)),
    ("1 has a.b", Breaks(TypeRule::NotObject, 43), Nothing),
    (
        "principal has level.n",
        Breaks(TypeRule::NotObject, 53),
        Nothing,
    ),
    (
        "principal has nick.n",
        Breaks(TypeRule::NotObject, 53),
        Nothing,
    ),
];

/// Attributes, by a dot and by a bracket.
const ATTRIBUTES: &[Row] = &[
    (
        "principal[\"nick\"] == \"x\"",
        Breaks(TypeRule::MaybeAbsent, 52),
        Nothing,
    ),
    (
        "principal[\"zone\"] == \"x\"",
        Breaks(TypeRule::NoAttribute, 52),
        Nothing,
    ),
    (
        "principal.level[\"n\"]",
        Breaks(TypeRule::NotObject, 52),
        Nothing,
    ),
    (
        "principal[\"level\"].n",
        Breaks(TypeRule::NotObject, 52),
        Nothing,
    ),
    ("principal[\"level\"] < 2", Either, Nothing),
    (
        "principal has nick && principal[\"nick\"] == \"x\"",
        Either,
        Nothing,
    ),
];

/// Operands that are compared.
const COMPARED: &[Row] = &[
    ("principal == resource", Always(false), Nothing),
    ("principal == Team::\"t\"", Always(false), Nothing),
    ("principal == User::\"u\"", Either, Nothing),
    ("User::\"u\" == Team::\"u\"", Always(false), Nothing),
    ("1 == \"a\"", Always(false), Nothing),
    ("principal == 1", Breaks(TypeRule::NoJoin, 53), Nothing),
    (
        "principal.level == \"a\"",
        Breaks(TypeRule::NoJoin, 59),
        Nothing,
    ),
];

/// Whole numbers.
const NUMBERS: &[Row] = &[
    ("-principal.level < 1", Either, Nothing),
    ("-\"a\" < 1", Breaks(TypeRule::NotLong, 44), Nothing),
    ("-context.mfa < 1", Breaks(TypeRule::NotLong, 51), Nothing),
    ("2 * principal.level < 7", Either, Nothing),
    ("true * 2 < 7", Breaks(TypeRule::NotLong, 43), Nothing),
    ("2 * \"a\" < 7", Breaks(TypeRule::NotLong, 47), Nothing),
    ("2 < 3 * context", Breaks(TypeRule::NotLong, 51), Nothing),
];

/// Sets, and their methods.
const SETS: &[Row] = &[
    ("[1].containsAll([2])", Either, Nothing),
    ("1.containsAll([1])", Breaks(TypeRule::NotSet, 43), Nothing),
    ("[1].containsAll(2)", Breaks(TypeRule::NotSet, 59), Nothing),
    (
        "[1].containsAll([\"a\"])",
        Breaks(TypeRule::NoJoin, 46),
        Nothing,
    ),
    ("[1].containsAny([2])", Either, Nothing),
    ("1.containsAny([1])", Breaks(TypeRule::NotSet, 43), Nothing),
    ("[1].containsAny(2)", Breaks(TypeRule::NotSet, 59), Nothing),
    (
        "[1].containsAny([\"a\"])",
        Breaks(TypeRule::NoJoin, 46),
        Nothing,
    ),
    ("[1].isEmpty()", Either, Nothing),
    ("\"a\".isEmpty()", Breaks(TypeRule::NotSet, 43), Nothing),
    ("[].isEmpty()", Breaks(TypeRule::EmptySet, 43), Nothing),
    (
        "[1, \"a\"].isEmpty()",
        Breaks(TypeRule::NoJoin, 43),
        Nothing,
    ),
];

/// Decimal numbers.
const DECIMALS: &[Row] = &[
    (
        "decimal(\"1.0\").lessThan(decimal(\"2.0\"))",
        Either,
        Nothing,
    ),
    (
        "decimal(\"1.0\").lessThanOrEqual(decimal(\"2.0\"))",
        Either,
        Nothing,
    ),
    (
        "decimal(\"1.0\").greaterThan(decimal(\"2.0\"))",
        Either,
        Nothing,
    ),
    (
        "decimal(\"1.0\").greaterThanOrEqual(decimal(\"2.0\"))",
        Either,
        Nothing,
    ),
    (
        "1.lessThanOrEqual(decimal(\"1.0\"))",
        Breaks(TypeRule::NotDecimal, 43),
        Nothing,
    ),
    (
        "decimal(\"1.0\").greaterThan(1)",
        Breaks(TypeRule::NotDecimal, 70),
        Nothing,
    ),
    (
        "decimal(\"1.0\").greaterThanOrEqual(\"1.0\")",
        Breaks(TypeRule::NotDecimal, 77),
        Nothing,
    ),
];

/// Addresses.
const ADDRESSES: &[Row] = &[
    ("ip(\"::1\").isIpv4()", Either, Nothing),
    ("ip(\"::1\").isIpv6()", Either, Nothing),
    ("ip(\"::1\").isLoopback()", Either, Nothing),
    ("ip(\"::1\").isMulticast()", Either, Nothing),
    ("ip(\"::1\").isInRange(ip(\"::1/8\"))", Either, Nothing),
    ("1.isIpv4()", Breaks(TypeRule::NotIp, 43), Nothing),
    ("\"a\".isIpv6()", Breaks(TypeRule::NotIp, 43), Nothing),
    (
        "context.mfa.isLoopback()",
        Breaks(TypeRule::NotIp, 50),
        Nothing,
    ),
    (
        "decimal(\"1.0\").isMulticast()",
        Breaks(TypeRule::NotIp, 43),
        Nothing,
    ),
    (
        "\"::1\".isInRange(ip(\"::1\"))",
        Breaks(TypeRule::NotIp, 43),
        Nothing,
    ),
    (
        "ip(\"x\").isIpv4()",
        Breaks(TypeRule::BadLiteral, 43),
        Nothing,
    ),
    (
        "ip(principal.nick).isIpv4()",
        Breaks(TypeRule::MaybeAbsent, 55),
        Nothing,
    ),
];

/// Actions and entities among uids of several types.
const AMONG: &[Row] = &[
    (
        "action in [Team::\"t\", Action::\"view\"]",
        Always(true),
        Nothing,
    ),
    (
        "action in [Team::\"t\", User::\"u\"]",
        Always(false),
        Nothing,
    ),
    (
        "Action::\"view\" in [Shop::Action::\"buy\", Doc::\"d\"]",
        Always(false),
        Nothing,
    ),
    (
        "principal in [Team::\"t\", User::\"u\"]",
        Breaks(TypeRule::NoJoin, 56),
        Nothing,
    ),
    ("principal in [Team::\"t\", Team::\"u\"]", Either, Nothing),
    ("resource in [Team::\"t\"]", Always(false), Nothing),
    (
        "principal is Team in [Team::\"t\", User::\"u\"]",
        Always(false),
        Operand(64),
    ),
    ("principal is User in [Team::\"t\"]", Either, Nothing),
    (
        "principal is User in [Team::\"t\", User::\"u\"]",
        Breaks(TypeRule::NoJoin, 64),
        Nothing,
    ),
];

/// What is short for something longer, and that.
const SHORT: &[(&str, &str)] = &[
    (
        "principal has box.n",
        "principal has box && principal.box has n",
    ),
    (
        "principal has zone.n",
        "principal has zone && principal.zone has n",
    ),
    (
        "principal has box.zone.n",
        "principal has box && principal.box has zone && principal.box.zone has n",
    ),
    (
        "principal has level.n",
        "principal has level && principal.level has n",
    ),
    ("context has mfa.n", "context has mfa && context.mfa has n"),
    (
        "{n: {m: 1}} has n.m",
        "{n: {m: 1}} has n && {n: {m: 1}}.n has m",
    ),
    (
        "principal has box.n && principal.box.n",
        "(principal has box && principal.box has n) && principal.box.n",
    ),
    (
        "principal has nick.n || true",
        "principal has nick && principal.nick has n || true",
    ),
    (
        "principal is User in Team::\"t\"",
        "principal is User && principal in Team::\"t\"",
    ),
    (
        "principal is Team in 1",
        "principal is Team && principal in 1",
    ),
    (
        "principal is User in 1",
        "principal is User && principal in 1",
    ),
    ("1 is User in Team::\"t\"", "1 is User && 1 in Team::\"t\""),
    (
        "action is Action in [Action::\"view\", Team::\"t\"]",
        "action is Action && action in [Action::\"view\", Team::\"t\"]",
    ),
    (
        "action is Shop::Action in Action::\"view\"",
        "action is Shop::Action && action in Action::\"view\"",
    ),
    (
        "resource is Doc in resource",
        "resource is Doc && resource in resource",
    ),
    (
        "resource is Doc in principal",
        "resource is Doc && resource in principal",
    ),
];

/// The place of the first row of which typing answers anything else, counted from 0.
fn first_wrong(alloc: Global, rows: &[Row]) -> Option<usize> {
    for (place, &(body, answer, skipped)) in rows.iter().enumerate() {
        if typed(alloc, body) != Some((answer, skipped)) {
            return Some(place);
        }
    }
    None
}

#[test]
fn branches(rt: HostRuntime) {
    let wrong = first_wrong(rt.alloc(), BRANCHES);
    assert!(rt; wrong.is_none(), "{wrong:?}");
}

#[test]
fn has(rt: HostRuntime) {
    let wrong = first_wrong(rt.alloc(), HAS);
    assert!(rt; wrong.is_none(), "{wrong:?}");
}

#[test]
fn attributes(rt: HostRuntime) {
    let wrong = first_wrong(rt.alloc(), ATTRIBUTES);
    assert!(rt; wrong.is_none(), "{wrong:?}");
}

#[test]
fn comparisons(rt: HostRuntime) {
    let wrong = first_wrong(rt.alloc(), COMPARED);
    assert!(rt; wrong.is_none(), "{wrong:?}");
}

#[test]
fn numbers(rt: HostRuntime) {
    let wrong = first_wrong(rt.alloc(), NUMBERS);
    assert!(rt; wrong.is_none(), "{wrong:?}");
}

#[test]
fn sets(rt: HostRuntime) {
    let wrong = first_wrong(rt.alloc(), SETS);
    assert!(rt; wrong.is_none(), "{wrong:?}");
}

#[test]
fn decimals(rt: HostRuntime) {
    let wrong = first_wrong(rt.alloc(), DECIMALS);
    assert!(rt; wrong.is_none(), "{wrong:?}");
}

#[test]
fn addresses(rt: HostRuntime) {
    let wrong = first_wrong(rt.alloc(), ADDRESSES);
    assert!(rt; wrong.is_none(), "{wrong:?}");
}

#[test]
fn memberships(rt: HostRuntime) {
    let wrong = first_wrong(rt.alloc(), AMONG);
    assert!(rt; wrong.is_none(), "{wrong:?}");
}

/// Whether a body may be what another one may be, or breaks the same rule.
fn is_alike(a: Answer, b: Answer) -> bool {
    match a {
        Breaks(rule, _) => breaks(b, rule),
        _ => a == b,
    }
}

fn breaks(answer: Answer, rule: TypeRule) -> bool {
    match answer {
        Breaks(other, _) => rule == other,
        _ => false,
    }
}

/// Whether typing answers of a short body what it answers of the longer one.
fn is_short(alloc: Global, short: &str, long: &str) -> bool {
    match (answer_for(alloc, short), answer_for(alloc, long)) {
        (Some(first), Some(second)) => is_alike(first, second),
        _ => false,
    }
}

#[test]
fn short_forms(rt: HostRuntime) {
    for &(short, long) in SHORT {
        assert!(rt; is_short(rt.alloc(), short, long), "{short}");
    }
}
