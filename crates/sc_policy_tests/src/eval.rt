//! What expressions give in the world of one request.
use self::Given::{Error, Truth};
use crate::samples::{first_body, policies_with, world};
use sc_ast::{Expr, PolicySet};
use sc_eval::{EvalError, evaluate};
use sc_lists::Fault;
use sc_values::Value;
use sc_world::World;
use std::alloc::Global;

/// A truth value, or the reason why there is no value.
#[derive(Clone, Copy, PartialEq, Eq)]
enum Given {
    Truth(bool),
    Error(EvalError),
}

fn is_value(value: &Value, given: Given) -> bool {
    match value {
        Value::Bool(truth) => given == Truth(*truth),
        _ => false,
    }
}

fn gives_in(alloc: Global, expr: &Expr, world: &World, given: Given) -> bool {
    match evaluate(alloc, expr, world) {
        Ok(value) => is_value(&value, given),
        Err(Fault::Told(error)) => given == Error(error),
        Err(Fault::NoMemory) => false,
    }
}

fn gives_in_world(alloc: Global, expr: &Expr, given: Given) -> bool {
    match world(alloc) {
        Some(world) => gives_in(alloc, expr, &world, given),
        None => false,
    }
}

fn has_body_that_gives(alloc: Global, policies: &PolicySet, given: Given) -> bool {
    match first_body(policies) {
        Some(expr) => gives_in_world(alloc, expr, given),
        None => false,
    }
}

/// Whether the expression that a text spells gives this in that world.
fn gives(alloc: Global, body: &str, given: Given) -> bool {
    match policies_with(alloc, body) {
        Some(policies) => has_body_that_gives(alloc, &policies, given),
        None => false,
    }
}

/// Of truth values and numbers.
const TRUTHS_AND_NUMBERS: &[(&str, Given)] = &[
    ("true || 1", Truth(true)),
    ("false && 1", Truth(false)),
    ("true || true && false", Truth(true)),
    (
        "if true then true else 9223372036854775807 + 1 < 0",
        Truth(true),
    ),
    ("(if false then 1 else 2) == 2", Truth(true)),
    ("1 != 1", Truth(false)),
    ("1 == \"1\"", Truth(false)),
    ("1 < 1", Truth(false)),
    ("1 <= 1", Truth(true)),
    ("2 > 1", Truth(true)),
    ("1 >= 2", Truth(false)),
    ("1 - 2 - 3 == -4", Truth(true)),
    ("2 + 3 * 4 == 14", Truth(true)),
    (
        "-9223372036854775807 - 1 == -9223372036854775808",
        Truth(true),
    ),
];

#[test]
fn truth_values_and_numbers(rt: HostRuntime) {
    for &(body, given) in TRUTHS_AND_NUMBERS {
        assert!(rt; gives(rt.alloc(), body, given), "{body}");
    }
}

/// Of sets, records, attributes and tags.
const SETS_AND_RECORDS: &[(&str, Given)] = &[
    ("[1, 2] == [2, 1, 1]", Truth(true)),
    ("[1, 2].contains(2)", Truth(true)),
    ("[1, 2].containsAll([3, 1])", Truth(false)),
    ("[1, 2].containsAny([3, 1])", Truth(true)),
    ("[].isEmpty()", Truth(true)),
    ("{b: 2, a: 1}.a == 1", Truth(true)),
    ("{b: 2, a: 1} == {a: 1, b: 2}", Truth(true)),
    ("context.mfa", Truth(true)),
    ("context has mfa", Truth(true)),
    ("principal has name.a", Truth(false)),
    ("principal.age == 7", Truth(true)),
    ("principal has age", Truth(true)),
    ("resource has age", Truth(false)),
    ("principal.hasTag(\"k\")", Truth(true)),
    ("principal.hasTag(\"l\")", Truth(false)),
    ("resource.hasTag(\"k\")", Truth(false)),
    ("principal.getTag(\"k\")", Truth(true)),
];

#[test]
fn sets_records_and_attributes(rt: HostRuntime) {
    for &(body, given) in SETS_AND_RECORDS {
        assert!(rt; gives(rt.alloc(), body, given), "{body}");
    }
}

/// Of the hierarchy and the types of entities.
const ENTITIES: &[(&str, Given)] = &[
    ("principal in [action, Team::\"t\"]", Truth(true)),
    ("principal in principal", Truth(true)),
    ("Team::\"t\" in principal", Truth(false)),
    ("resource in Team::\"t\"", Truth(false)),
    ("principal in []", Truth(false)),
    ("principal is User", Truth(true)),
    ("principal is Team", Truth(false)),
    ("principal is User in Team::\"t\"", Truth(true)),
    ("principal is Team in 1", Truth(false)),
];

#[test]
fn hierarchy_and_types(rt: HostRuntime) {
    for &(body, given) in ENTITIES {
        assert!(rt; gives(rt.alloc(), body, given), "{body}");
    }
}

/// Of texts, decimal numbers and addresses.
const TEXTS: &[(&str, Given)] = &[
    ("\"abc\" like \"a*\"", Truth(true)),
    ("\"bac\" like \"a*\"", Truth(false)),
    ("\"a*\" like \"a\\*\"", Truth(true)),
    ("decimal(\"1.5\").lessThan(decimal(\"1.50\"))", Truth(false)),
    (
        "decimal(\"1.5\").greaterThanOrEqual(decimal(\"1.50\"))",
        Truth(true),
    ),
    (
        "ip(\"192.168.0.1/24\") == ip(\"192.168.0.8/24\")",
        Truth(false),
    ),
    ("ip(\"10.0.0.0/8\").isInRange(ip(\"::/0\"))", Truth(false)),
    (
        "ip(\"10.1.0.0/16\").isInRange(ip(\"10.0.0.0/8\"))",
        Truth(true),
    ),
    ("ip(\"ff02::1\").isMulticast()", Truth(true)),
    ("ip(\"::1\").isLoopback()", Truth(true)),
    ("ip(\"::1\").isIpv4()", Truth(false)),
];

#[test]
fn texts_decimals_and_addresses(rt: HostRuntime) {
    for &(body, given) in TEXTS {
        assert!(rt; gives(rt.alloc(), body, given), "{body}");
    }
}

/// Of the members of sets: operands are evaluated first, and then their kinds are asked for.
const SETS: &[(&str, Given)] = &[
    ("[1, 2, 3].containsAll([3, 1])", Truth(true)),
    ("[1, 2, 3].containsAll([3])", Truth(true)),
    ("[2, 3].containsAll([1, 3])", Truth(false)),
    ("[3, 1].containsAll([1, 2, 3])", Truth(false)),
    ("[1].containsAll([])", Truth(true)),
    ("[].containsAll([])", Truth(true)),
    ("[].containsAll([1])", Truth(false)),
    ("[[1], \"a\"].containsAll([\"a\", [1, 1]])", Truth(true)),
    ("[1, 3].containsAny([2, 3])", Truth(true)),
    ("[1, 3].containsAny([2, 4])", Truth(false)),
    ("[2].containsAny([1, 2])", Truth(true)),
    ("[\"1\"].containsAny([1])", Truth(false)),
    ("[].containsAny([])", Truth(false)),
    ("[1].containsAny([])", Truth(false)),
    ("[1].isEmpty()", Truth(false)),
    ("[[]].isEmpty()", Truth(false)),
    ("(1).containsAll([1])", Error(EvalError::TypeError)),
    ("[1].containsAll(1)", Error(EvalError::TypeError)),
    (
        "(1).containsAll([9223372036854775807 + 1])",
        Error(EvalError::Overflow),
    ),
    ("(1).containsAny([1])", Error(EvalError::TypeError)),
    ("[1].containsAny(\"a\")", Error(EvalError::TypeError)),
    (
        "(1).containsAny([9223372036854775807 + 1])",
        Error(EvalError::Overflow),
    ),
    ("(1).isEmpty()", Error(EvalError::TypeError)),
    ("\"\".isEmpty()", Error(EvalError::TypeError)),
    (
        "[9223372036854775807 + 1].isEmpty()",
        Error(EvalError::Overflow),
    ),
];

#[test]
fn members_of_sets(rt: HostRuntime) {
    for &(body, given) in SETS {
        assert!(rt; gives(rt.alloc(), body, given), "{body}");
    }
}

/// Of signs and products.
const SIGNS_AND_PRODUCTS: &[(&str, Given)] = &[
    ("-(3) == 0 - 3", Truth(true)),
    ("-(-3) == 3", Truth(true)),
    ("-principal.age == -7", Truth(true)),
    ("3 * -4 == -12", Truth(true)),
    ("-3 * -4 == 12", Truth(true)),
    ("0 * 9223372036854775807 == 0", Truth(true)),
    ("2 * 3 * 4 == 24", Truth(true)),
    (
        "4611686018427387904 * -2 == -9223372036854775808",
        Truth(true),
    ),
    ("-\"a\"", Error(EvalError::TypeError)),
    ("-true", Error(EvalError::TypeError)),
    ("-(9223372036854775807 + 1)", Error(EvalError::Overflow)),
    ("4611686018427387904 * 2", Error(EvalError::Overflow)),
    ("-9223372036854775808 * -1", Error(EvalError::Overflow)),
    ("3037000500 * 3037000500", Error(EvalError::Overflow)),
    ("\"a\" * 2", Error(EvalError::TypeError)),
    ("2 * true", Error(EvalError::TypeError)),
    (
        "true * (9223372036854775807 + 1)",
        Error(EvalError::Overflow),
    ),
    (
        "(9223372036854775807 + 1) * true",
        Error(EvalError::Overflow),
    ),
];

#[test]
fn signs_and_products(rt: HostRuntime) {
    for &(body, given) in SIGNS_AND_PRODUCTS {
        assert!(rt; gives(rt.alloc(), body, given), "{body}");
    }
}

/// Of `has` with several names.
const PATHS: &[(&str, Given)] = &[
    ("{a: {b: {c: 1}}} has a.b.c", Truth(true)),
    ("{a: {b: {d: 1}}} has a.b.c", Truth(false)),
    ("{a: {}} has a.b.c", Truth(false)),
    ("{b: 1} has a.b", Truth(false)),
    ("{u: principal} has u.age", Truth(true)),
    ("{u: principal} has u.name.a", Truth(false)),
    ("{u: resource} has u.age", Truth(false)),
    ("resource has age.a", Truth(false)),
    ("{a: 1} has a.b", Error(EvalError::TypeError)),
    ("{a: {b: []}} has a.b.c", Error(EvalError::TypeError)),
    ("principal has age.a", Error(EvalError::TypeError)),
    ("1 has a.b", Error(EvalError::TypeError)),
    (
        "(9223372036854775807 + 1) has a.b",
        Error(EvalError::Overflow),
    ),
];

#[test]
fn several_names(rt: HostRuntime) {
    for &(body, given) in PATHS {
        assert!(rt; gives(rt.alloc(), body, given), "{body}");
    }
}

/// Of `is .. in` and of `in`: where the type is another one, what stands behind `in` isn't evaluated, and
/// each member of a set is asked to be an entity.
const TYPES_AND_GROUPS: &[(&str, Given)] = &[
    ("principal is User in principal", Truth(true)),
    ("principal is User in action", Truth(false)),
    ("principal is User in []", Truth(false)),
    ("principal is User in [action, Team::\"t\"]", Truth(true)),
    ("resource is Doc in resource", Truth(true)),
    ("resource is Doc in Team::\"t\"", Truth(false)),
    (
        "principal is Team in (9223372036854775807 + 1)",
        Truth(false),
    ),
    ("principal is Team in [1]", Truth(false)),
    ("principal is User in 1", Error(EvalError::TypeError)),
    (
        "principal is User in [Team::\"t\", 1]",
        Error(EvalError::TypeError),
    ),
    (
        "principal is User in (9223372036854775807 + 1)",
        Error(EvalError::Overflow),
    ),
    ("1 is User in principal", Error(EvalError::TypeError)),
    (
        "1 is User in (9223372036854775807 + 1)",
        Error(EvalError::TypeError),
    ),
    (
        "principal in [Team::\"t\", \"a\"]",
        Error(EvalError::TypeError),
    ),
    ("resource in [principal, 1]", Error(EvalError::TypeError)),
    ("principal in 1", Error(EvalError::TypeError)),
    ("1 in [principal]", Error(EvalError::TypeError)),
    ("1 in (9223372036854775807 + 1)", Error(EvalError::Overflow)),
];

#[test]
fn types_and_groups(rt: HostRuntime) {
    for &(body, given) in TYPES_AND_GROUPS {
        assert!(rt; gives(rt.alloc(), body, given), "{body}");
    }
}

/// Of what has no value.
const ERRORS: &[(&str, Given)] = &[
    ("9223372036854775807 + 1", Error(EvalError::Overflow)),
    (
        "\"a\" + (9223372036854775807 + 1)",
        Error(EvalError::Overflow),
    ),
    ("-(-9223372036854775808)", Error(EvalError::Overflow)),
    ("4294967296 * 2147483648", Error(EvalError::Overflow)),
    ("1 || true", Error(EvalError::TypeError)),
    ("false || 1", Error(EvalError::TypeError)),
    ("true && 1", Error(EvalError::TypeError)),
    ("if 1 then 2 else 3", Error(EvalError::TypeError)),
    ("!1", Error(EvalError::TypeError)),
    ("1 < \"a\"", Error(EvalError::TypeError)),
    ("principal in [principal, 1]", Error(EvalError::TypeError)),
    ("1 is User", Error(EvalError::TypeError)),
    ("1 has a", Error(EvalError::TypeError)),
    ("context has mfa.a", Error(EvalError::TypeError)),
    ("principal.name", Error(EvalError::AttrMissing)),
    ("context.name", Error(EvalError::AttrMissing)),
    ("resource.age", Error(EvalError::EntityMissing)),
    ("principal.getTag(\"l\")", Error(EvalError::TagMissing)),
    ("resource.getTag(\"k\")", Error(EvalError::EntityMissing)),
    ("ip(\"x\")", Error(EvalError::BadText)),
    ("decimal(\"1\")", Error(EvalError::BadText)),
];

#[test]
fn errors(rt: HostRuntime) {
    for &(body, given) in ERRORS {
        assert!(rt; gives(rt.alloc(), body, given), "{body}");
    }
}
