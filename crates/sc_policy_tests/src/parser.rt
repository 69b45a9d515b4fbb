//! Policy files: what is read of them, and their first faults.
use self::Told::{Count, Fails};
use crate::samples::{at, policies, sample};
use crate::trees::is_type;
use sc_ast::{ActionConstraint, ConditionKind, Constraint, Effect, Place, Policy, PolicySet};
use sc_lists::Fault;
use sc_parser::PolicyFault::{
    BadCall, BadEscape, BadToken, BadUtf8, DuplicateKey, IntRange, Template, TooDeep,
    TooManyPolicies, Unexpected, UnexpectedEnd,
};
use sc_parser::{PolicyFault, read_policies, reading_laws};
use std::alloc::{AllocError, Global};

// ---- files

/// What is told of a file: how many policies it has, or its first fault.
#[derive(Clone, Copy, PartialEq, Eq)]
enum Told {
    Count(usize),
    Fails(PolicyFault),
}

/// Whether this is told of a file.
fn is_told(alloc: Global, bytes: &[u8], told: Told) -> bool {
    match read_policies(alloc, bytes) {
        Ok(policies) => told == Count(policies.len()),
        Err(Fault::Told(fault)) => told == Fails(fault),
        Err(Fault::NoMemory) => false,
    }
}

/// Files, and how many policies they have.
const FILES: &[(&str, Told)] = &[
    ("", Count(0)),
    ("// nothing\n", Count(0)),
    ("permit(principal, action, resource);", Count(1)),
    (
        "@id(\"a\") @b @b forbid(principal, action, resource,);\npermit(principal, action, resource);",
        Count(2),
    ),
    (
        "permit(principal == A::\"a\", action == A::\"b\", resource in A::B::\"c\");",
        Count(1),
    ),
    (
        "permit(principal is A in A::\"a\", action in [A::\"b\", A::\"c\",], resource is A);",
        Count(1),
    ),
    (
        "permit(principal, action in [], resource) when { true } unless { false };",
        Count(1),
    ),
];

#[test]
fn files_are_read(rt: HostRuntime) {
    reading_laws();
    for &(file, told) in FILES {
        assert!(rt; is_told(rt.alloc(), file.as_bytes(), told), "{file}");
    }
}

/// Files, and their first faults.
const BAD_FILES: &[(&str, Told)] = &[
    ("; # \"\\q\"", Fails(BadToken(Place { offset: 2 }))),
    ("; \"", Fails(BadToken(Place { offset: 2 }))),
    ("; \"a\\q\" #", Fails(BadEscape(Place { offset: 4 }))),
    (";", Fails(Unexpected(Place { offset: 0 }))),
    ("@id", Fails(UnexpectedEnd)),
    (
        "permit(principal, action, resource) when { context.mfa",
        Fails(UnexpectedEnd),
    ),
    (
        "permit(principal, action, resource,,);",
        Fails(Unexpected(Place { offset: 35 })),
    ),
    (
        "permit(principal, action, resource) permit",
        Fails(Unexpected(Place { offset: 36 })),
    ),
    (
        "forbid(principal == ?principal, action, resource);",
        Fails(Template(Place { offset: 20 })),
    ),
    (
        "forbid(principal is A in ?principal, action, resource);",
        Fails(Template(Place { offset: 25 })),
    ),
    (
        "forbid(principal, action == ?action, resource);",
        Fails(Unexpected(Place { offset: 28 })),
    ),
];

#[test]
fn files_are_refused(rt: HostRuntime) {
    for &(file, told) in BAD_FILES {
        assert!(rt; is_told(rt.alloc(), file.as_bytes(), told), "{file}");
    }
}

#[test]
fn ill_formed_bytes(rt: HostRuntime) {
    assert!(rt; is_told(rt.alloc(), b"permit\xff #", Fails(BadUtf8(at(6)))));
}

// ---- bodies of clauses

/// Whether this is told of the sample with this body.
fn is_told_of_body(alloc: Global, body: &str, told: Told) -> bool {
    match sample(alloc, body) {
        Ok(file) => is_told(alloc, file.as_bytes(), told),
        Err(_) => false,
    }
}

/// Bodies that are read.
const BODIES: &[&str] = &[
    "-9223372036854775808 < 0",
    "9223372036854775807 < - // the least\n 9223372036854775808",
    "00000000000000000000001 == ----1",
    "[1, 2,] == []",
    "{a: 1, \"b c\": 2,} == {}",
    "ip(\"a\",).isInRange(decimal(\"b\")) == !!!!context.c",
    "principal::\"a\" in [action, A::resource::\"b\"]",
    "if (a::\"a\").isEmpty() then context[\"b\"] else if true then 1 else 2",
];

#[test]
fn bodies_are_read(rt: HostRuntime) {
    for &body in BODIES {
        assert!(rt; is_told_of_body(rt.alloc(), body, Count(1)), "{body}");
    }
}

/// Bodies, and the first faults of the sample with them.
const BAD_BODIES: &[(&str, Told)] = &[
    ("[1, 2", Fails(Unexpected(Place { offset: 49 }))),
    ("[,]", Fails(Unexpected(Place { offset: 44 }))),
    ("context.n < 1 < 2", Fails(Unexpected(Place { offset: 57 }))),
    ("!!!!!true", Fails(Unexpected(Place { offset: 47 }))),
    ("!-1", Fails(Unexpected(Place { offset: 44 }))),
    ("principal(1)", Fails(Unexpected(Place { offset: 52 }))),
    ("context has", Fails(Unexpected(Place { offset: 55 }))),
    ("{a: 1, a: 2}", Fails(DuplicateKey(Place { offset: 50 }))),
    (
        "{a: 1, b: 2, \"\\u{61}\": 3}",
        Fails(DuplicateKey(Place { offset: 56 })),
    ),
    (
        "9223372036854775808 < 0",
        Fails(IntRange(Place { offset: 43 })),
    ),
    (
        "1 - 9223372036854775808",
        Fails(IntRange(Place { offset: 47 })),
    ),
    (
        "-09223372036854775808",
        Fails(IntRange(Place { offset: 44 })),
    ),
    ("\"\\q\" == \"a\"", Fails(BadEscape(Place { offset: 44 }))),
    ("5.foo()", Fails(BadCall(Place { offset: 49 }))),
    ("5.isEmpty(1)", Fails(BadCall(Place { offset: 54 }))),
    ("ip(\"a\", \"b\")", Fails(BadCall(Place { offset: 54 }))),
];

#[test]
fn bodies_are_refused(rt: HostRuntime) {
    for &(body, told) in BAD_BODIES {
        assert!(rt; is_told_of_body(rt.alloc(), body, told), "{body}");
    }
}

// ---- limits

/// `true` in so many pairs of parentheses.
fn in_parentheses(alloc: Global, pairs: usize) -> Result<String, AllocError> {
    let mut body = "(".repeat(alloc, pairs)?;
    body.push_str("true")?;
    body.push_str(")".repeat(alloc, pairs)?.as_str())?;
    Ok(body)
}

/// `true` with so many times `true` and `||` before it.
fn chain(alloc: Global, operators: usize) -> Result<String, AllocError> {
    let mut body = "true||".repeat(alloc, operators)?;
    body.push_str("true")?;
    Ok(body)
}

/// A policy with so many clauses.
fn with_clauses(alloc: Global, count: usize) -> Result<String, AllocError> {
    let clauses = "when{true}".repeat(alloc, count)?;
    "permit(principal,action,resource)CLAUSES;".replace(alloc, "CLAUSES", clauses.as_str())
}

fn with_policies(alloc: Global, count: usize) -> Result<String, AllocError> {
    "permit(principal,action,resource);".repeat(alloc, count)
}

/// Whether this is told of a file, if it is made.
fn is_told_of_file(alloc: Global, file: Result<String, AllocError>, told: Told) -> bool {
    match file {
        Ok(file) => is_told(alloc, file.as_bytes(), told),
        Err(_) => false,
    }
}

/// Whether this is told of the sample with this body, if it is made.
fn is_told_of_long(alloc: Global, body: Result<String, AllocError>, told: Told) -> bool {
    match body {
        Ok(body) => is_told_of_body(alloc, body.as_str(), told),
        Err(_) => false,
    }
}

#[test]
fn depth_of_parentheses(rt: HostRuntime) {
    let alloc = rt.alloc();
    assert!(rt; is_told_of_long(alloc, in_parentheses(alloc, 99), Count(1)));
    assert!(rt; is_told_of_long(alloc, in_parentheses(alloc, 100), Fails(TooDeep(at(143)))));
}

#[test]
fn length_of_chains(rt: HostRuntime) {
    let alloc = rt.alloc();
    assert!(rt; is_told_of_long(alloc, chain(alloc, 999), Count(1)));
    assert!(rt; is_told_of_long(alloc, chain(alloc, 1000), Fails(TooDeep(at(6043)))));
}

#[test]
fn number_of_clauses(rt: HostRuntime) {
    let alloc = rt.alloc();
    assert!(rt; is_told_of_file(alloc, with_clauses(alloc, 1000), Count(1)));
    assert!(rt; is_told_of_file(alloc, with_clauses(alloc, 1001), Fails(TooDeep(at(10038)))));
}

#[test]
fn number_of_policies(rt: HostRuntime) {
    let alloc = rt.alloc();
    assert!(rt; is_told_of_file(alloc, with_policies(alloc, 10_000), Count(10_000)));
    assert!(rt; is_told_of_file(alloc, with_policies(alloc, 10_001), Fails(TooManyPolicies)));
}

// ---- policies

/// Whether the policy forbids, and where it and its principal stand.
fn is_forbid_at(policy: &Policy, place: Place, principal: Place) -> bool {
    policy.effect == Effect::Forbid && policy.place == place && policy.principal.place == principal
}

/// Whether the policy has one clause, `unless` at this place.
fn is_unless_at(policy: &Policy, place: Place) -> bool {
    let Some(clause) = policy.conditions.get(0) else {
        return false;
    };
    policy.conditions.len() == 1 && clause.kind == ConditionKind::Unless && clause.place == place
}

fn is_for_type(constraint: &Constraint) -> bool {
    match constraint {
        Constraint::Is(place, name) => *place == at(20) && is_type(name, 23),
        _ => false,
    }
}

fn is_for_no_action(constraint: &ActionConstraint) -> bool {
    match constraint {
        ActionConstraint::InAny(place, bracket, actions) => {
            *place == at(36) && *bracket == at(39) && actions.is_empty()
        }
        _ => false,
    }
}

/// Whether the policy asks for a principal of `A::T`, for no action, and for any resource.
fn asks(policy: &Policy) -> bool {
    is_for_type(&policy.principal.constraint)
        && is_for_no_action(&policy.action.constraint)
        && matches!(policy.resource.constraint, Constraint::Any)
}

/// Whether the policy is the one that is told below.
fn has_parts(policy: &Policy) -> bool {
    is_forbid_at(policy, at(3), at(10)) && is_unless_at(policy, at(53)) && asks(policy)
}

fn has_policy_with_parts(policies: &PolicySet) -> bool {
    match policies.get(0) {
        Some(policy) => has_parts(policy),
        None => false,
    }
}

fn is_read_in_parts(alloc: Global, file: &str) -> bool {
    match policies(alloc, file) {
        Some(policies) => has_policy_with_parts(&policies),
        None => false,
    }
}

#[test]
fn parts_of_a_policy(rt: HostRuntime) {
    let file = "@a forbid(principal is A::T, action in [], resource) unless { true };";
    assert!(rt; is_read_in_parts(rt.alloc(), file));
}
