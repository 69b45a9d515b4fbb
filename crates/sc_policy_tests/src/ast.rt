//! The uids that policies write, and copies of expressions.
use crate::samples::{first_body, policies, policies_with};
use sc_ast::{Expr, PolicySet, literals, try_clone};
use std::alloc::Global;

/// How many uids policies write, each counted once.
fn count_of(alloc: Global, policies: &PolicySet) -> Option<usize> {
    match literals(alloc, policies.as_slice()) {
        Ok(literals) => Some(literals.len()),
        Err(_) => None,
    }
}

/// How many uids the policies of a file write, if it is read.
fn count_of_uids(alloc: Global, file: &str) -> Option<usize> {
    match policies(alloc, file) {
        Some(policies) => count_of(alloc, &policies),
        None => None,
    }
}

/// Files, and how many uids their policies write.
const FILES: &[(&str, usize)] = &[
    ("permit(principal, action, resource);", 0),
    (
        "permit(principal == U::\"a\", action, resource) unless { context };",
        1,
    ),
    (
        "permit(principal is U in U::\"a\", action in [U::\"b\", U::\"a\"], resource in U::\"c\");",
        3,
    ),
    (
        "permit(principal, action, resource) when { U::\"a\".b } unless { {c: [U::\"b\"]} };",
        2,
    ),
];

#[test]
fn uids_of_policies(rt: HostRuntime) {
    for &(file, count) in FILES {
        assert!(rt; count_of_uids(rt.alloc(), file) == Some(count), "{file}");
    }
}

/// Whether the copy of an expression is made and equals it.
fn is_copied(alloc: Global, expr: &Expr) -> bool {
    match try_clone(alloc, expr) {
        Ok(copy) => copy == *expr,
        Err(_) => false,
    }
}

fn has_copy(alloc: Global, policies: &PolicySet) -> bool {
    match first_body(policies) {
        Some(expr) => is_copied(alloc, expr),
        None => false,
    }
}

/// Whether the expression that a text spells is copied.
fn is_body_copied(alloc: Global, body: &str) -> bool {
    match policies_with(alloc, body) {
        Some(policies) => has_copy(alloc, &policies),
        None => false,
    }
}

/// Expressions, of which there is one of each construct.
const COPIED: &[&str] = &[
    "if true then 1 else \"a\"",
    "principal == U::\"a\" || !context.b && resource in action",
    "principal has a.b",
    "principal like \"a*\"",
    "principal is U",
    "principal is U in resource",
    "[1, {a: 2, b: []}]",
];

#[test]
fn copies(rt: HostRuntime) {
    for &body in COPIED {
        assert!(rt; is_body_copied(rt.alloc(), body), "{body}");
    }
}
