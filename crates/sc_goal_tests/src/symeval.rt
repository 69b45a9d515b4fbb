//! What conditions are compiled to in a new table, where 0 is `true` and 1 is `false`, 2, 3 and 4 come to be
//! principal, resource and context, and from 5 on terms are numbered as they are made: those of operands
//! first, from left to right.
use crate::samples::{sample, schema, typed};
use sc_ast::{Policy, PolicySet};
use sc_schema::{Env, Schema, environments};
use sc_symeval::{Opt, compile};
use sc_terms::Terms;
use std::alloc::{AllocError, Global};
use std::process::Abort;
use std::test::Fail;

/// What a policy's condition is compiled to in an environment.
fn opt_in(
    alloc: Global,
    terms: &mut Terms,
    schema: &Schema,
    env: &Env,
    policy: &Policy,
) -> Result<Opt, AllocError> {
    let condition = typed(alloc, schema, env, policy)?;
    compile(alloc, terms, schema, condition.get(), env)
}

/// What the first of some policies is compiled to in the first environment. That there is none counts as
/// want of memory.
fn first_opt(
    alloc: Global,
    terms: &mut Terms,
    schema: &Schema,
    policies: &PolicySet,
) -> Result<Opt, AllocError> {
    let Some(env) = environments(schema).get(0) else {
        return Err(AllocError);
    };
    match policies.get(0) {
        Some(policy) => opt_in(alloc, terms, schema, env, policy),
        None => Err(AllocError),
    }
}

/// What the policy with this body is compiled to in a table.
fn compiled_in(
    alloc: Global,
    terms: &mut Terms,
    schema: &Schema,
    body: &str,
) -> Result<Opt, AllocError> {
    let policies = sample(alloc, body)?;
    first_opt(alloc, terms, schema, &policies)
}

/// What the policy with this body is compiled to in a new table.
fn compiled_anew(alloc: Global, schema: &Schema, body: &str) -> Result<Opt, AllocError> {
    let mut terms = Terms::new(alloc)?;
    compiled_in(alloc, &mut terms, schema, body)
}

/// The same under the schema.
fn compiled(alloc: Global, body: &str) -> Result<Opt, AllocError> {
    let schema = schema(alloc)?;
    compiled_anew(alloc, &schema, body)
}

/// Asserts that each body is compiled to the terms beside it: that it doesn't err, and its value.
fn are_compiled(rt: &impl Abort, alloc: Global, rows: &[(&str, u64, u64)]) -> Result<(), Fail> {
    for &(body, ok, val) in rows {
        let found = compiled(alloc, body)?;
        assert!(rt; found == Opt { ok, val }, "{body}");
    }
    Ok(())
}

/// Truth values, each with its terms.
const TRUTHS: &[(&str, u64, u64)] = &[
    ("true", 0, 0),
    ("false", 0, 1),
    ("!true", 0, 1),
    ("false || !false", 0, 0),
    ("true && !true", 0, 1),
    ("false && 1 < 2", 0, 1),
    ("true || 1 < 2", 0, 0),
    ("context.x", 0, 5),
    ("!context.x", 0, 6),
    ("!!context.x", 0, 5),
    ("context.x && context.x", 0, 5),
    ("context.x || true", 0, 0),
    ("context.x && context.y", 0, 8),
    ("if true then context.x else 1 < 2", 0, 5),
    ("if 1 == 2 then context.y else context.x", 0, 7),
    ("if context.x then context.y else context.y", 0, 6),
    ("if context.x then context.y else context.z", 0, 8),
];

#[test]
fn truth_values_are_compiled(rt: HostRuntime) -> Result<(), Fail> {
    are_compiled(&rt, rt.alloc(), TRUTHS)
}

/// What types decide, each with its terms.
const DECIDED: &[(&str, u64, u64)] = &[
    ("principal == resource", 0, 1),
    ("principal is User", 0, 0),
    ("resource is User in Group::\"g\"", 0, 1),
    ("resource in Group::\"g\"", 0, 1),
    ("action in [Action::\"view\"]", 0, 0),
    ("context has x", 0, 0),
    ("context has other", 0, 1),
    ("resource.hasTag(\"t\")", 0, 1),
];

#[test]
fn what_types_decide_is_a_truth_value(rt: HostRuntime) -> Result<(), Fail> {
    are_compiled(&rt, rt.alloc(), DECIDED)
}

/// Constructs, each with its terms.
const CONSTRUCTS: &[(&str, u64, u64)] = &[
    ("context.n < 1", 0, 7),
    ("[1, 2].contains(context.n)", 0, 9),
    ("{a: context.n} == {a: 1}", 0, 9),
    ("principal in User::\"a\"", 0, 6),
    ("principal in Group::\"g\"", 0, 7),
    ("principal in [User::\"a\"]", 0, 7),
    ("principal.name like \"a*\"", 0, 7),
    ("decimal(\"1.5\").lessThan(decimal(\"2.0\"))", 0, 9),
    ("ip(\"127.0.0.1\").isLoopback()", 0, 11),
    ("principal has boss", 0, 7),
];

#[test]
fn each_construct_is_compiled(rt: HostRuntime) -> Result<(), Fail> {
    are_compiled(&rt, rt.alloc(), CONSTRUCTS)
}

/// What may err, each with its terms.
const ERRORS: &[(&str, u64, u64)] = &[
    // A sum that overflows.
    ("context.n + 1 == 2", 9, 11),
    // It isn't evaluated where the left side is true, or the condition false.
    ("context.x || context.n + 1 == 2", 13, 14),
    ("if context.x then context.n + 1 == 2 else true", 13, 14),
    // An optional attribute and a tag that are absent.
    ("principal has boss && principal.boss == principal", 11, 12),
    (
        "principal.hasTag(\"t\") && principal.getTag(\"t\") == 1",
        12,
        13,
    ),
];

#[test]
fn errors_are_compiled(rt: HostRuntime) -> Result<(), Fail> {
    are_compiled(&rt, rt.alloc(), ERRORS)
}

/// Whether policies with these two bodies are compiled to the same terms of a table.
fn are_one_in(
    alloc: Global,
    terms: &mut Terms,
    schema: &Schema,
    bodies: (&str, &str),
) -> Result<bool, AllocError> {
    let found = compiled_in(alloc, terms, schema, bodies.0)?;
    let again = compiled_in(alloc, terms, schema, bodies.1)?;
    Ok(found == again)
}

/// The same of a new table.
fn are_one_anew(alloc: Global, schema: &Schema, bodies: (&str, &str)) -> Result<bool, AllocError> {
    let mut terms = Terms::new(alloc)?;
    are_one_in(alloc, &mut terms, schema, bodies)
}

/// The same under the schema.
fn are_one(alloc: Global, bodies: (&str, &str)) -> Result<bool, AllocError> {
    let schema = schema(alloc)?;
    are_one_anew(alloc, &schema, bodies)
}

/// Bodies, each with one that stands for it.
const PAIRS: &[(&str, &str)] = &[
    ("context.n > 1", "1 < context.n"),
    ("context.n >= 1", "1 <= context.n"),
    ("-context.n == 1", "0 - context.n == 1"),
    (
        "principal has boss.boss",
        "principal has boss && principal.boss has boss",
    ),
    (
        "principal is User in Group::\"g\"",
        "principal is User && principal in Group::\"g\"",
    ),
    ("context[\"n\"] < 1", "context.n < 1"),
];

#[test]
fn what_stands_for_another_is_compiled_as_that(rt: HostRuntime) -> Result<(), Fail> {
    for &(one, other) in PAIRS {
        assert!(rt; are_one(rt.alloc(), (one, other))?, "{one}");
    }
    Ok(())
}
