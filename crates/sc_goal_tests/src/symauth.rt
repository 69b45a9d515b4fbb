//! How policies stand, over a table of `true` and `false`, which have the numbers 0 and 1. Where policies
//! are compiled, 5 comes to be the attribute that is read of the context first.
use crate::samples::{policies, schema, typed};
use sc_ast::{Effect, Policy, PolicySet};
use sc_schema::{Env, Schema, environments};
use sc_symauth::{CompiledPolicy, any_error_term, decision_term, error_term, satisfied_term};
use sc_symeval::Opt;
use sc_terms::Terms;
use sc_typing::TypedExpr;
use std::alloc::{AllocError, Global};
use std::test::Fail;

/// Whether a policy errs whose condition has no value.
fn erring_errs(alloc: Global) -> Result<u64, AllocError> {
    let mut terms = Terms::new(alloc)?;
    let erring = CompiledPolicy {
        effect: Effect::Permit,
        code: Opt { ok: 1, val: 0 },
    };
    any_error_term(alloc, &mut terms, &[erring])
}

#[test]
fn what_has_no_value_errs(rt: HostRuntime) -> Result<(), Fail> {
    assert_eq!(rt; erring_errs(rt.alloc())?, 0);
    Ok(())
}

/// Whether a condition with its types is true, and whether it has no value, as terms of a table.
fn terms_of(
    alloc: Global,
    terms: &mut Terms,
    schema: &Schema,
    env: &Env,
    condition: &TypedExpr,
) -> Result<(u64, u64), AllocError> {
    let satisfied = satisfied_term(alloc, terms, schema, condition, env)?;
    let error = error_term(alloc, terms, schema, condition, env)?;
    Ok((satisfied, error))
}

/// The same of a policy's condition.
fn terms_in(
    alloc: Global,
    terms: &mut Terms,
    schema: &Schema,
    env: &Env,
    policy: &Policy,
) -> Result<(u64, u64), AllocError> {
    let condition = typed(alloc, schema, env, policy)?;
    terms_of(alloc, terms, schema, env, condition.get())
}

/// The same of the first of some policies in the first environment. That there is none counts as want of
/// memory.
fn first_terms(
    alloc: Global,
    terms: &mut Terms,
    schema: &Schema,
    policies: &PolicySet,
) -> Result<(u64, u64), AllocError> {
    let Some(env) = environments(schema).get(0) else {
        return Err(AllocError);
    };
    match policies.get(0) {
        Some(policy) => terms_in(alloc, terms, schema, env, policy),
        None => Err(AllocError),
    }
}

/// The same of the first policy of a file.
fn terms_of_file(
    alloc: Global,
    terms: &mut Terms,
    schema: &Schema,
    file: &str,
) -> Result<(u64, u64), AllocError> {
    let policies = policies(alloc, file)?;
    first_terms(alloc, terms, schema, &policies)
}

/// The same in a new table.
fn stands_under(alloc: Global, schema: &Schema, file: &str) -> Result<(u64, u64), AllocError> {
    let mut terms = Terms::new(alloc)?;
    terms_of_file(alloc, &mut terms, schema, file)
}

/// The same under the schema.
fn stands(alloc: Global, file: &str) -> Result<(u64, u64), AllocError> {
    let schema = schema(alloc)?;
    stands_under(alloc, &schema, file)
}

/// Policies, each with whether it is satisfied, and whether it errs.
const POLICIES: &[(&str, u64, u64)] = &[
    ("permit(principal, action, resource);", 0, 1),
    ("permit(principal, action, resource) when { false };", 1, 1),
    (
        "permit(principal, action, resource) when { context.x };",
        5,
        1,
    ),
    (
        "forbid(principal, action, resource) unless { context.x };",
        6,
        1,
    ),
    (
        "permit(principal, action, resource) when { context.n + 1 == 2 };",
        12,
        7,
    ),
];

#[test]
fn typed_policies_stand(rt: HostRuntime) -> Result<(), Fail> {
    for &(file, satisfied, error) in POLICIES {
        let found = stands(rt.alloc(), file)?;
        assert!(rt; found == (satisfied, error), "{file}");
    }
    Ok(())
}

/// Whether a set without policies allows in the first environment.
fn none_allow_under(alloc: Global, schema: &Schema) -> Result<u64, AllocError> {
    let Some(env) = environments(schema).get(0) else {
        return Err(AllocError);
    };
    let mut terms = Terms::new(alloc)?;
    decision_term(alloc, &mut terms, schema, &[], env)
}

/// The same under the schema.
fn none_allow(alloc: Global) -> Result<u64, AllocError> {
    let schema = schema(alloc)?;
    none_allow_under(alloc, &schema)
}

#[test]
fn no_policies_allow_nothing(rt: HostRuntime) -> Result<(), Fail> {
    assert_eq!(rt; none_allow(rt.alloc())?, 1);
    Ok(())
}
