//! What typing answers of a body where a user views a document: what it may be, the rule that it breaks,
//! and what of it is skipped.
use crate::samples::{sample, schema};
use sc_ast::{Policy, PolicySet};
use sc_lists::{Boxed, Fault};
use sc_schema::{Env, Schema, environments};
use sc_typed::kinds::{is_false, is_true};
use sc_typing::{TypeFault, TypeRule, TypedExpr, place_of, type_of, type_policy};
use std::alloc::Global;

/// What typing answers of a body.
#[derive(Clone, Copy, PartialEq, Eq)]
pub(crate) enum Answer {
    /// It is always this.
    Always(bool),
    /// It may be true or false.
    Either,
    /// It breaks a rule, at the place of this byte.
    Breaks(TypeRule, u64),
}

/// What of a body is never evaluated.
#[derive(Clone, Copy, PartialEq, Eq)]
pub(crate) enum Skipped {
    /// Nothing.
    Nothing,
    /// An operand, at the place of this byte.
    Operand(u64),
    /// So many names after `has`.
    Names(usize),
}

/// What a condition with its types may be.
fn truth_of(condition: &TypedExpr) -> Answer {
    match type_of(condition) {
        Some(ty) if is_true(ty) => Answer::Always(true),
        Some(ty) if is_false(ty) => Answer::Always(false),
        _ => Answer::Either,
    }
}

/// What is skipped of the body of a condition, which is the right side of its `&&`.
fn skipped_of(condition: &TypedExpr) -> Skipped {
    match condition {
        TypedExpr::And(_, _, _, body) => skipped_in(body.get()),
        _ => Skipped::Nothing,
    }
}

/// Which operand of an expression is skipped, or how many names.
fn skipped_in(body: &TypedExpr) -> Skipped {
    match body {
        TypedExpr::If(_, _, _, a, b) => first_skipped(a.get(), b.get()),
        TypedExpr::Or(_, _, _, b) => operand(b.get()),
        TypedExpr::And(_, _, _, b) => operand(b.get()),
        TypedExpr::IsIn(_, _, _, _, _, b) => operand(b.get()),
        TypedExpr::Has(_, _, _, _, names) if !names.is_empty() => Skipped::Names(names.len()),
        _ => Skipped::Nothing,
    }
}

fn first_skipped(a: &TypedExpr, b: &TypedExpr) -> Skipped {
    match operand(a) {
        Skipped::Nothing => operand(b),
        skipped => skipped,
    }
}

fn operand(part: &TypedExpr) -> Skipped {
    match part {
        TypedExpr::Skipped(_) => Skipped::Operand(place_of(part).offset),
        _ => Skipped::Nothing,
    }
}

/// What the condition of a policy may be in an environment, and what of it is skipped.
fn residue_in(
    alloc: Global,
    schema: &Schema,
    env: &Env,
    policy: &Policy,
) -> Result<(Answer, Skipped), Fault<TypeFault>> {
    let condition = Boxed::new(alloc, type_policy(alloc, schema, env, policy)?)?;
    Ok((truth_of(condition.get()), skipped_of(condition.get())))
}

/// What typing answers of a policy in an environment.
pub(crate) fn answer_of(
    alloc: Global,
    schema: &Schema,
    env: &Env,
    policy: &Policy,
) -> Option<(Answer, Skipped)> {
    match residue_in(alloc, schema, env, policy) {
        Ok(answer) => Some(answer),
        Err(Fault::Told(TypeFault { rule, at })) => {
            Some((Answer::Breaks(rule, at.offset), Skipped::Nothing))
        }
        Err(Fault::NoMemory) => None,
    }
}

/// What typing answers of the first of some policies where a user views a document.
fn first_answer(alloc: Global, schema: &Schema, policies: &PolicySet) -> Option<(Answer, Skipped)> {
    let env = environments(schema).get(2)?;
    let policy = policies.get(0)?;
    answer_of(alloc, schema, env, policy)
}

fn typed_under(alloc: Global, schema: &Schema, body: &str) -> Option<(Answer, Skipped)> {
    match sample(alloc, body) {
        Ok(policies) => first_answer(alloc, schema, &policies),
        Err(_) => None,
    }
}

/// What typing answers of a policy with this body, and what of the body is skipped. None where memory
/// is wanting.
pub(crate) fn typed(alloc: Global, body: &str) -> Option<(Answer, Skipped)> {
    match schema(alloc) {
        Ok(schema) => typed_under(alloc, &schema, body),
        Err(_) => None,
    }
}

/// What typing answers of a policy with this body. None where memory is wanting.
pub(crate) fn answer_for(alloc: Global, body: &str) -> Option<Answer> {
    match typed(alloc, body) {
        Some((answer, _)) => Some(answer),
        None => None,
    }
}
