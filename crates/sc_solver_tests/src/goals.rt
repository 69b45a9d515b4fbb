//! Goals, which are written in reverse Polish notation: `t` and `f` are truth values, `a` and `b`
//! the first two attributes of the context; `!` negates the goal before it, and `&`, `|` and `=`
//! join two.
ghost use Rattle.std.specs.Prelude.{IfOk};
ghost use Rattle.sc_terms.specs.Tables.{Keeps};
ghost use Rattle.sc_solver_tests.specs.Goals.{IsGoal};

use sc_schema::Ty;
use sc_sorts::{plain_fields, sort_of};
use sc_terms::Terms;
use std::alloc::{AllocError, Global};

/// The attribute at a place of a context of truth values. That there is none counts as want of
/// memory.
fn attribute(alloc: Global, terms: &mut Terms, ty: &Ty, place: usize) -> Result<u64, AllocError>
    ensures goal { IfOk result (λ n. IsGoal ty.now terms.new n) }
    ensures kept { Keeps terms.old terms.new }
{
    let Some(fields) = plain_fields(ty) else {
        return Err(AllocError);
    };
    let Some(field) = fields.get(place) else {
        return Err(AllocError);
    };
    let context = terms.context(sort_of(alloc, ty)?)?;
    let number = terms.field(context, field.0.try_clone(alloc)?)?;
    Ok(number)
}

#[tactic(auto, using(crate::proofs::GoalLaws::truth_goal))]
fn constant(terms: &mut Terms, ty: &Ty, value: bool) -> Result<u64, AllocError>
    ensures goal { IfOk result (λ n. IsGoal ty.now terms.new n) }
    ensures kept { Keeps terms.old terms.new }
{
    let _ = ty;
    terms.truth(value)
}

/// The goal of a letter.
fn leaf(alloc: Global, terms: &mut Terms, ty: &Ty, letter: u8) -> Result<u64, AllocError>
    ensures goal { IfOk result (λ n. IsGoal ty.now terms.new n) }
    ensures kept { Keeps terms.old terms.new }
{
    match letter {
        b't' => constant(terms, ty, true),
        b'f' => constant(terms, ty, false),
        b'a' => attribute(alloc, terms, ty, 0),
        _ => attribute(alloc, terms, ty, 1),
    }
}

#[tactic(auto, using(crate::proofs::GoalLaws::not_goal))]
fn negated(terms: &mut Terms, ty: &Ty, goal: u64) -> Result<u64, AllocError>
    requires { IsGoal ty.now terms.old goal }
    ensures goal { IfOk result (λ n. IsGoal ty.now terms.new n) }
    ensures kept { Keeps terms.old terms.new }
{
    let _ = ty;
    terms.not(goal)
}

/// Two goals, joined by a sign.
#[tactic(auto, using(crate::proofs::GoalLaws::and_goal, crate::proofs::GoalLaws::or_goal, crate::proofs::GoalLaws::equal_goal))]
fn joined(terms: &mut Terms, ty: &Ty, sign: u8, left: u64, right: u64) -> Result<u64, AllocError>
    requires left { IsGoal ty.now terms.old left }
    requires right { IsGoal ty.now terms.old right }
    ensures goal { IfOk result (λ n. IsGoal ty.now terms.new n) }
    ensures kept { Keeps terms.old terms.new }
{
    let _ = ty;
    match sign {
        b'&' => terms.and(left, right),
        b'|' => terms.or(left, right),
        _ => terms.equal(left, right),
    }
}

/// The last three goals, after a letter or a sign. Where there are fewer, one stands twice.
#[tactic(auto, using(crate::proofs::GoalLaws::goal_kept))]
fn after(
    alloc: Global,
    terms: &mut Terms,
    ty: &Ty,
    last: (u64, u64, u64),
    letter: u8,
) -> Result<(u64, u64, u64), AllocError>
    requires first_is { IsGoal ty.now terms.old last.0 }
    requires second_is { IsGoal ty.now terms.old last.1 }
    requires third_is { IsGoal ty.now terms.old last.2 }
    ensures first { IfOk result (λ x. IsGoal ty.now terms.new x.0) }
    ensures second { IfOk result (λ x. IsGoal ty.now terms.new x.1) }
    ensures third { IfOk result (λ x. IsGoal ty.now terms.new x.2) }
{
    let (a, b, c) = last;
    match letter {
        b'!' => Ok((a, b, negated(terms, ty, c)?)),
        b'&' | b'|' | b'=' => Ok((a, a, joined(terms, ty, letter, b, c)?)),
        _ => Ok((b, c, leaf(alloc, terms, ty, letter)?)),
    }
}

/// The number of a goal that is written, where the context is of this type.
pub(crate) fn number_of(
    alloc: Global,
    terms: &mut Terms,
    ty: &Ty,
    text: &str,
) -> Result<u64, AllocError>
    ensures { IfOk result (λ n. IsGoal ty.now terms.new n) }
{
    let yes = constant(terms, ty, true)?;
    let mut last = (yes, yes, yes);
    for letter in text.as_bytes() {
        last = after(alloc, terms, ty, last, *letter)?;
    }
    Ok(last.2)
}
