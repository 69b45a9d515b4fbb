//! `if`, `||` and `&&`, of operands with their types.
ghost use Rattle.std.specs.Prelude.{◌≡◌, ◌++◌, [], IfOk, if◌then◌else◌};
ghost use Rattle.sc_lists.specs.Told.{Gives};
ghost use Rattle.sc_typed.specs.Capabilities.{common};
ghost use Rattle.sc_typed.specs.Outcomes.{ty, made, joined};
ghost use Rattle.sc_typed.specs.Types.{is_false};
ghost use Rattle.sc_typing_rules.specs.Rules.{first_branch, second_branch, branches, or_type, or_given, disjunction, and_type, and_given, conjunction};

use crate::outcome::{made, plain};
use sc_ast::{Expr, Place, try_clone};
use sc_lists::{Boxed, Fault, Seq};
use sc_schema::Ty;
use sc_typed::capability::{common, joined};
use sc_typed::operands::{boolean, copy_of_ty, is_false, is_true};
use sc_typed::types::join;
use sc_typed::{Capability, TypeFault, TypeRule, Typed, TypedExpr};
use std::alloc::{AllocError, Global};

/// An expression that is skipped.
pub fn skipped(alloc: Global, expr: &Expr) -> Result<Boxed<TypedExpr>, AllocError>
    ensures { IfOk result (λ x. x ≡ TypedExpr.Skipped expr.now) }
{
    Boxed::new(alloc, TypedExpr::Skipped(try_clone(alloc, expr)?))
}

/// The type that two types join to; where they don't, a fault at a place.
pub fn joined_type(alloc: Global, place: Place, a: &Ty, b: &Ty) -> Result<Ty, Fault<TypeFault>>
    ensures { Gives result (joined place a.now b.now) }
{
    match join(alloc, a, b)? {
        Some(both) => Ok(both),
        None => Err(Fault::Told(TypeFault {
            rule: TypeRule::NoJoin,
            at: place,
        })),
    }
}

/// `if c then a else b` where c is always true.
pub fn first_branch(
    alloc: Global,
    place: Place,
    c: Typed,
    a: Typed,
    b: &Expr,
) -> Result<Typed, AllocError>
    ensures { IfOk result (λ x. x ≡ first_branch place c a b.now) }
{
    let other = skipped(alloc, b)?;
    let Typed {
        expr: c,
        given: first,
    } = c;
    let Typed {
        expr: a,
        given: second,
    } = a;
    let given = joined(first, second)?;
    let ty = copy_of_ty(alloc, a.get())?;
    made(alloc, TypedExpr::If(place, ty, c, a, other), given)
}

/// `if c then a else b` where c is always false.
pub fn second_branch(
    alloc: Global,
    place: Place,
    c: Typed,
    a: &Expr,
    b: Typed,
) -> Result<Typed, AllocError>
    ensures { IfOk result (λ x. x ≡ second_branch place c a.now b) }
{
    let Typed { expr: taken, given } = b;
    let other = skipped(alloc, a)?;
    let ty = copy_of_ty(alloc, taken.get())?;
    let expr = TypedExpr::If(place, ty, c.into_expr(), other, taken);
    made(alloc, expr, given)
}

/// `if c then a else b` where c may be true or false.
pub fn branches(
    alloc: Global,
    place: Place,
    c: Typed,
    a: Typed,
    b: Typed,
) -> Result<Typed, Fault<TypeFault>>
    ensures { Gives result (branches place c a b) }
{
    boolean(c.expr.get())?;
    let ty = branches_type(alloc, place, a.expr.get(), b.expr.get())?;
    Ok(open_choice(alloc, place, ty, c, a, b)?)
}

/// `if c then a else b` of a type, where c may be true or false.
fn open_choice(
    alloc: Global,
    place: Place,
    ty: Ty,
    c: Typed,
    a: Typed,
    b: Typed,
) -> Result<Typed, AllocError>
    ensures { IfOk result (λ x. x ≡ made (TypedExpr.If place ty c.expr a.expr b.expr)
        (common (c.given ++ a.given) b.given)) }
{
    let expr = Boxed::new(alloc, TypedExpr::If(place, ty, c.expr, a.expr, b.expr))?;
    let given = common(alloc, joined(c.given, a.given)?, b.given.as_slice())?;
    Ok(Typed { expr, given })
}

/// A copy of the type of an expression, in a box.
pub(crate) fn boxed_type(alloc: Global, x: &TypedExpr) -> Result<Boxed<Ty>, AllocError>
    ensures { IfOk result (λ copy. copy ≡ ty x.now) }
{
    Boxed::new(alloc, copy_of_ty(alloc, x)?)
}

/// The type that those of two expressions join to; where they don't, a fault at a place.
pub fn branches_type(
    alloc: Global,
    place: Place,
    a: &TypedExpr,
    b: &TypedExpr,
) -> Result<Ty, Fault<TypeFault>>
    ensures { Gives result (joined place (ty a.now) (ty b.now)) }
{
    let first = boxed_type(alloc, a)?;
    joined_with(alloc, place, first.get(), b)
}

/// The type that a type and that of an expression join to; where they don't, a fault at a place.
pub(crate) fn joined_with(
    alloc: Global,
    place: Place,
    first: &Ty,
    b: &TypedExpr,
) -> Result<Ty, Fault<TypeFault>>
    ensures { Gives result (joined place first.now (ty b.now)) }
{
    let second = boxed_type(alloc, b)?;
    joined_type(alloc, place, first, second.get())
}

/// `a || b` where a isn't always true.
pub fn disjunction(
    alloc: Global,
    place: Place,
    a: Typed,
    b: Typed,
) -> Result<Typed, Fault<TypeFault>>
    ensures { Gives result (disjunction place a b) }
{
    boolean(a.expr.get())?;
    boolean(b.expr.get())?;
    Ok(either(alloc, place, a, b)?)
}

/// `a || b` of two truth values.
fn either(alloc: Global, place: Place, a: Typed, b: Typed) -> Result<Typed, AllocError>
    ensures { IfOk result (λ x. x ≡ made (TypedExpr.Or place (or_type a.expr b.expr) a.expr b.expr) (or_given a b)) }
{
    let Typed {
        expr: a,
        given: first,
    } = a;
    let Typed {
        expr: b,
        given: second,
    } = b;
    let given = or_given(alloc, a.get(), b.get(), first, second)?;
    let ty = or_type(alloc, a.get(), b.get())?;
    made(alloc, TypedExpr::Or(place, ty, a, b), given)
}

fn or_type(alloc: Global, a: &TypedExpr, b: &TypedExpr) -> Result<Ty, AllocError>
    ensures { IfOk result (λ t. t ≡ or_type a.now b.now) }
{
    if is_false(a) {
        return copy_of_ty(alloc, b);
    }
    if is_true(b) {
        return Ok(Ty::True);
    }
    Ok(Ty::Bool)
}

/// What a disjunction gives, of what its operands give.
fn or_given(
    alloc: Global,
    a: &TypedExpr,
    b: &TypedExpr,
    first: Seq<Capability>,
    second: Seq<Capability>,
) -> Result<Seq<Capability>, AllocError>
    ensures { IfOk result (λ given. given ≡ or_given (made a.now first) (made b.now second)) }
{
    if is_false(a) {
        return Ok(second);
    }
    if is_true(b) {
        return Ok(Seq::new(alloc));
    }
    if is_false(b) {
        return Ok(first);
    }
    common(alloc, first, second.as_slice())
}

/// `a && b` where a isn't always false.
pub fn conjunction(
    alloc: Global,
    place: Place,
    a: Typed,
    b: Typed,
) -> Result<Typed, Fault<TypeFault>>
    ensures { Gives result (conjunction place a b) }
{
    boolean(a.expr.get())?;
    boolean(b.expr.get())?;
    Ok(both(alloc, place, a, b)?)
}

/// `a && b` of two truth values.
fn both(alloc: Global, place: Place, a: Typed, b: Typed) -> Result<Typed, AllocError>
    ensures { IfOk result (λ x. x ≡ made (TypedExpr.And place (and_type a.expr b.expr) a.expr b.expr) (and_given a b)) }
{
    let Typed {
        expr: a,
        given: first,
    } = a;
    let Typed {
        expr: b,
        given: second,
    } = b;
    let given = and_given(alloc, b.get(), first, second)?;
    let ty = and_type(alloc, a.get(), b.get())?;
    made(alloc, TypedExpr::And(place, ty, a, b), given)
}

fn and_type(alloc: Global, a: &TypedExpr, b: &TypedExpr) -> Result<Ty, AllocError>
    ensures { IfOk result (λ t. t ≡ and_type a.now b.now) }
{
    if is_false(b) {
        return Ok(Ty::False);
    }
    if is_true(b) {
        return copy_of_ty(alloc, a);
    }
    Ok(Ty::Bool)
}

/// What a conjunction gives, of what its operands give.
fn and_given(
    alloc: Global,
    b: &TypedExpr,
    first: Seq<Capability>,
    second: Seq<Capability>,
) -> Result<Seq<Capability>, AllocError>
    ensures { IfOk result (λ given. given ≡ (if is_false (ty b.now) then [] else first ++ second)) }
{
    if is_false(b) {
        return Ok(Seq::new(alloc));
    }
    joined(first, second)
}

/// `a || b` where a is always true.
pub fn or_true(alloc: Global, place: Place, a: Typed, b: &Expr) -> Result<Typed, AllocError>
    ensures { IfOk result (λ x. x ≡ made (TypedExpr.Or place Ty.True a.expr (TypedExpr.Skipped b.now)) []) }
{
    let other = skipped(alloc, b)?;
    plain(alloc, TypedExpr::Or(place, Ty::True, a.into_expr(), other))
}

/// `a && b` where a is always false.
pub fn and_false(alloc: Global, place: Place, a: Typed, b: &Expr) -> Result<Typed, AllocError>
    ensures { IfOk result (λ x. x ≡ made (TypedExpr.And place Ty.False a.expr (TypedExpr.Skipped b.now)) []) }
{
    let other = skipped(alloc, b)?;
    plain(
        alloc,
        TypedExpr::And(place, Ty::False, a.into_expr(), other),
    )
}
