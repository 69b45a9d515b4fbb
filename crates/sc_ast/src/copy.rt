//! Copies of expressions. The copying goes as deep as the expression does.
ghost use Rattle.std.specs.Prelude.{◌≡◌, IfOk};

use crate::expr::{Expr, TypeName};
use crate::literal::Literal;
use crate::operator::{BinaryOperator, UnaryOperator};
use crate::place::Place;
use sc_lists::{Boxed, Seq, Text};
use sc_pattern::Pattern;
use std::alloc::{AllocError, Global};

/// A copy, which equals the expression.
#[cycle(copy)]
pub fn try_clone(alloc: Global, expr: &Expr) -> Result<Expr, AllocError>
    ensures { IfOk result (λ copy. copy ≡ expr.now) }
{
    match expr {
        Expr::If(place, c, a, b) => clone_choice(alloc, *place, c, a, b),
        Expr::Or(place, a, b) => clone_or(alloc, *place, a, b),
        Expr::And(place, a, b) => clone_and(alloc, *place, a, b),
        Expr::Binary(place, operator, a, b) => clone_binary(alloc, *place, *operator, a, b),
        Expr::Has(place, a, names) => clone_has(alloc, *place, a, names),
        Expr::Like(place, a, pattern) => clone_like(alloc, *place, a, pattern),
        Expr::Is(place, a, type_name) => clone_is(alloc, *place, a, type_name),
        Expr::IsIn(place, a, t, in_place, b) => clone_is_in(alloc, *place, a, t, *in_place, b),
        Expr::Unary(place, operator, a) => clone_unary(alloc, *place, *operator, a),
        Expr::Access(place, a, name) => clone_access(alloc, *place, a, name),
        Expr::Literal(place, literal) => clone_literal(alloc, *place, literal),
        Expr::Variable(place, variable) => Ok(Expr::Variable(*place, *variable)),
        Expr::Set(place, members) => clone_set(alloc, *place, members),
        Expr::Record(place, fields) => clone_record(alloc, *place, fields),
    }
}

/// A copy of an expression that is part of another one.
#[cycle(copy)]
fn boxed(alloc: Global, expr: &Boxed<Expr>) -> Result<Boxed<Expr>, AllocError>
    ensures { IfOk result (λ copy. copy ≡ expr.now) }
{
    Boxed::new(alloc, try_clone(alloc, expr.get())?)
}

/// A copy of `if c then a else b`.
#[cycle(copy)]
fn clone_choice(
    alloc: Global,
    place: Place,
    c: &Boxed<Expr>,
    a: &Boxed<Expr>,
    b: &Boxed<Expr>,
) -> Result<Expr, AllocError>
    ensures { IfOk result (λ copy. copy ≡ Expr.If place c.now a.now b.now) }
{
    Ok(Expr::If(place, boxed(alloc, c)?, boxed(alloc, a)?, boxed(alloc, b)?))
}

/// A copy of `a || b`.
#[cycle(copy)]
fn clone_or(
    alloc: Global,
    place: Place,
    a: &Boxed<Expr>,
    b: &Boxed<Expr>,
) -> Result<Expr, AllocError>
    ensures { IfOk result (λ copy. copy ≡ Expr.Or place a.now b.now) }
{
    Ok(Expr::Or(place, boxed(alloc, a)?, boxed(alloc, b)?))
}

/// A copy of `a && b`.
#[cycle(copy)]
fn clone_and(
    alloc: Global,
    place: Place,
    a: &Boxed<Expr>,
    b: &Boxed<Expr>,
) -> Result<Expr, AllocError>
    ensures { IfOk result (λ copy. copy ≡ Expr.And place a.now b.now) }
{
    Ok(Expr::And(place, boxed(alloc, a)?, boxed(alloc, b)?))
}

/// A copy of an operator with two operands.
#[cycle(copy)]
fn clone_binary(
    alloc: Global,
    place: Place,
    operator: BinaryOperator,
    a: &Boxed<Expr>,
    b: &Boxed<Expr>,
) -> Result<Expr, AllocError>
    ensures { IfOk result (λ copy. copy ≡ Expr.Binary place operator a.now b.now) }
{
    Ok(Expr::Binary(place, operator, boxed(alloc, a)?, boxed(alloc, b)?))
}

/// A copy of `a has b.c.d`.
#[cycle(copy)]
fn clone_has(
    alloc: Global,
    place: Place,
    a: &Boxed<Expr>,
    names: &Seq<Text>,
) -> Result<Expr, AllocError>
    ensures { IfOk result (λ copy. copy ≡ Expr.Has place a.now names.now) }
{
    Ok(Expr::Has(place, boxed(alloc, a)?, clone_names(alloc, names)?))
}

/// A copy of `a like "pattern"`.
#[cycle(copy)]
fn clone_like(
    alloc: Global,
    place: Place,
    a: &Boxed<Expr>,
    pattern: &Pattern,
) -> Result<Expr, AllocError>
    ensures { IfOk result (λ copy. copy ≡ Expr.Like place a.now pattern.now) }
{
    Ok(Expr::Like(place, boxed(alloc, a)?, pattern.try_clone(alloc)?))
}

/// A copy of `a is T`.
#[cycle(copy)]
fn clone_is(
    alloc: Global,
    place: Place,
    a: &Boxed<Expr>,
    type_name: &TypeName,
) -> Result<Expr, AllocError>
    ensures { IfOk result (λ copy. copy ≡ Expr.Is place a.now type_name.now) }
{
    Ok(Expr::Is(place, boxed(alloc, a)?, type_name.try_clone(alloc)?))
}

/// A copy of `a is T in b`.
#[cycle(copy)]
fn clone_is_in(
    alloc: Global,
    place: Place,
    a: &Boxed<Expr>,
    type_name: &TypeName,
    in_place: Place,
    b: &Boxed<Expr>,
) -> Result<Expr, AllocError>
    ensures { IfOk result (λ copy. copy ≡ Expr.IsIn place a.now type_name.now in_place b.now) }
{
    Ok(Expr::IsIn(
        place,
        boxed(alloc, a)?,
        type_name.try_clone(alloc)?,
        in_place,
        boxed(alloc, b)?,
    ))
}

/// A copy of `a.name`.
#[cycle(copy)]
fn clone_access(
    alloc: Global,
    place: Place,
    a: &Boxed<Expr>,
    name: &Text,
) -> Result<Expr, AllocError>
    ensures { IfOk result (λ copy. copy ≡ Expr.Access place a.now name.now) }
{
    Ok(Expr::Access(place, boxed(alloc, a)?, name.try_clone(alloc)?))
}

/// A copy of a prefix, or of a call with one operand.
#[cycle(copy)]
fn clone_unary(
    alloc: Global,
    place: Place,
    operator: UnaryOperator,
    a: &Boxed<Expr>,
) -> Result<Expr, AllocError>
    ensures { IfOk result (λ copy. copy ≡ Expr.Unary place operator a.now) }
{
    Ok(Expr::Unary(place, operator, boxed(alloc, a)?))
}

/// A copy of a literal.
fn clone_literal(alloc: Global, place: Place, literal: &Literal) -> Result<Expr, AllocError>
    ensures { IfOk result (λ copy. copy ≡ Expr.Literal place literal.now) }
{
    Ok(Expr::Literal(place, literal.try_clone(alloc)?))
}

/// A copy of `[a, b]`.
#[cycle(copy)]
fn clone_set(alloc: Global, place: Place, members: &Seq<Expr>) -> Result<Expr, AllocError>
    ensures { IfOk result (λ copy. copy ≡ Expr.Set place members.now) }
{
    let mut copies = Seq::new(alloc);
    for member in members.as_slice() {
        copies.push(try_clone(alloc, member)?)?;
    }
    Ok(Expr::Set(place, copies))
}

/// A copy of `{a: x, "b": y}`.
#[cycle(copy)]
fn clone_record(alloc: Global, place: Place, fields: &Seq<(Text, Expr)>) -> Result<Expr, AllocError>
    ensures { IfOk result (λ copy. copy ≡ Expr.Record place fields.now) }
{
    let mut copies = Seq::new(alloc);
    for field in fields.as_slice() {
        copies.push((field.0.try_clone(alloc)?, try_clone(alloc, &field.1)?))?;
    }
    Ok(Expr::Record(place, copies))
}

/// Copies of names.
fn clone_names(alloc: Global, names: &Seq<Text>) -> Result<Seq<Text>, AllocError>
    ensures { IfOk result (λ copy. copy ≡ names.now) }
{
    let mut copies = Seq::new(alloc);
    for name in names.as_slice() {
        copies.push(name.try_clone(alloc)?)?;
    }
    Ok(copies)
}
