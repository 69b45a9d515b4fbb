//! Expressions without places.
ghost use Rattle.std.specs.Prelude.{◌≡◌, ℕ, List, map, IfOk};
ghost use Rattle.sc_ast.specs.declared.expr.Expr.{Expr as AnyExpr};
ghost use Rattle.sc_typed.specs.Capabilities.{nowhere, bare, bare_name};

use sc_ast::{BinaryOperator, Expr, Literal, Place, TypeName, UnaryOperator};
use sc_lists::{Boxed, Seq, Text};
use sc_pattern::Pattern;
use std::alloc::{AllocError, Global};

/// The place in every expression without places.
pub const NOWHERE: Place = Place { offset: 0 };

/// A copy of an expression in which each place is 0. The copying goes as deep as the expression does.
#[cycle(bare)]
#[tactic(auto, unfolding(crate::specs::Capabilities::bare))]
pub fn bare(alloc: Global, expr: &Expr) -> Result<Expr, AllocError>
    ensures { IfOk result (λ copy. copy ≡ bare expr.now) }
{
    match expr {
        Expr::If(_, c, a, b) => bare_choice(alloc, c, a, b),
        Expr::Or(_, a, b) => bare_or(alloc, a, b),
        Expr::And(_, a, b) => bare_and(alloc, a, b),
        Expr::Binary(_, operator, a, b) => bare_binary(alloc, *operator, a, b),
        Expr::Has(_, a, names) => bare_has(alloc, a, names),
        Expr::Like(_, a, pattern) => bare_like(alloc, a, pattern),
        Expr::Is(_, a, type_name) => bare_is(alloc, a, type_name),
        Expr::IsIn(_, a, type_name, _, b) => bare_is_in(alloc, a, type_name, b),
        Expr::Unary(_, operator, a) => bare_unary(alloc, *operator, a),
        Expr::Access(_, a, name) => bare_access(alloc, a, name),
        Expr::Literal(_, literal) => bare_literal(alloc, literal),
        Expr::Variable(_, variable) => Ok(Expr::Variable(NOWHERE, *variable)),
        Expr::Set(_, members) => bare_set(alloc, members),
        Expr::Record(_, fields) => bare_record(alloc, fields),
    }
}

/// A part of an expression without places.
#[cycle(bare)]
fn bare_boxed(alloc: Global, expr: &Boxed<Expr>) -> Result<Boxed<Expr>, AllocError>
    ensures { IfOk result (λ copy. copy ≡ bare expr.now) }
{
    Boxed::new(alloc, bare(alloc, expr.get())?)
}

/// `if c then a else b` without places.
#[cycle(bare)]
fn bare_choice(
    alloc: Global,
    c: &Boxed<Expr>,
    a: &Boxed<Expr>,
    b: &Boxed<Expr>,
) -> Result<Expr, AllocError>
    ensures { IfOk result (λ copy. copy ≡ Expr.If nowhere (bare c.now) (bare a.now) (bare b.now)) }
{
    Ok(Expr::If(
        NOWHERE,
        bare_boxed(alloc, c)?,
        bare_boxed(alloc, a)?,
        bare_boxed(alloc, b)?,
    ))
}

/// `a || b` without places.
#[cycle(bare)]
fn bare_or(alloc: Global, a: &Boxed<Expr>, b: &Boxed<Expr>) -> Result<Expr, AllocError>
    ensures { IfOk result (λ copy. copy ≡ Expr.Or nowhere (bare a.now) (bare b.now)) }
{
    Ok(Expr::Or(NOWHERE, bare_boxed(alloc, a)?, bare_boxed(alloc, b)?))
}

/// `a && b` without places.
#[cycle(bare)]
fn bare_and(alloc: Global, a: &Boxed<Expr>, b: &Boxed<Expr>) -> Result<Expr, AllocError>
    ensures { IfOk result (λ copy. copy ≡ Expr.And nowhere (bare a.now) (bare b.now)) }
{
    Ok(Expr::And(NOWHERE, bare_boxed(alloc, a)?, bare_boxed(alloc, b)?))
}

/// An operator with two operands without places.
#[cycle(bare)]
fn bare_binary(
    alloc: Global,
    operator: BinaryOperator,
    a: &Boxed<Expr>,
    b: &Boxed<Expr>,
) -> Result<Expr, AllocError>
    ensures { IfOk result (λ copy. copy ≡ Expr.Binary nowhere operator (bare a.now) (bare b.now)) }
{
    Ok(Expr::Binary(
        NOWHERE,
        operator,
        bare_boxed(alloc, a)?,
        bare_boxed(alloc, b)?,
    ))
}

/// `a has b.c.d` without places.
#[cycle(bare)]
fn bare_has(alloc: Global, a: &Boxed<Expr>, names: &Seq<Text>) -> Result<Expr, AllocError>
    ensures { IfOk result (λ copy. copy ≡ Expr.Has nowhere (bare a.now) names.now) }
{
    Ok(Expr::Has(
        NOWHERE,
        bare_boxed(alloc, a)?,
        copy_of_names(alloc, names.as_slice())?,
    ))
}

/// `a like "pattern"` without places.
#[cycle(bare)]
fn bare_like(alloc: Global, a: &Boxed<Expr>, pattern: &Pattern) -> Result<Expr, AllocError>
    ensures { IfOk result (λ copy. copy ≡ Expr.Like nowhere (bare a.now) pattern.now) }
{
    Ok(Expr::Like(NOWHERE, bare_boxed(alloc, a)?, pattern.try_clone(alloc)?))
}

/// `a is T` without places.
#[cycle(bare)]
fn bare_is(alloc: Global, a: &Boxed<Expr>, type_name: &TypeName) -> Result<Expr, AllocError>
    ensures { IfOk result (λ copy. copy ≡ Expr.Is nowhere (bare a.now) (bare_name type_name.now)) }
{
    Ok(Expr::Is(NOWHERE, bare_boxed(alloc, a)?, bare_name(alloc, type_name)?))
}

/// `a is T in b` without places.
#[cycle(bare)]
fn bare_is_in(
    alloc: Global,
    a: &Boxed<Expr>,
    type_name: &TypeName,
    b: &Boxed<Expr>,
) -> Result<Expr, AllocError>
    ensures { IfOk result (λ copy. copy ≡ Expr.IsIn nowhere (bare a.now) (bare_name type_name.now) nowhere
        (bare b.now)) }
{
    Ok(Expr::IsIn(
        NOWHERE,
        bare_boxed(alloc, a)?,
        bare_name(alloc, type_name)?,
        NOWHERE,
        bare_boxed(alloc, b)?,
    ))
}

/// `a.name` without places.
#[cycle(bare)]
fn bare_access(alloc: Global, a: &Boxed<Expr>, name: &Text) -> Result<Expr, AllocError>
    ensures { IfOk result (λ copy. copy ≡ Expr.Access nowhere (bare a.now) name.now) }
{
    Ok(Expr::Access(NOWHERE, bare_boxed(alloc, a)?, name.try_clone(alloc)?))
}

/// A prefix, or a call with one operand, without places.
#[cycle(bare)]
fn bare_unary(alloc: Global, operator: UnaryOperator, a: &Boxed<Expr>) -> Result<Expr, AllocError>
    ensures { IfOk result (λ copy. copy ≡ Expr.Unary nowhere operator (bare a.now)) }
{
    Ok(Expr::Unary(NOWHERE, operator, bare_boxed(alloc, a)?))
}

/// A literal without a place.
fn bare_literal(alloc: Global, literal: &Literal) -> Result<Expr, AllocError>
    ensures { IfOk result (λ copy. copy ≡ Expr.Literal nowhere literal.now) }
{
    Ok(Expr::Literal(NOWHERE, literal.try_clone(alloc)?))
}

/// `[a, b]` without places.
#[cycle(bare)]
fn bare_set(alloc: Global, members: &Seq<Expr>) -> Result<Expr, AllocError>
    ensures { IfOk result (λ copy. copy ≡ Expr.Set nowhere (map bare members.now)) }
{
    let mut copies = Seq::new(alloc);
    for member in members.as_slice() {
        copies.push(bare(alloc, member)?)?;
    }
    Ok(Expr::Set(NOWHERE, copies))
}

/// `{a: x, "b": y}` without places.
#[cycle(bare)]
fn bare_record(alloc: Global, fields: &Seq<(Text, Expr)>) -> Result<Expr, AllocError>
    ensures { IfOk result (λ copy. copy ≡ Expr.Record nowhere
        (map (λ (f : List ℕ × AnyExpr). (f.0, bare f.1)) fields.now)) }
{
    let mut copies = Seq::new(alloc);
    for field in fields.as_slice() {
        copies.push((field.0.try_clone(alloc)?, bare(alloc, &field.1)?))?;
    }
    Ok(Expr::Record(NOWHERE, copies))
}

fn bare_name(alloc: Global, type_name: &TypeName) -> Result<TypeName, AllocError>
    ensures { IfOk result (λ copy. copy ≡ bare_name type_name.now) }
{
    Ok(TypeName {
        place: NOWHERE,
        name: type_name.name.try_clone(alloc)?,
    })
}

/// Copies of names.
pub fn copy_of_names(alloc: Global, names: &[Text]) -> Result<Seq<Text>, AllocError>
    ensures { IfOk result (λ copies. copies ≡ names.now) }
{
    let mut copies = Seq::new(alloc);
    for name in names {
        copies.push(name.try_clone(alloc)?)?;
    }
    Ok(copies)
}
