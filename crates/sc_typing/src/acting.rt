//! Expressions with the action's uid in place of `action`.
ghost use Rattle.std.specs.Prelude.{◌≡◌, ℕ, List, map, IfOk};
ghost use Rattle.sc_ast.specs.declared.expr.Expr.{Expr as AnyExpr};
ghost use Rattle.sc_typing.specs.Policies.{acting, acting_variable};

use sc_ast::{BinaryOperator, Expr, Literal, Place, TypeName, UnaryOperator, Variable};
use sc_lists::{Boxed, Seq, Text};
use sc_names::Uid;
use sc_pattern::Pattern;
use sc_typed::bare::copy_of_names;
use std::alloc::{AllocError, Global};

/// A copy of an expression with the action's uid in place of `action`. The copying goes as deep as
/// the expression does.
#[cycle(acting)]
#[tactic(auto, unfolding(crate::specs::Policies::acting))]
fn acting(alloc: Global, action: &Uid, expr: &Expr) -> Result<Expr, AllocError>
    ensures { IfOk result (λ copy. copy ≡ acting action.now expr.now) }
{
    match expr {
        Expr::If(place, c, a, b) => acting_choice(alloc, action, *place, c, a, b),
        Expr::Or(place, a, b) => acting_or(alloc, action, *place, a, b),
        Expr::And(place, a, b) => acting_and(alloc, action, *place, a, b),
        Expr::Binary(place, o, a, b) => acting_binary(alloc, action, *place, *o, a, b),
        Expr::Has(place, a, names) => acting_has(alloc, action, *place, a, names),
        Expr::Like(place, a, pattern) => acting_like(alloc, action, *place, a, pattern),
        Expr::Is(place, a, type_name) => acting_is(alloc, action, *place, a, type_name),
        Expr::IsIn(place, a, t, at, b) => acting_is_in(alloc, action, *place, a, t, *at, b),
        Expr::Unary(place, operator, a) => acting_unary(alloc, action, *place, *operator, a),
        Expr::Access(place, a, name) => acting_access(alloc, action, *place, a, name),
        Expr::Literal(place, literal) => copy_of_literal(alloc, *place, literal),
        Expr::Variable(place, variable) => acting_variable(alloc, action, *place, *variable),
        Expr::Set(place, members) => acting_set(alloc, action, *place, members),
        Expr::Record(place, fields) => acting_record(alloc, action, *place, fields),
    }
}

/// A part of an expression with the action's uid.
#[cycle(acting)]
pub(crate) fn acting_boxed(
    alloc: Global,
    action: &Uid,
    expr: &Boxed<Expr>,
) -> Result<Boxed<Expr>, AllocError>
    ensures { IfOk result (λ copy. copy ≡ acting action.now expr.now) }
{
    Boxed::new(alloc, acting(alloc, action, expr.get())?)
}

/// `if c then a else b` with the action's uid.
#[cycle(acting)]
fn acting_choice(
    alloc: Global,
    action: &Uid,
    place: Place,
    c: &Boxed<Expr>,
    a: &Boxed<Expr>,
    b: &Boxed<Expr>,
) -> Result<Expr, AllocError>
    ensures { IfOk result (λ copy. copy
        ≡ Expr.If place (acting action.now c.now) (acting action.now a.now) (acting action.now b.now)) }
{
    Ok(Expr::If(
        place,
        acting_boxed(alloc, action, c)?,
        acting_boxed(alloc, action, a)?,
        acting_boxed(alloc, action, b)?,
    ))
}

/// `a || b` with the action's uid.
#[cycle(acting)]
fn acting_or(
    alloc: Global,
    action: &Uid,
    place: Place,
    a: &Boxed<Expr>,
    b: &Boxed<Expr>,
) -> Result<Expr, AllocError>
    ensures { IfOk result (λ copy. copy ≡ Expr.Or place (acting action.now a.now) (acting action.now b.now)) }
{
    Ok(Expr::Or(
        place,
        acting_boxed(alloc, action, a)?,
        acting_boxed(alloc, action, b)?,
    ))
}

/// `a && b` with the action's uid.
#[cycle(acting)]
fn acting_and(
    alloc: Global,
    action: &Uid,
    place: Place,
    a: &Boxed<Expr>,
    b: &Boxed<Expr>,
) -> Result<Expr, AllocError>
    ensures { IfOk result (λ copy. copy ≡ Expr.And place (acting action.now a.now) (acting action.now b.now)) }
{
    Ok(Expr::And(
        place,
        acting_boxed(alloc, action, a)?,
        acting_boxed(alloc, action, b)?,
    ))
}

/// An operator with two operands, with the action's uid.
#[cycle(acting)]
fn acting_binary(
    alloc: Global,
    action: &Uid,
    place: Place,
    operator: BinaryOperator,
    a: &Boxed<Expr>,
    b: &Boxed<Expr>,
) -> Result<Expr, AllocError>
    ensures { IfOk result (λ copy. copy ≡ Expr.Binary place operator (acting action.now a.now)
        (acting action.now b.now)) }
{
    Ok(Expr::Binary(
        place,
        operator,
        acting_boxed(alloc, action, a)?,
        acting_boxed(alloc, action, b)?,
    ))
}

/// `a has b.c.d` with the action's uid.
#[cycle(acting)]
fn acting_has(
    alloc: Global,
    action: &Uid,
    place: Place,
    a: &Boxed<Expr>,
    names: &Seq<Text>,
) -> Result<Expr, AllocError>
    ensures { IfOk result (λ copy. copy ≡ Expr.Has place (acting action.now a.now) names.now) }
{
    Ok(Expr::Has(
        place,
        acting_boxed(alloc, action, a)?,
        copy_of_names(alloc, names.as_slice())?,
    ))
}

/// `a like "pattern"` with the action's uid.
#[cycle(acting)]
fn acting_like(
    alloc: Global,
    action: &Uid,
    place: Place,
    a: &Boxed<Expr>,
    pattern: &Pattern,
) -> Result<Expr, AllocError>
    ensures { IfOk result (λ copy. copy ≡ Expr.Like place (acting action.now a.now) pattern.now) }
{
    Ok(Expr::Like(
        place,
        acting_boxed(alloc, action, a)?,
        pattern.try_clone(alloc)?,
    ))
}

/// `a is T` with the action's uid.
#[cycle(acting)]
fn acting_is(
    alloc: Global,
    action: &Uid,
    place: Place,
    a: &Boxed<Expr>,
    type_name: &TypeName,
) -> Result<Expr, AllocError>
    ensures { IfOk result (λ copy. copy ≡ Expr.Is place (acting action.now a.now) type_name.now) }
{
    Ok(Expr::Is(
        place,
        acting_boxed(alloc, action, a)?,
        type_name.try_clone(alloc)?,
    ))
}

/// `a is T in b` with the action's uid.
#[cycle(acting)]
fn acting_is_in(
    alloc: Global,
    action: &Uid,
    place: Place,
    a: &Boxed<Expr>,
    type_name: &TypeName,
    in_place: Place,
    b: &Boxed<Expr>,
) -> Result<Expr, AllocError>
    ensures { IfOk result (λ copy. copy
        ≡ Expr.IsIn place (acting action.now a.now) type_name.now in_place (acting action.now b.now)) }
{
    Ok(Expr::IsIn(
        place,
        acting_boxed(alloc, action, a)?,
        type_name.try_clone(alloc)?,
        in_place,
        acting_boxed(alloc, action, b)?,
    ))
}

/// `a.name` with the action's uid.
#[cycle(acting)]
fn acting_access(
    alloc: Global,
    action: &Uid,
    place: Place,
    a: &Boxed<Expr>,
    name: &Text,
) -> Result<Expr, AllocError>
    ensures { IfOk result (λ copy. copy ≡ Expr.Access place (acting action.now a.now) name.now) }
{
    Ok(Expr::Access(
        place,
        acting_boxed(alloc, action, a)?,
        name.try_clone(alloc)?,
    ))
}

/// A prefix, or a call with one operand, with the action's uid.
#[cycle(acting)]
fn acting_unary(
    alloc: Global,
    action: &Uid,
    place: Place,
    operator: UnaryOperator,
    a: &Boxed<Expr>,
) -> Result<Expr, AllocError>
    ensures { IfOk result (λ copy. copy ≡ Expr.Unary place operator (acting action.now a.now)) }
{
    Ok(Expr::Unary(place, operator, acting_boxed(alloc, action, a)?))
}

/// `[a, b]` with the action's uid.
#[cycle(acting)]
fn acting_set(
    alloc: Global,
    action: &Uid,
    place: Place,
    members: &Seq<Expr>,
) -> Result<Expr, AllocError>
    ensures { IfOk result (λ copy. copy ≡ Expr.Set place (map (acting action.now) members.now)) }
{
    let mut copies = Seq::new(alloc);
    for member in members.as_slice() {
        copies.push(acting(alloc, action, member)?)?;
    }
    Ok(Expr::Set(place, copies))
}

/// `{a: x, "b": y}` with the action's uid.
#[cycle(acting)]
fn acting_record(
    alloc: Global,
    action: &Uid,
    place: Place,
    fields: &Seq<(Text, Expr)>,
) -> Result<Expr, AllocError>
    ensures { IfOk result (λ copy. copy ≡ Expr.Record place (map (λ (f : List ℕ × AnyExpr).
        (f.0, acting action.now f.1)) fields.now)) }
{
    let mut copies = Seq::new(alloc);
    for field in fields.as_slice() {
        copies.push((field.0.try_clone(alloc)?, acting(alloc, action, &field.1)?))?;
    }
    Ok(Expr::Record(place, copies))
}

/// A literal, in which nothing is replaced.
fn copy_of_literal(alloc: Global, place: Place, literal: &Literal) -> Result<Expr, AllocError>
    ensures { IfOk result (λ copy. copy ≡ Expr.Literal place literal.now) }
{
    Ok(Expr::Literal(place, literal.try_clone(alloc)?))
}

/// A variable, or the action's uid in its place.
fn acting_variable(
    alloc: Global,
    action: &Uid,
    place: Place,
    variable: Variable,
) -> Result<Expr, AllocError>
    ensures { IfOk result (λ e. e ≡ acting_variable action.now place variable) }
{
    match variable {
        Variable::Action => Ok(Expr::Literal(place, Literal::Entity(action.try_clone(alloc)?))),
        _ => Ok(Expr::Variable(place, variable)),
    }
}
