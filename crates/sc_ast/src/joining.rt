//! The condition of a policy: its scope and its clauses as one expression.
ghost use Rattle.std.specs.Prelude.{◌≡◌, fold, map, IfOk};
ghost use Rattle.sc_ast.specs.Conditions.{entity, is_in_any, required, joined, scope_part, action_part, clause, condition};

use crate::copy::try_clone;
use crate::expr::{Expr, TypeName, Variable};
use crate::literal::{EntityLiteral, Literal};
use crate::operator::{BinaryOperator, UnaryOperator};
use crate::place::Place;
use crate::policy::{Condition, ConditionKind, Policy};
use crate::scope::{ActionConstraint, ActionScope, Constraint, Scope};
use sc_lists::{Boxed, Seq};
use std::alloc::{AllocError, Global};

/// The condition of a policy: `true`, then the parts of its scope that aren't bare, then what each
/// clause asks, joined by `&&` from left to right. `unless` asks the negation of its expression, and
/// no action is in `[]`.
pub fn condition(alloc: Global, policy: &Policy) -> Result<Expr, AllocError>
    ensures { IfOk result (λ e. e ≡ condition policy.now) }
{
    let start = Boxed::new(alloc, Expr::Literal(policy.place, Literal::Bool(true)))?;
    let asked = with_scope(alloc, start, Variable::Principal, &policy.principal)?;
    let asked = with_action(alloc, asked, &policy.action)?;
    let asked = with_scope(alloc, asked, Variable::Resource, &policy.resource)?;
    with_clauses(alloc, asked, policy.conditions.as_slice())
}

/// What is asked so far, and then one thing more.
fn join(
    alloc: Global,
    asked: Boxed<Expr>,
    place: Place,
    more: Expr,
) -> Result<Boxed<Expr>, AllocError>
    ensures { IfOk result (λ e. e ≡ joined asked (place, more)) }
{
    let more = Boxed::new(alloc, more)?;
    Boxed::new(alloc, Expr::And(place, asked, more))
}

/// What is asked so far, and then what a scope asks of a variable.
fn with_scope(
    alloc: Global,
    asked: Boxed<Expr>,
    variable: Variable,
    scope: &Scope,
) -> Result<Boxed<Expr>, AllocError>
    ensures { IfOk result (λ e. e ≡ fold joined asked (scope_part variable scope.now)) }
{
    let x = Subject {
        place: scope.place,
        variable,
    };
    match &scope.constraint {
        Constraint::Any => Ok(asked),
        Constraint::Equal(place, l) => compared(alloc, asked, x, *place, BinaryOperator::Equal, l),
        Constraint::In(place, l) => compared(alloc, asked, x, *place, BinaryOperator::In, l),
        Constraint::Is(place, t) => typed(alloc, asked, x, *place, t),
        Constraint::IsIn(place, t, in_place, l) => {
            typed_in(alloc, asked, x, *place, t, *in_place, l)
        }
    }
}

/// What is asked so far, and then what a scope asks of the action.
fn with_action(
    alloc: Global,
    asked: Boxed<Expr>,
    scope: &ActionScope,
) -> Result<Boxed<Expr>, AllocError>
    ensures { IfOk result (λ e. e ≡ fold joined asked (action_part scope.now)) }
{
    let x = Subject {
        place: scope.place,
        variable: Variable::Action,
    };
    match &scope.constraint {
        ActionConstraint::Any => Ok(asked),
        ActionConstraint::Equal(place, l) => {
            compared(alloc, asked, x, *place, BinaryOperator::Equal, l)
        }
        ActionConstraint::In(place, l) => compared(alloc, asked, x, *place, BinaryOperator::In, l),
        ActionConstraint::InAny(place, bracket, ls) => {
            with_any(alloc, asked, x, *place, *bracket, ls)
        }
    }
}

/// The word that a part of the scope begins with.
#[derive(Clone, Copy)]
struct Subject {
    place: Place,
    variable: Variable,
}

/// The word as an expression.
fn boxed(alloc: Global, x: Subject) -> Result<Boxed<Expr>, AllocError>
    ensures { IfOk result (λ e. e ≡ Expr.Variable x.place x.variable) }
{
    Boxed::new(alloc, Expr::Variable(x.place, x.variable))
}

/// An entity as an expression.
fn entity(alloc: Global, l: &EntityLiteral) -> Result<Expr, AllocError>
    ensures { IfOk result (λ e. e ≡ entity l.now) }
{
    Ok(Expr::Literal(l.place, Literal::Entity(l.uid.try_clone(alloc)?)))
}

/// An entity as an expression that is part of another one.
fn boxed_entity(alloc: Global, l: &EntityLiteral) -> Result<Boxed<Expr>, AllocError>
    ensures { IfOk result (λ e. e ≡ entity l.now) }
{
    Boxed::new(alloc, entity(alloc, l)?)
}

/// What is asked so far, and then `x == E` or `x in E`.
fn compared(
    alloc: Global,
    asked: Boxed<Expr>,
    x: Subject,
    place: Place,
    operator: BinaryOperator,
    l: &EntityLiteral,
) -> Result<Boxed<Expr>, AllocError>
    ensures { IfOk result (λ e. e ≡ joined asked
        (x.place, Expr.Binary place operator (Expr.Variable x.place x.variable) (entity l.now))) }
{
    let left = boxed(alloc, x)?;
    let right = boxed_entity(alloc, l)?;
    join(
        alloc,
        asked,
        x.place,
        Expr::Binary(place, operator, left, right),
    )
}

/// What is asked so far, and then `x is T`.
fn typed(
    alloc: Global,
    asked: Boxed<Expr>,
    x: Subject,
    place: Place,
    t: &TypeName,
) -> Result<Boxed<Expr>, AllocError>
    ensures { IfOk result (λ e. e ≡ joined asked
        (x.place, Expr.Is place (Expr.Variable x.place x.variable) t.now)) }
{
    let name = t.try_clone(alloc)?;
    let left = boxed(alloc, x)?;
    join(alloc, asked, x.place, Expr::Is(place, left, name))
}

/// What is asked so far, and then `x is T in E`.
fn typed_in(
    alloc: Global,
    asked: Boxed<Expr>,
    x: Subject,
    place: Place,
    t: &TypeName,
    in_place: Place,
    l: &EntityLiteral,
) -> Result<Boxed<Expr>, AllocError>
    ensures { IfOk result (λ e. e ≡ joined asked
        (x.place, Expr.IsIn place (Expr.Variable x.place x.variable) t.now in_place (entity l.now))) }
{
    let name = t.try_clone(alloc)?;
    let left = boxed(alloc, x)?;
    let right = boxed_entity(alloc, l)?;
    join(
        alloc,
        asked,
        x.place,
        Expr::IsIn(place, left, name, in_place, right),
    )
}

/// What is asked so far, and then `x in [E, F]`.
fn with_any(
    alloc: Global,
    asked: Boxed<Expr>,
    x: Subject,
    place: Place,
    bracket: Place,
    ls: &Seq<EntityLiteral>,
) -> Result<Boxed<Expr>, AllocError>
    ensures { IfOk result (λ e. e ≡ joined asked
        (x.place, is_in_any (Expr.Variable x.place x.variable) place bracket ls.now)) }
{
    let more = among(alloc, x, place, bracket, ls)?;
    join(alloc, asked, x.place, more)
}

/// `x in [E, F]`, or `false` for `x in []`.
fn among(
    alloc: Global,
    x: Subject,
    place: Place,
    bracket: Place,
    ls: &Seq<EntityLiteral>,
) -> Result<Expr, AllocError>
    ensures { IfOk result (λ e. e ≡ is_in_any (Expr.Variable x.place x.variable) place bracket ls.now) }
{
    if ls.is_empty() {
        return Ok(Expr::Literal(place, Literal::Bool(false)));
    }
    let left = boxed(alloc, x)?;
    let right = boxed_set(alloc, bracket, ls.as_slice())?;
    Ok(Expr::Binary(place, BinaryOperator::In, left, right))
}

/// Entities as the set that they are in brackets.
fn boxed_set(alloc: Global, bracket: Place, ls: &[EntityLiteral]) -> Result<Boxed<Expr>, AllocError>
    ensures { IfOk result (λ e. e ≡ Expr.Set bracket (map entity ls.now)) }
{
    Boxed::new(alloc, Expr::Set(bracket, entities(alloc, ls)?))
}

/// Entities as expressions.
fn entities(alloc: Global, ls: &[EntityLiteral]) -> Result<Seq<Expr>, AllocError>
    ensures { IfOk result (λ es. es ≡ map entity ls.now) }
{
    let mut others = Seq::new(alloc);
    for l in ls {
        others.push(entity(alloc, l)?)?;
    }
    Ok(others)
}

/// What is asked so far, and then what each clause asks.
fn with_clauses(
    alloc: Global,
    mut asked: Boxed<Expr>,
    clauses: &[Condition],
) -> Result<Expr, AllocError>
    ensures { IfOk result (λ e. e ≡ fold joined asked (map clause clauses.now)) }
{
    for clause in clauses {
        let more = required(alloc, clause)?;
        asked = join(alloc, asked, clause.place, more)?;
    }
    Ok(asked.into_inner())
}

/// What a clause asks.
fn required(alloc: Global, clause: &Condition) -> Result<Expr, AllocError>
    ensures { IfOk result (λ e. e ≡ required clause.now.kind clause.now.place clause.now.body) }
{
    let body = try_clone(alloc, &clause.body)?;
    match clause.kind {
        ConditionKind::When => Ok(body),
        ConditionKind::Unless => {
            let body = Boxed::new(alloc, body)?;
            Ok(Expr::Unary(clause.place, UnaryOperator::Not, body))
        }
    }
}
