//! Evaluation of expressions. It goes as deep as the expression does.
ghost use Rattle.std.specs.Prelude.{ℕ, List, map};
ghost use Rattle.sc_lists.specs.Told.{Gives};
ghost use Rattle.sc_ast.specs.declared.expr.Expr.{Expr as AnyExpr};
ghost use Rattle.sc_eval.specs.Eval.{eval, choice, either, both, operated, having, matching, typed, typed_in, applied, accessed, all_values, set_literal, all_fields, record_literal};

use crate::entities::{access, has_path, is_in, is_of};
use crate::error::EvalError;
use crate::kinds::bool_in;
use crate::leaves::{literal_value, variable_value};
use crate::operators::{binary, unary};
use crate::records::record_value;
use crate::sets::set_value;
use crate::texts::is_like;
use sc_ast::{BinaryOperator, Expr, TypeName, UnaryOperator};
use sc_lists::{Boxed, Fault, Seq, Text};
use sc_pattern::Pattern;
use sc_values::Value;
use sc_world::World;
use std::alloc::Global;

/// The value of an expression in a world (Cedar language reference, operators and functions). The
/// operands are evaluated from left to right, and the first error stands. `&&`, `||` and `if`
/// evaluate what they need alone.
#[cycle(evaluate)]
#[tactic(auto, unfolding(crate::specs::Eval::eval))]
pub fn evaluate(alloc: Global, expr: &Expr, world: &World) -> Result<Value, Fault<EvalError>>
    ensures { Gives result (eval expr.now world.now) }
{
    match expr {
        Expr::If(_, c, a, b) => choose(alloc, c.get(), a.get(), b.get(), world),
        Expr::Or(_, a, b) => or_else(alloc, a.get(), b.get(), world),
        Expr::And(_, a, b) => and_also(alloc, a.get(), b.get(), world),
        Expr::Binary(_, operator, a, b) => operate(alloc, *operator, a.get(), b.get(), world),
        Expr::Has(_, a, names) => has_names(alloc, a.get(), names.as_slice(), world),
        Expr::Like(_, a, pattern) => like(alloc, a.get(), pattern, world),
        Expr::Is(_, a, type_name) => is(alloc, a.get(), type_name, world),
        Expr::IsIn(_, a, type_name, _, b) => is_and_in(alloc, a.get(), type_name, b.get(), world),
        Expr::Unary(_, operator, a) => apply(alloc, *operator, a.get(), world),
        Expr::Access(_, a, name) => read(alloc, a.get(), name, world),
        Expr::Literal(_, literal) => literal_value(alloc, literal),
        Expr::Variable(_, variable) => variable_value(alloc, *variable, &world.request),
        Expr::Set(_, members) => make_set(alloc, members.as_slice(), world),
        Expr::Record(_, fields) => make_record(alloc, fields.as_slice(), world),
    }
}

/// The value of an operand.
#[cycle(evaluate)]
fn operand(alloc: Global, expr: &Expr, world: &World) -> Result<Boxed<Value>, Fault<EvalError>>
    ensures { Gives result (eval expr.now world.now) }
{
    Ok(Boxed::new(alloc, evaluate(alloc, expr, world)?)?)
}

#[cycle(evaluate)]
fn choose(
    alloc: Global,
    c: &Expr,
    a: &Expr,
    b: &Expr,
    world: &World,
) -> Result<Value, Fault<EvalError>>
    ensures { Gives result (choice (eval c.now) (eval a.now) (eval b.now) world.now) }
{
    if bool_in(operand(alloc, c, world)?.get())? {
        evaluate(alloc, a, world)
    } else {
        evaluate(alloc, b, world)
    }
}

#[cycle(evaluate)]
fn or_else(alloc: Global, a: &Expr, b: &Expr, world: &World) -> Result<Value, Fault<EvalError>>
    ensures { Gives result (either (eval a.now) (eval b.now) world.now) }
{
    if bool_in(operand(alloc, a, world)?.get())? {
        Ok(Value::Bool(true))
    } else {
        Ok(Value::Bool(bool_in(operand(alloc, b, world)?.get())?))
    }
}

#[cycle(evaluate)]
fn and_also(alloc: Global, a: &Expr, b: &Expr, world: &World) -> Result<Value, Fault<EvalError>>
    ensures { Gives result (both (eval a.now) (eval b.now) world.now) }
{
    if bool_in(operand(alloc, a, world)?.get())? {
        Ok(Value::Bool(bool_in(operand(alloc, b, world)?.get())?))
    } else {
        Ok(Value::Bool(false))
    }
}

#[cycle(evaluate)]
fn operate(
    alloc: Global,
    operator: BinaryOperator,
    a: &Expr,
    b: &Expr,
    world: &World,
) -> Result<Value, Fault<EvalError>>
    ensures { Gives result (operated operator (eval a.now) (eval b.now) world.now) }
{
    let x = operand(alloc, a, world)?;
    let y = operand(alloc, b, world)?;
    binary(alloc, operator, world, x.get(), y.get())
}

#[cycle(evaluate)]
fn has_names(
    alloc: Global,
    a: &Expr,
    names: &[Text],
    world: &World,
) -> Result<Value, Fault<EvalError>>
    ensures { Gives result (having names.now (eval a.now) world.now) }
{
    let x = operand(alloc, a, world)?;
    Ok(Value::Bool(has_path(world, x.get(), names)?))
}

#[cycle(evaluate)]
fn like(
    alloc: Global,
    a: &Expr,
    pattern: &Pattern,
    world: &World,
) -> Result<Value, Fault<EvalError>>
    ensures { Gives result (matching pattern.now (eval a.now) world.now) }
{
    let x = operand(alloc, a, world)?;
    Ok(Value::Bool(is_like(x.get(), pattern)?))
}

#[cycle(evaluate)]
fn is(
    alloc: Global,
    a: &Expr,
    type_name: &TypeName,
    world: &World,
) -> Result<Value, Fault<EvalError>>
    ensures { Gives result (typed type_name.now.name (eval a.now) world.now) }
{
    let x = operand(alloc, a, world)?;
    Ok(Value::Bool(is_of(x.get(), type_name)?))
}

#[cycle(evaluate)]
fn is_and_in(
    alloc: Global,
    a: &Expr,
    type_name: &TypeName,
    b: &Expr,
    world: &World,
) -> Result<Value, Fault<EvalError>>
    ensures { Gives result (typed_in type_name.now.name (eval a.now) (eval b.now) world.now) }
{
    let x = operand(alloc, a, world)?;
    if is_of(x.get(), type_name)? {
        let y = operand(alloc, b, world)?;
        Ok(Value::Bool(is_in(world, x.get(), y.get())?))
    } else {
        Ok(Value::Bool(false))
    }
}

#[cycle(evaluate)]
fn apply(
    alloc: Global,
    operator: UnaryOperator,
    a: &Expr,
    world: &World,
) -> Result<Value, Fault<EvalError>>
    ensures { Gives result (applied operator (eval a.now) world.now) }
{
    let x = operand(alloc, a, world)?;
    Ok(unary(operator, x.get())?)
}

#[cycle(evaluate)]
fn read(alloc: Global, a: &Expr, name: &Text, world: &World) -> Result<Value, Fault<EvalError>>
    ensures { Gives result (accessed name.now (eval a.now) world.now) }
{
    let x = operand(alloc, a, world)?;
    access(alloc, world, x.get(), name)
}

#[cycle(evaluate)]
fn make_set(alloc: Global, members: &[Expr], world: &World) -> Result<Value, Fault<EvalError>>
    ensures { Gives result (set_literal (map eval members.now) world.now) }
{
    let values = evaluate_all(alloc, members, world)?;
    Ok(set_value(alloc, values.as_slice())?)
}

/// The values of members, in order.
#[cycle(evaluate)]
#[tactic(auto, using(crate::proofs::ToComeLaws::values_to_come_more))]
fn evaluate_all(
    alloc: Global,
    members: &[Expr],
    world: &World,
) -> Result<Seq<Value>, Fault<EvalError>>
    ensures { Gives result (all_values (map eval members.now) world.now) }
{
    let mut values = Seq::new(alloc);
    for member in members {
        values.push(evaluate(alloc, member, world)?)?;
    }
    Ok(values)
}

#[cycle(evaluate)]
fn make_record(
    alloc: Global,
    fields: &[(Text, Expr)],
    world: &World,
) -> Result<Value, Fault<EvalError>>
    ensures { Gives result (record_literal (map (λ (f : List ℕ × AnyExpr). (f.0, eval f.1)) fields.now) world.now) }
{
    let pairs = evaluate_fields(alloc, fields, world)?;
    Ok(record_value(alloc, pairs)?)
}

/// The names and values of fields, in order.
#[cycle(evaluate)]
#[tactic(auto, using(crate::proofs::ToComeLaws::fields_to_come_more))]
fn evaluate_fields(
    alloc: Global,
    fields: &[(Text, Expr)],
    world: &World,
) -> Result<Seq<(Text, Value)>, Fault<EvalError>>
    ensures { Gives result (all_fields (map (λ (f : List ℕ × AnyExpr). (f.0, eval f.1)) fields.now) world.now) }
{
    let mut pairs = Seq::new(alloc);
    for field in fields {
        let name = field.0.try_clone(alloc)?;
        let value = evaluate(alloc, &field.1, world)?;
        pairs.push((name, value))?;
    }
    Ok(pairs)
}
