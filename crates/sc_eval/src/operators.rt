//! The operators, in the order of the grammar.
ghost use Rattle.std.specs.Prelude.{◌≡◌};
ghost use Rattle.sc_lists.specs.Told.{Gives};
ghost use Rattle.sc_ast.specs.declared.operator.BinaryOperator.TheVariants.{In};
ghost use Rattle.sc_eval.specs.Operators.{binary, unary};

use crate::addresses::{is_in_range, is_ipv4, is_ipv6, is_loopback, is_multicast};
use crate::arithmetic::{add, multiply, negate, subtract};
use crate::comparison::{
    decimal_greater, decimal_greater_or_equal, decimal_less, decimal_less_or_equal, greater,
    greater_or_equal, less, less_or_equal,
};
use crate::entities::{get_tag, has_tag, is_in};
use crate::error::EvalError;
use crate::logic::not;
use crate::sets::{contains, contains_all, contains_any, is_empty, is_equal};
use crate::texts::{decimal, ip};
use sc_ast::{BinaryOperator, UnaryOperator};
use sc_lists::Fault;
use sc_values::Value;
use sc_world::World;
use std::alloc::Global;

/// What an operator with two operands gives.
pub(crate) fn binary(
    alloc: Global,
    operator: BinaryOperator,
    world: &World,
    x: &Value,
    y: &Value,
) -> Result<Value, Fault<EvalError>>
    ensures { Gives result (binary operator world.now x.now y.now) }
{
    match operator {
        BinaryOperator::Less => told(less(x, y)),
        BinaryOperator::LessOrEqual => told(less_or_equal(x, y)),
        BinaryOperator::Greater => told(greater(x, y)),
        BinaryOperator::GreaterOrEqual => told(greater_or_equal(x, y)),
        BinaryOperator::Equal => Ok(Value::Bool(is_equal(x, y))),
        BinaryOperator::In => told(membership(world, x, y)),
        BinaryOperator::Add => told(add(x, y)),
        BinaryOperator::Subtract => told(subtract(x, y)),
        BinaryOperator::Multiply => told(multiply(x, y)),
        BinaryOperator::Contains => told(contains(x, y)),
        BinaryOperator::ContainsAll => told(contains_all(x, y)),
        BinaryOperator::ContainsAny => told(contains_any(x, y)),
        BinaryOperator::HasTag => told(has_tag(world, x, y)),
        BinaryOperator::GetTag => get_tag(alloc, world, x, y),
        BinaryOperator::LessThan => told(decimal_less(x, y)),
        BinaryOperator::LessThanOrEqual => told(decimal_less_or_equal(x, y)),
        BinaryOperator::GreaterThan => told(decimal_greater(x, y)),
        BinaryOperator::GreaterThanOrEqual => told(decimal_greater_or_equal(x, y)),
        BinaryOperator::IsInRange => told(is_in_range(x, y)),
    }
}

/// What is given, where an error is the call's own fault.
fn told(given: Result<Value, EvalError>) -> Result<Value, Fault<EvalError>>
    ensures { Gives result given }
{
    Ok(given?)
}

/// `x in y`.
fn membership(world: &World, x: &Value, y: &Value) -> Result<Value, EvalError>
    ensures { result ≡ binary In world.now x.now y.now }
{
    Ok(Value::Bool(is_in(world, x, y)?))
}

/// What an operator with one operand gives.
pub(crate) fn unary(operator: UnaryOperator, x: &Value) -> Result<Value, EvalError>
    ensures { result ≡ unary operator x.now }
{
    match operator {
        UnaryOperator::Not => not(x),
        UnaryOperator::Negate => negate(x),
        UnaryOperator::IsEmpty => is_empty(x),
        UnaryOperator::IsIpv4 => is_ipv4(x),
        UnaryOperator::IsIpv6 => is_ipv6(x),
        UnaryOperator::IsLoopback => is_loopback(x),
        UnaryOperator::IsMulticast => is_multicast(x),
        UnaryOperator::Decimal => decimal(x),
        UnaryOperator::Ip => ip(x),
    }
}
