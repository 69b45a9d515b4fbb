//! The operators, methods and functions by their tokens and names.
ghost use Rattle.std.specs.Prelude.{◌≡◌, IfOk};
ghost use Rattle.sc_lexemes.specs.Tables.{operator_of, operator_of_sign, level_of, joined, prefix_of, prefix_of_sign, variable_of, test_of, method_of, function_of, called, applied};

use crate::lexeme::Shape;
use crate::operation::{binary, prefixed};
use crate::operator::{Level, Operator};
use sc_ast::{BinaryOperator, Expr, Place, UnaryOperator, Variable};
use sc_lexer::Kind;
use sc_lists::{Boxed, Seq, equals};
use std::alloc::{AllocError, Global};

/// The operator that a sign is.
fn operator_of_sign(kind: Kind) -> Option<Operator>
    ensures { result ≡ operator_of_sign kind }
{
    match kind {
        Kind::Or => Some(Operator::Or),
        Kind::And => Some(Operator::And),
        Kind::Less => Some(Operator::Less),
        Kind::LessOrEqual => Some(Operator::LessOrEqual),
        Kind::Greater => Some(Operator::Greater),
        Kind::GreaterOrEqual => Some(Operator::GreaterOrEqual),
        Kind::Equal => Some(Operator::Equal),
        Kind::NotEqual => Some(Operator::NotEqual),
        Kind::Plus => Some(Operator::Add),
        Kind::Minus => Some(Operator::Subtract),
        Kind::Star => Some(Operator::Multiply),
        _ => None,
    }
}

/// The operator between two operands that a token is.
#[tactic(auto, unfolding(crate::specs::Tables::operator_of))]
pub(crate) fn operator_of(shape: &Shape) -> Option<Operator>
    ensures { result ≡ operator_of shape.now }
{
    match shape {
        Shape::Word(word) if equals(word.as_str(), "in") => Some(Operator::In),
        Shape::Sign(kind) => operator_of_sign(*kind),
        _ => None,
    }
}

/// How tightly it binds.
pub(crate) fn level_of(operator: Operator) -> Level
    ensures { result ≡ level_of operator }
{
    match operator {
        Operator::Or => Level::Or,
        Operator::And => Level::And,
        Operator::Less
        | Operator::LessOrEqual
        | Operator::Greater
        | Operator::GreaterOrEqual
        | Operator::Equal
        | Operator::NotEqual
        | Operator::In => Level::Relation,
        Operator::Add | Operator::Subtract => Level::Add,
        Operator::Multiply => Level::Multiply,
    }
}

/// What an operator makes of its operands.
pub fn joined(
    alloc: Global,
    operator: Operator,
    place: Place,
    a: Boxed<Expr>,
    b: Boxed<Expr>,
) -> Result<Boxed<Expr>, AllocError>
    ensures { IfOk result (λ x. x ≡ joined operator place a b) }
{
    match operator {
        Operator::Or => Boxed::new(alloc, Expr::Or(place, a, b)),
        Operator::And => Boxed::new(alloc, Expr::And(place, a, b)),
        Operator::Less => binary(alloc, place, BinaryOperator::Less, a, b),
        Operator::LessOrEqual => binary(alloc, place, BinaryOperator::LessOrEqual, a, b),
        Operator::Greater => binary(alloc, place, BinaryOperator::Greater, a, b),
        Operator::GreaterOrEqual => binary(alloc, place, BinaryOperator::GreaterOrEqual, a, b),
        Operator::Equal => binary(alloc, place, BinaryOperator::Equal, a, b),
        Operator::NotEqual => {
            let equal = binary(alloc, place, BinaryOperator::Equal, a, b)?;
            prefixed(alloc, place, UnaryOperator::Not, equal)
        }
        Operator::In => binary(alloc, place, BinaryOperator::In, a, b),
        Operator::Add => binary(alloc, place, BinaryOperator::Add, a, b),
        Operator::Subtract => binary(alloc, place, BinaryOperator::Subtract, a, b),
        Operator::Multiply => binary(alloc, place, BinaryOperator::Multiply, a, b),
    }
}

/// The prefix that a sign is.
fn prefix_of_sign(kind: Kind) -> Option<UnaryOperator>
    ensures { result ≡ prefix_of_sign kind }
{
    match kind {
        Kind::Not => Some(UnaryOperator::Not),
        Kind::Minus => Some(UnaryOperator::Negate),
        _ => None,
    }
}

/// The prefix that a token is.
#[tactic(auto, unfolding(crate::specs::Tables::prefix_of))]
pub(crate) fn prefix_of(shape: &Shape) -> Option<UnaryOperator>
    ensures { result ≡ prefix_of shape.now }
{
    match shape {
        Shape::Sign(kind) => prefix_of_sign(*kind),
        _ => None,
    }
}

/// The variable that a word is.
#[tactic(auto, unfolding(crate::specs::Tables::variable_of))]
pub fn variable_of(word: &str) -> Option<Variable>
    ensures { result ≡ variable_of word.now }
{
    if equals(word, "principal") {
        Some(Variable::Principal)
    } else if equals(word, "action") {
        Some(Variable::Action)
    } else if equals(word, "resource") {
        Some(Variable::Resource)
    } else if equals(word, "context") {
        Some(Variable::Context)
    } else {
        None
    }
}

/// The method without arguments of this name.
#[tactic(auto, unfolding(crate::specs::Tables::test_of))]
fn test_of(word: &str) -> Option<UnaryOperator>
    ensures { result ≡ test_of word.now }
{
    if equals(word, "isEmpty") {
        Some(UnaryOperator::IsEmpty)
    } else if equals(word, "isIpv4") {
        Some(UnaryOperator::IsIpv4)
    } else if equals(word, "isIpv6") {
        Some(UnaryOperator::IsIpv6)
    } else if equals(word, "isLoopback") {
        Some(UnaryOperator::IsLoopback)
    } else if equals(word, "isMulticast") {
        Some(UnaryOperator::IsMulticast)
    } else {
        None
    }
}

/// The method with one argument of this name.
#[tactic(auto, unfolding(crate::specs::Tables::method_of))]
fn method_of(word: &str) -> Option<BinaryOperator>
    ensures { result ≡ method_of word.now }
{
    if equals(word, "contains") {
        Some(BinaryOperator::Contains)
    } else if equals(word, "containsAll") {
        Some(BinaryOperator::ContainsAll)
    } else if equals(word, "containsAny") {
        Some(BinaryOperator::ContainsAny)
    } else if equals(word, "hasTag") {
        Some(BinaryOperator::HasTag)
    } else if equals(word, "getTag") {
        Some(BinaryOperator::GetTag)
    } else if equals(word, "lessThan") {
        Some(BinaryOperator::LessThan)
    } else if equals(word, "lessThanOrEqual") {
        Some(BinaryOperator::LessThanOrEqual)
    } else if equals(word, "greaterThan") {
        Some(BinaryOperator::GreaterThan)
    } else if equals(word, "greaterThanOrEqual") {
        Some(BinaryOperator::GreaterThanOrEqual)
    } else if equals(word, "isInRange") {
        Some(BinaryOperator::IsInRange)
    } else {
        None
    }
}

/// The function of this name, which has one argument.
#[tactic(auto, unfolding(crate::specs::Tables::function_of))]
fn function_of(word: &str) -> Option<UnaryOperator>
    ensures { result ≡ function_of word.now }
{
    if equals(word, "decimal") {
        Some(UnaryOperator::Decimal)
    } else if equals(word, "ip") {
        Some(UnaryOperator::Ip)
    } else {
        None
    }
}

/// The call of a method, if there is one of this name with so many arguments.
pub fn called(
    alloc: Global,
    place: Place,
    receiver: Boxed<Expr>,
    name: &str,
    arguments: Seq<Expr>,
) -> Result<Option<Boxed<Expr>>, AllocError>
    ensures { IfOk result (λ x. x ≡ called place receiver name.now arguments) }
{
    let mut arguments = arguments.into_vec();
    let Some(last) = arguments.pop() else {
        return match test_of(name) {
            Some(operator) => Ok(Some(prefixed(alloc, place, operator, receiver)?)),
            None => Ok(None),
        };
    };
    let last = Boxed::new(alloc, last)?;
    if !arguments.is_empty() {
        return Ok(None);
    }
    match method_of(name) {
        Some(operator) => Ok(Some(binary(alloc, place, operator, receiver, last)?)),
        None => Ok(None),
    }
}

/// The call of a function, if there is one of this name with so many arguments.
pub fn applied(
    alloc: Global,
    place: Place,
    name: &str,
    arguments: Seq<Expr>,
) -> Result<Option<Boxed<Expr>>, AllocError>
    ensures { IfOk result (λ x. x ≡ applied place name.now arguments) }
{
    let mut arguments = arguments.into_vec();
    let Some(last) = arguments.pop() else {
        return Ok(None);
    };
    let last = Boxed::new(alloc, last)?;
    if !arguments.is_empty() {
        return Ok(None);
    }
    match function_of(name) {
        Some(operator) => Ok(Some(prefixed(alloc, place, operator, last)?)),
        None => Ok(None),
    }
}
