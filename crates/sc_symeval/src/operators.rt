//! Operators, of operands that are compiled, in the order of the grammar.
ghost use Rattle.std.specs.Prelude.{◌≡◌, IfOk};
ghost use Rattle.sc_terms.specs.Tables.{Keeps};
ghost use Rattle.sc_constructs.specs.Code.{like_code};
ghost use Rattle.sc_symeval.specs.Codes.{binary_code, unary_code, among_code, is_named as named_so};
ghost use Rattle.sc_constructs.specs.Numbers.{IsCode, StandsAs, code_at};

use crate::leaves::{address, decimal};
use sc_ast::{BinaryOperator, TypeName, UnaryOperator};
use sc_constructs::addresses::{in_range, is_loopback, is_multicast, is_version_4, is_version_6};
use sc_constructs::entities::{contained, get_tag, has_tag, name_of};
use sc_constructs::logic::{and, not, tell};
use sc_constructs::numbers::{
    difference, greater, greater_or_equal, less, less_or_equal, negative, product, sum,
};
use sc_constructs::sets::{contains, contains_all, contains_any, equal, is_empty};
use sc_constructs::{Opt, Setting};
use sc_pattern::Pattern;
use sc_schema::Ty;
use sc_terms::Terms;
use sc_typed::TypedExpr;
use std::alloc::AllocError;

/// An operator with two operands, whose result is of a type.
pub(crate) fn operate(
    setting: &Setting<'_>,
    terms: &mut Terms,
    operator: BinaryOperator,
    ty: &Ty,
    a: &TypedExpr,
    b: &TypedExpr,
    x: Opt,
    y: Opt,
) -> Result<Opt, AllocError>
    requires x_in { IsCode terms.old x }
    requires y_in { IsCode terms.old y }
    ensures ok { IfOk result (λ o. StandsAs terms.new o (binary_code setting.now.schema.now operator ty.now a.now b.now
        (code_at terms.old x) (code_at terms.old y))) }
    ensures kept { Keeps terms.old terms.new }
{
    match operator {
        BinaryOperator::Less => less(terms, x, y),
        BinaryOperator::LessOrEqual => less_or_equal(terms, x, y),
        BinaryOperator::Greater => greater(terms, x, y),
        BinaryOperator::GreaterOrEqual => greater_or_equal(terms, x, y),
        BinaryOperator::Equal => equal(terms, x, y),
        BinaryOperator::In => contained(setting, terms, ty, a, b, x, y),
        BinaryOperator::Add => sum(terms, x, y),
        BinaryOperator::Subtract => difference(terms, x, y),
        BinaryOperator::Multiply => product(terms, x, y),
        BinaryOperator::Contains => contains(terms, x, y),
        BinaryOperator::ContainsAll => contains_all(terms, x, y),
        BinaryOperator::ContainsAny => contains_any(terms, x, y),
        BinaryOperator::HasTag => has_tag(setting, terms, a, x, y),
        BinaryOperator::GetTag => get_tag(setting, terms, a, x, y),
        BinaryOperator::LessThan => less(terms, x, y),
        BinaryOperator::LessThanOrEqual => less_or_equal(terms, x, y),
        BinaryOperator::GreaterThan => greater(terms, x, y),
        BinaryOperator::GreaterThanOrEqual => greater_or_equal(terms, x, y),
        BinaryOperator::IsInRange => in_range(terms, x, y),
    }
}

/// An operator with one operand.
pub(crate) fn apply(
    setting: &Setting<'_>,
    terms: &mut Terms,
    operator: UnaryOperator,
    a: &TypedExpr,
    x: Opt,
) -> Result<Opt, AllocError>
    requires { IsCode terms.old x }
    ensures ok { IfOk result (λ o. StandsAs terms.new o (unary_code operator a.now (code_at terms.old x))) }
    ensures kept { Keeps terms.old terms.new }
{
    match operator {
        UnaryOperator::Not => not(terms, x),
        UnaryOperator::Negate => negative(terms, x),
        UnaryOperator::IsEmpty => is_empty(setting, terms, x),
        UnaryOperator::IsIpv4 => is_version_4(terms, x),
        UnaryOperator::IsIpv6 => is_version_6(terms, x),
        UnaryOperator::IsLoopback => is_loopback(terms, x),
        UnaryOperator::IsMulticast => is_multicast(terms, x),
        UnaryOperator::Decimal => decimal(terms, a),
        UnaryOperator::Ip => address(terms, a),
    }
}

/// `a like "pattern"`.
pub(crate) fn like(
    setting: &Setting<'_>,
    terms: &mut Terms,
    a: Opt,
    pattern: &Pattern,
) -> Result<Opt, AllocError>
    requires { IsCode terms.old a }
    ensures ok { IfOk result (λ o. StandsAs terms.new o (like_code pattern.now (code_at terms.old a))) }
    ensures kept { Keeps terms.old terms.new }
{
    let pattern = pattern.try_clone(setting.alloc)?;
    let val = terms.like(a.val, pattern)?;
    Ok(Opt { ok: a.ok, val })
}

/// Whether an expression is an entity of a type.
pub(crate) fn is_named(type_name: &TypeName, x: &TypedExpr) -> bool
    ensures { result ≡ named_so type_name.now x.now }
{
    match name_of(x) {
        Some(name) => name.as_str() == type_name.name.as_str(),
        None => false,
    }
}

/// `x is T && x in y`, where x is of the type T.
#[tactic(auto, using(crate::proofs::StandLaws::among_is))]
pub(crate) fn among(
    setting: &Setting<'_>,
    terms: &mut Terms,
    ty: &Ty,
    x: &TypedExpr,
    y: &TypedExpr,
    a: Opt,
    b: Opt,
) -> Result<Opt, AllocError>
    requires a_in { IsCode terms.old a }
    requires b_in { IsCode terms.old b }
    ensures ok { IfOk result (λ o. StandsAs terms.new o (among_code setting.now.schema.now ty.now x.now y.now
        (code_at terms.old a) (code_at terms.old b))) }
    ensures kept { Keeps terms.old terms.new }
{
    let test = tell(terms, a, true)?;
    let found = contained(setting, terms, ty, x, y, a, b)?;
    let opt = and(terms, test, found)?;
    Ok(opt)
}
