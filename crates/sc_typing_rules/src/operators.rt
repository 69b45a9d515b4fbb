//! The types of operators, in the order of the grammar.
ghost use Rattle.std.specs.Prelude.{◌≡◌, [], IfOk, is_some, unwrap_or, if◌then◌else◌};
ghost use Rattle.std.specs.List.{list_any};
ghost use Rattle.std.specs.Option.{option_copied};
ghost use Rattle.std.specs.Result.{result_map_both};
ghost use Rattle.std.specs.Str.{bytes_eq};
ghost use Rattle.sc_decimal.specs.DecimalValue.{decimal_of};
ghost use Rattle.sc_ip.specs.IpValue.{ip_of};
ghost use Rattle.sc_lists.specs.Told.{Gives};
ghost use Rattle.sc_schema.specs.Declarations.{ancestor_types};
ghost use Rattle.sc_typed.specs.Capabilities.{is_known, tag_of};
ghost use Rattle.sc_typed.specs.Outcomes.{ty};
ghost use Rattle.sc_typed.specs.Literals.{literal_of};
ghost use Rattle.sc_typed.specs.Types.{entity_name, join};
ghost use Rattle.sc_typing_rules.specs.Operators.{longs, decimals, addresses, address, contained, sets, are_apart, compared, equal_by, may_be_in, within, tags, tag_test, tag_read, binary, given_tag, given_by, opposite, negated, negative, emptiness, reads, read_as, unary};

use crate::logic::{boxed_type, joined_type, joined_with};
use crate::setting::Setting;
use sc_ast::{BinaryOperator, Expr, Place, UnaryOperator};
use sc_decimal::read_decimal;
use sc_ip::read_ip;
use sc_lists::{Boxed, Fault, Seq};
use sc_names::Name;
use sc_schema::{Schema, Ty, ancestor_types, tags_of};
use sc_typed::capability::{is_known, tag_of};
use sc_typed::kinds::{entity_name, is_either};
use sc_typed::literals::{literal_of, same_literal, text_of};
use sc_typed::operands::{
    boolean, check, decimal, entity, group, ip, is_false, is_true, long, set, string,
};
use sc_typed::types::{join, truth};
use sc_typed::{Capability, TypeFault, TypeRule, TypedExpr};
use std::alloc::{AllocError, Global};

/// The type of an operator's result, of two operands and of these with their types.
pub(crate) fn binary(
    setting: &Setting<'_>,
    place: Place,
    operator: BinaryOperator,
    a: &Expr,
    b: &Expr,
    x: &TypedExpr,
    y: &TypedExpr,
) -> Result<Ty, Fault<TypeFault>>
    ensures { Gives result (binary setting.now.schema.now setting.now.known.now place operator a.now b.now
        x.now y.now) }
{
    match operator {
        BinaryOperator::Less
        | BinaryOperator::LessOrEqual
        | BinaryOperator::Greater
        | BinaryOperator::GreaterOrEqual => long_comparison(x, y),
        BinaryOperator::Equal => equal(setting.alloc, place, a, b, x, y),
        BinaryOperator::In => membership(setting.schema, x, y),
        BinaryOperator::Add | BinaryOperator::Subtract | BinaryOperator::Multiply => {
            arithmetic(x, y)
        }
        BinaryOperator::Contains => contained(setting.alloc, place, x, y),
        BinaryOperator::ContainsAll | BinaryOperator::ContainsAny => {
            sets(setting.alloc, place, x, y)
        }
        BinaryOperator::HasTag => has_tag(setting, a, b, x, y),
        BinaryOperator::GetTag => get_tag(setting, place, a, b, x, y),
        BinaryOperator::LessThan
        | BinaryOperator::LessThanOrEqual
        | BinaryOperator::GreaterThan
        | BinaryOperator::GreaterThanOrEqual => decimals(x, y),
        BinaryOperator::IsInRange => addresses(x, y),
    }
}

fn long_comparison(x: &TypedExpr, y: &TypedExpr) -> Result<Ty, Fault<TypeFault>>
    ensures { Gives result (longs x.now y.now Ty.Bool) }
{
    long(x)?;
    long(y)?;
    Ok(Ty::Bool)
}

fn arithmetic(x: &TypedExpr, y: &TypedExpr) -> Result<Ty, Fault<TypeFault>>
    ensures { Gives result (longs x.now y.now Ty.Long) }
{
    long(x)?;
    long(y)?;
    Ok(Ty::Long)
}

fn decimals(x: &TypedExpr, y: &TypedExpr) -> Result<Ty, Fault<TypeFault>>
    ensures { Gives result (decimals x.now y.now) }
{
    decimal(x)?;
    decimal(y)?;
    Ok(Ty::Bool)
}

fn addresses(x: &TypedExpr, y: &TypedExpr) -> Result<Ty, Fault<TypeFault>>
    ensures { Gives result (addresses x.now y.now) }
{
    ip(x)?;
    ip(y)?;
    Ok(Ty::Bool)
}

/// `a == b`: literals are compared by value, and entities of two types are never equal.
fn equal(
    alloc: Global,
    place: Place,
    a: &Expr,
    b: &Expr,
    x: &TypedExpr,
    y: &TypedExpr,
) -> Result<Ty, Fault<TypeFault>>
    ensures { Gives result (equal_by place (literal_of a.now) (literal_of b.now) (ty x.now) (ty y.now)) }
{
    let Some(first) = literal_of(a) else {
        return compared(alloc, place, x, y);
    };
    let Some(second) = literal_of(b) else {
        return compared(alloc, place, x, y);
    };
    Ok(truth(same_literal(first, second)))
}

fn compared(
    alloc: Global,
    place: Place,
    x: &TypedExpr,
    y: &TypedExpr,
) -> Result<Ty, Fault<TypeFault>>
    ensures { Gives result (compared place (ty x.now) (ty y.now)) }
{
    let first = boxed_type(alloc, x)?;
    let second = boxed_type(alloc, y)?;
    compared_types(alloc, place, first.get(), second.get())
}

/// The same, of the types of the two.
fn compared_types(alloc: Global, place: Place, s: &Ty, t: &Ty) -> Result<Ty, Fault<TypeFault>>
    ensures { Gives result (compared place s.now t.now) }
{
    if join_to_any(alloc, s, t)? {
        return Ok(Ty::Bool);
    }
    if are_apart(s, t) {
        return Ok(Ty::False);
    }
    Err(Fault::Told(TypeFault {
        rule: TypeRule::NoJoin,
        at: place,
    }))
}

/// Whether two types join.
fn join_to_any(alloc: Global, s: &Ty, t: &Ty) -> Result<bool, AllocError>
    ensures { IfOk result (λ joins. joins ≡ is_some (join s.now t.now)) }
{
    match join(alloc, s, t)? {
        Some(both) => {
            let _both = Boxed::new(alloc, both)?;
            Ok(true)
        }
        None => Ok(false),
    }
}

/// Whether two types are of entities and have different names.
fn are_apart(s: &Ty, t: &Ty) -> bool
    ensures { result ≡ are_apart (entity_name s.now) (entity_name t.now) }
{
    let Some(first) = entity_name(s) else {
        return false;
    };
    let Some(second) = entity_name(t) else {
        return false;
    };
    first.as_str() != second.as_str()
}

/// `a in b`: whether an entity of the one type may be of the other one, or in it.
pub(crate) fn within(schema: &Schema, x: &TypedExpr, y: &TypedExpr) -> Result<Ty, TypeFault>
    ensures { result ≡ within schema.now x.now y.now }
{
    let t = entity(x)?;
    let u = group(y)?;
    Ok(may_be(may_be_in(schema, t, u)))
}

/// The type of `a in b`.
fn membership(schema: &Schema, x: &TypedExpr, y: &TypedExpr) -> Result<Ty, Fault<TypeFault>>
    ensures { Gives result (within schema.now x.now y.now) }
{
    Ok(within(schema, x, y)?)
}

fn may_be(may: bool) -> Ty
    ensures { result ≡ (if may then Ty.Bool else Ty.False) }
{
    if may { Ty::Bool } else { Ty::False }
}

fn may_be_in(schema: &Schema, t: &Name, u: &Name) -> bool
    ensures { result ≡ may_be_in schema.now t.now u.now }
{
    t.as_str() == u.as_str() || is_above(schema, t, u)
}

fn is_above(schema: &Schema, t: &Name, u: &Name) -> bool
    ensures { result ≡ list_any (bytes_eq u.now) (unwrap_or (ancestor_types schema.now t.now) []) }
{
    match ancestor_types(schema, t) {
        Some(names) => names.iter().any(|name| u.as_str() == name.as_str()),
        None => false,
    }
}

/// `x.contains(y)`.
fn contained(
    alloc: Global,
    place: Place,
    x: &TypedExpr,
    y: &TypedExpr,
) -> Result<Ty, Fault<TypeFault>>
    ensures { Gives result (contained place x.now y.now) }
{
    let member = set(x)?;
    let _both = Boxed::new(alloc, joined_with(alloc, place, member, y)?)?;
    Ok(Ty::Bool)
}

/// `x.containsAll(y)`, `x.containsAny(y)`.
fn sets(alloc: Global, place: Place, x: &TypedExpr, y: &TypedExpr) -> Result<Ty, Fault<TypeFault>>
    ensures { Gives result (sets place x.now y.now) }
{
    let first = set(x)?;
    let second = set(y)?;
    let _both = Boxed::new(alloc, joined_type(alloc, place, first, second)?)?;
    Ok(Ty::Bool)
}

/// The type of an entity's tags, if entities of its type have any; the key has to be a text.
fn tags<'s>(schema: &'s Schema, x: &TypedExpr, y: &TypedExpr) -> Result<Option<&'s Ty>, TypeFault>
    ensures { result_map_both (λ o. option_copied o) (λ e. e) result ≡ tags schema.now x.now y.now }
{
    let name = entity(x)?;
    string(y)?;
    Ok(tags_of(schema, name))
}

/// Whether an entity is known to have the tag of a key.
fn knows_tag(setting: &Setting<'_>, a: &Expr, b: &Expr) -> Result<bool, AllocError>
    ensures { IfOk result (λ known. known ≡ is_known setting.now.known.now (tag_of a.now b.now)) }
{
    let tag = Boxed::new(setting.alloc, tag_of(setting.alloc, a, b)?)?;
    Ok(is_known(setting.known, tag.get()))
}

/// `a.hasTag(b)`.
fn has_tag(
    setting: &Setting<'_>,
    a: &Expr,
    b: &Expr,
    x: &TypedExpr,
    y: &TypedExpr,
) -> Result<Ty, Fault<TypeFault>>
    ensures { Gives result (tag_test setting.now.schema.now setting.now.known.now a.now b.now x.now y.now) }
{
    let tags = tags(setting.schema, x, y)?;
    if tags.is_none() {
        return Ok(Ty::False);
    }
    if knows_tag(setting, a, b)? {
        return Ok(Ty::True);
    }
    Ok(Ty::Bool)
}

/// `a.getTag(b)`.
fn get_tag(
    setting: &Setting<'_>,
    place: Place,
    a: &Expr,
    b: &Expr,
    x: &TypedExpr,
    y: &TypedExpr,
) -> Result<Ty, Fault<TypeFault>>
    ensures { Gives result (tag_read setting.now.schema.now setting.now.known.now place a.now b.now x.now y.now) }
{
    let Some(ty) = tags(setting.schema, x, y)? else {
        return Err(Fault::Told(TypeFault {
            rule: TypeRule::NoTags,
            at: place,
        }));
    };
    if !knows_tag(setting, a, b)? {
        return Err(Fault::Told(TypeFault {
            rule: TypeRule::TagMaybeAbsent,
            at: place,
        }));
    }
    Ok(ty.try_clone(setting.alloc)?)
}

/// What an operator gives: `hasTag` that may be true or false gives its tag.
pub(crate) fn given_by(
    alloc: Global,
    operator: BinaryOperator,
    a: &Expr,
    b: &Expr,
    ty: &Ty,
) -> Result<Seq<Capability>, AllocError>
    ensures { IfOk result (λ given. given ≡ given_by operator a.now b.now ty.now) }
{
    match operator {
        BinaryOperator::HasTag => given_tag(alloc, a, b, ty),
        _ => Ok(Seq::new(alloc)),
    }
}

fn given_tag(alloc: Global, a: &Expr, b: &Expr, ty: &Ty) -> Result<Seq<Capability>, AllocError>
    ensures { IfOk result (λ given. given ≡ given_tag a.now b.now ty.now) }
{
    let mut given = Seq::new(alloc);
    if is_either(ty) {
        given.push(tag_of(alloc, a, b)?)?;
    }
    Ok(given)
}

/// The type of an operator's result, of an operand and of it with its type.
pub(crate) fn unary(
    place: Place,
    operator: UnaryOperator,
    a: &Expr,
    x: &TypedExpr,
) -> Result<Ty, TypeFault>
    ensures { result ≡ unary place operator a.now x.now }
{
    match operator {
        UnaryOperator::Not => not(x),
        UnaryOperator::Negate => negative(x),
        UnaryOperator::IsEmpty => is_empty(x),
        UnaryOperator::IsIpv4
        | UnaryOperator::IsIpv6
        | UnaryOperator::IsLoopback
        | UnaryOperator::IsMulticast => address(x),
        UnaryOperator::Decimal => decimal_type(place, a),
        UnaryOperator::Ip => address_type(place, a),
    }
}

fn not(x: &TypedExpr) -> Result<Ty, TypeFault>
    ensures { result ≡ opposite x.now }
{
    boolean(x)?;
    Ok(negated(x))
}

fn negated(x: &TypedExpr) -> Ty
    ensures { result ≡ negated (ty x.now) }
{
    if is_false(x) {
        return Ty::True;
    }
    if is_true(x) { Ty::False } else { Ty::Bool }
}

fn negative(x: &TypedExpr) -> Result<Ty, TypeFault>
    ensures { result ≡ negative x.now }
{
    long(x)?;
    Ok(Ty::Long)
}

fn is_empty(x: &TypedExpr) -> Result<Ty, TypeFault>
    ensures { result ≡ emptiness x.now }
{
    set(x)?;
    Ok(Ty::Bool)
}

fn address(x: &TypedExpr) -> Result<Ty, TypeFault>
    ensures { result ≡ address x.now }
{
    ip(x)?;
    Ok(Ty::Bool)
}

/// Whether an expression is a literal text that reads as a decimal number.
fn reads_decimal(a: &Expr) -> bool
    ensures { result ≡ reads decimal_of a.now }
{
    match text_of(a) {
        Some(text) => read_decimal(text.as_str()).is_ok(),
        None => false,
    }
}

/// Whether an expression is a literal text that reads as an address.
fn reads_ip(a: &Expr) -> bool
    ensures { result ≡ reads ip_of a.now }
{
    match text_of(a) {
        Some(text) => read_ip(text.as_str()).is_ok(),
        None => false,
    }
}

/// The type of `decimal(a)`, where a is a literal that reads as one.
fn decimal_type(place: Place, a: &Expr) -> Result<Ty, TypeFault>
    ensures { result ≡ read_as (reads decimal_of a.now) place Ty.Decimal }
{
    check(reads_decimal(a), TypeRule::BadLiteral, place)?;
    Ok(Ty::Decimal)
}

/// The type of `ip(a)`, where a is a literal that reads as an address.
fn address_type(place: Place, a: &Expr) -> Result<Ty, TypeFault>
    ensures { result ≡ read_as (reads ip_of a.now) place Ty.Ip }
{
    check(reads_ip(a), TypeRule::BadLiteral, place)?;
    Ok(Ty::Ip)
}
