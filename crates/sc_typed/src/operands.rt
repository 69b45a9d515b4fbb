//! Operands that have to be of one kind. The fault of an operand of another kind stands at it.
ghost use Rattle.std.specs.Prelude.{◌≡◌, IfOk};
ghost use Rattle.std.specs.Result.{result_map_both};
ghost use Rattle.sc_typed.specs.Types.{is_true, is_false};
ghost use Rattle.sc_typed.specs.Outcomes.{ty, check, as_boolean, as_long, as_string, as_decimal, as_ip, as_entity, as_group, as_set, as_object};

use crate::fault::{TypeFault, TypeRule};
use crate::kinds;
use crate::typed_expr::{TypedExpr, place_of, type_of};
use crate::types::attributes;
use sc_ast::Place;
use sc_names::Name;
use sc_schema::{Attributes, Schema, Ty};
use std::alloc::{AllocError, Global};

/// A copy of the type. What is skipped counts as Boolean; no rule asks for its type.
pub fn copy_of_ty(alloc: Global, x: &TypedExpr) -> Result<Ty, AllocError>
    ensures { IfOk result (λ copy. copy ≡ ty x.now) }
{
    match type_of(x) {
        Some(ty) => ty.try_clone(alloc),
        None => Ok(Ty::Bool),
    }
}

/// Whether an expression is always true.
pub fn is_true(x: &TypedExpr) -> bool
    ensures { result ≡ is_true (ty x.now) }
{
    match type_of(x) {
        Some(ty) => kinds::is_true(ty),
        None => false,
    }
}

/// Whether an expression is always false.
pub fn is_false(x: &TypedExpr) -> bool
    ensures { result ≡ is_false (ty x.now) }
{
    match type_of(x) {
        Some(ty) => kinds::is_false(ty),
        None => false,
    }
}

/// Asks for a truth value.
pub fn boolean(x: &TypedExpr) -> Result<(), TypeFault>
    ensures { result ≡ as_boolean x.now }
{
    match type_of(x) {
        Some(ty) => check(kinds::is_boolean(ty), TypeRule::NotBoolean, place_of(x)),
        None => Ok(()),
    }
}

/// Asks for a whole number.
pub fn long(x: &TypedExpr) -> Result<(), TypeFault>
    ensures { result ≡ as_long x.now }
{
    match type_of(x) {
        Some(ty) => check(kinds::is_long(ty), TypeRule::NotLong, place_of(x)),
        None => check(false, TypeRule::NotLong, place_of(x)),
    }
}

/// Asks for a text.
pub fn string(x: &TypedExpr) -> Result<(), TypeFault>
    ensures { result ≡ as_string x.now }
{
    match type_of(x) {
        Some(ty) => check(kinds::is_string(ty), TypeRule::NotString, place_of(x)),
        None => check(false, TypeRule::NotString, place_of(x)),
    }
}

/// Asks for a decimal number.
pub fn decimal(x: &TypedExpr) -> Result<(), TypeFault>
    ensures { result ≡ as_decimal x.now }
{
    match type_of(x) {
        Some(ty) => check(kinds::is_decimal(ty), TypeRule::NotDecimal, place_of(x)),
        None => check(false, TypeRule::NotDecimal, place_of(x)),
    }
}

/// Asks for an address.
pub fn ip(x: &TypedExpr) -> Result<(), TypeFault>
    ensures { result ≡ as_ip x.now }
{
    match type_of(x) {
        Some(ty) => check(kinds::is_ip(ty), TypeRule::NotIp, place_of(x)),
        None => check(false, TypeRule::NotIp, place_of(x)),
    }
}

/// A test that has to pass, or else the fault of a rule at a place.
pub fn check(passes: bool, rule: TypeRule, at: Place) -> Result<(), TypeFault>
    ensures { result ≡ check passes rule at }
{
    if passes {
        Ok(())
    } else {
        Err(TypeFault { rule, at })
    }
}

/// The type of an entity.
pub fn entity(x: &TypedExpr) -> Result<&Name, TypeFault>
    ensures { result_map_both (λ name. name.now) (λ e. e) result ≡ as_entity x.now }
{
    let fault = TypeFault {
        rule: TypeRule::NotEntity,
        at: place_of(x),
    };
    match type_of(x) {
        Some(ty) => kinds::entity_name(ty).ok_or(fault),
        None => Err(fault),
    }
}

/// The type of an entity, or of the entities in a set.
pub fn group(x: &TypedExpr) -> Result<&Name, TypeFault>
    ensures { result_map_both (λ name. name.now) (λ e. e) result ≡ as_group x.now }
{
    let fault = TypeFault {
        rule: TypeRule::NotEntityOrSet,
        at: place_of(x),
    };
    match type_of(x) {
        Some(ty) => kinds::group(ty).ok_or(fault),
        None => Err(fault),
    }
}

/// The type of the members of a set.
pub fn set(x: &TypedExpr) -> Result<&Ty, TypeFault>
    ensures { result_map_both (λ member. member.now) (λ e. e) result ≡ as_set x.now }
{
    let fault = TypeFault {
        rule: TypeRule::NotSet,
        at: place_of(x),
    };
    match type_of(x) {
        Some(ty) => kinds::member(ty).ok_or(fault),
        None => Err(fault),
    }
}

/// The attributes that records or entities of a type may have.
pub fn object<'s>(schema: &'s Schema, at: Place, ty: &'s Ty) -> Result<&'s Attributes, TypeFault>
    ensures { result_map_both (λ fields. fields.now) (λ e. e) result ≡ as_object schema.now at ty.now }
{
    attributes(schema, ty).ok_or(TypeFault {
        rule: TypeRule::NotObject,
        at,
    })
}
