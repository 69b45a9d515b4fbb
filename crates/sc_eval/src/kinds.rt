//! Values that have to be of one kind. A value of another kind is a `TypeError`.
ghost use Rattle.std.specs.Prelude.{◌≡◌};
ghost use Rattle.std.specs.Result.{result_map_both};
ghost use Rattle.sc_eval.specs.Outcomes.{as_bool, as_long, as_text, as_entity, as_set, as_decimal, as_address};

use crate::error::EvalError;
use sc_decimal::Decimal;
use sc_ip::Ip;
use sc_lists::Text;
use sc_names::Uid;
use sc_values::{Set, Value};

/// The truth value.
pub(crate) fn bool_in(value: &Value) -> Result<bool, EvalError>
    ensures { result ≡ as_bool value.now }
{
    match value {
        Value::Bool(b) => Ok(*b),
        _ => Err(EvalError::TypeError),
    }
}

/// The whole number.
pub(crate) fn long_in(value: &Value) -> Result<i64, EvalError>
    ensures { result ≡ as_long value.now }
{
    match value {
        Value::Long(n) => Ok(*n),
        _ => Err(EvalError::TypeError),
    }
}

/// The text.
pub(crate) fn text_in(value: &Value) -> Result<&Text, EvalError>
    ensures { result_map_both (λ x. x.now) (λ e. e) result ≡ as_text value.now }
{
    match value {
        Value::String(text) => Ok(text),
        _ => Err(EvalError::TypeError),
    }
}

/// The entity's uid.
pub(crate) fn entity_in(value: &Value) -> Result<&Uid, EvalError>
    ensures { result_map_both (λ x. x.now) (λ e. e) result ≡ as_entity value.now }
{
    match value {
        Value::Entity(uid) => Ok(uid),
        _ => Err(EvalError::TypeError),
    }
}

/// The set.
pub(crate) fn set_in(value: &Value) -> Result<&Set, EvalError>
    ensures { result_map_both (λ x. x.now) (λ e. e) result ≡ as_set value.now }
{
    match value {
        Value::Set(members) => Ok(members),
        _ => Err(EvalError::TypeError),
    }
}

/// The decimal number.
pub(crate) fn decimal_in(value: &Value) -> Result<Decimal, EvalError>
    ensures { result ≡ as_decimal value.now }
{
    match value {
        Value::Decimal(d) => Ok(*d),
        _ => Err(EvalError::TypeError),
    }
}

/// The address.
pub(crate) fn address_in(value: &Value) -> Result<Ip, EvalError>
    ensures { result ≡ as_address value.now }
{
    match value {
        Value::Ip(a) => Ok(*a),
        _ => Err(EvalError::TypeError),
    }
}
