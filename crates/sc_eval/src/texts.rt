//! What is read from texts. A text that doesn't read is a `BadText`.
ghost use Rattle.std.specs.Prelude.{◌≡◌};
ghost use Rattle.sc_ast.specs.declared.operator.UnaryOperator.TheVariants.{Decimal as decimal_operator, Ip as ip_operator};
ghost use Rattle.sc_eval.specs.Operators.{unary, is_like};

use crate::error::EvalError;
use crate::kinds::text_in;
use sc_decimal::read_decimal;
use sc_ip::read_ip;
use sc_pattern::{Pattern, matches};
use sc_values::Value;

/// `x like "pattern"`.
pub(crate) fn is_like(x: &Value, pattern: &Pattern) -> Result<bool, EvalError>
    ensures { result ≡ is_like pattern.now x.now }
{
    let text = text_in(x)?;
    Ok(matches(pattern, text.as_str()))
}

/// `decimal(x)`.
pub(crate) fn decimal(x: &Value) -> Result<Value, EvalError>
    ensures { result ≡ unary decimal_operator x.now }
{
    let text = text_in(x)?;
    match read_decimal(text.as_str()) {
        Ok(decimal) => Ok(Value::Decimal(decimal)),
        Err(_) => Err(EvalError::BadText),
    }
}

/// `ip(x)`.
pub(crate) fn ip(x: &Value) -> Result<Value, EvalError>
    ensures { result ≡ unary ip_operator x.now }
{
    let text = text_in(x)?;
    match read_ip(text.as_str()) {
        Ok(address) => Ok(Value::Ip(address)),
        Err(_) => Err(EvalError::BadText),
    }
}
