//! Addresses.
ghost use Rattle.std.specs.Prelude.{◌≡◌};
ghost use Rattle.sc_ast.specs.declared.operator.UnaryOperator.TheVariants.{IsIpv4, IsIpv6, IsLoopback, IsMulticast};
ghost use Rattle.sc_ip.specs.Addresses.{is_in_range};
ghost use Rattle.sc_eval.specs.Outcomes.{of_bool};
ghost use Rattle.sc_eval.specs.Operators.{addresses, unary};

use crate::error::EvalError;
use crate::kinds::address_in;
use sc_values::Value;

/// `x.isInRange(y)`.
pub(crate) fn is_in_range(x: &Value, y: &Value) -> Result<Value, EvalError>
    ensures { result ≡ addresses x.now y.now (λ a b. of_bool (is_in_range a b)) }
{
    let a = address_in(x)?;
    let b = address_in(y)?;
    Ok(Value::Bool(sc_ip::in_range(&a, &b)))
}

/// `x.isIpv4()`.
pub(crate) fn is_ipv4(x: &Value) -> Result<Value, EvalError>
    ensures { result ≡ unary IsIpv4 x.now }
{
    let a = address_in(x)?;
    Ok(Value::Bool(sc_ip::is_v4(&a)))
}

/// `x.isIpv6()`.
pub(crate) fn is_ipv6(x: &Value) -> Result<Value, EvalError>
    ensures { result ≡ unary IsIpv6 x.now }
{
    let a = address_in(x)?;
    Ok(Value::Bool(!sc_ip::is_v4(&a)))
}

/// `x.isLoopback()`.
pub(crate) fn is_loopback(x: &Value) -> Result<Value, EvalError>
    ensures { result ≡ unary IsLoopback x.now }
{
    let a = address_in(x)?;
    Ok(Value::Bool(sc_ip::is_loopback(&a)))
}

/// `x.isMulticast()`.
pub(crate) fn is_multicast(x: &Value) -> Result<Value, EvalError>
    ensures { result ≡ unary IsMulticast x.now }
{
    let a = address_in(x)?;
    Ok(Value::Bool(sc_ip::is_multicast(&a)))
}
