//! The order of whole numbers and that of decimal numbers.
ghost use Rattle.std.specs.Prelude.{◌≡◌, int_lt, int_le};
ghost use Rattle.sc_eval.specs.Outcomes.{of_bool};
ghost use Rattle.sc_eval.specs.Operators.{longs, decimals};

use crate::error::EvalError;
use crate::kinds::{decimal_in, long_in};
use sc_decimal::{le, lt};
use sc_values::Value;

/// `x < y`.
pub(crate) fn less(x: &Value, y: &Value) -> Result<Value, EvalError>
    ensures { result ≡ longs x.now y.now (λ m n. of_bool (int_lt m n)) }
{
    let m = long_in(x)?;
    let n = long_in(y)?;
    Ok(Value::Bool(m < n))
}

/// `x <= y`.
pub(crate) fn less_or_equal(x: &Value, y: &Value) -> Result<Value, EvalError>
    ensures { result ≡ longs x.now y.now (λ m n. of_bool (int_le m n)) }
{
    let m = long_in(x)?;
    let n = long_in(y)?;
    Ok(Value::Bool(m <= n))
}

/// `x > y`.
pub(crate) fn greater(x: &Value, y: &Value) -> Result<Value, EvalError>
    ensures { result ≡ longs x.now y.now (λ m n. of_bool (int_lt n m)) }
{
    let m = long_in(x)?;
    let n = long_in(y)?;
    Ok(Value::Bool(m > n))
}

/// `x >= y`.
pub(crate) fn greater_or_equal(x: &Value, y: &Value) -> Result<Value, EvalError>
    ensures { result ≡ longs x.now y.now (λ m n. of_bool (int_le n m)) }
{
    let m = long_in(x)?;
    let n = long_in(y)?;
    Ok(Value::Bool(m >= n))
}

/// `x.lessThan(y)`.
#[tactic(auto, using(crate::proofs::TestLaws::less_is))]
pub(crate) fn decimal_less(x: &Value, y: &Value) -> Result<Value, EvalError>
    ensures { result ≡ decimals x.now y.now (λ m n. of_bool (int_lt m n)) }
{
    let m = decimal_in(x)?;
    let n = decimal_in(y)?;
    Ok(Value::Bool(lt(&m, &n)))
}

/// `x.lessThanOrEqual(y)`.
#[tactic(auto, using(crate::proofs::TestLaws::less_or_equal_is))]
pub(crate) fn decimal_less_or_equal(x: &Value, y: &Value) -> Result<Value, EvalError>
    ensures { result ≡ decimals x.now y.now (λ m n. of_bool (int_le m n)) }
{
    let m = decimal_in(x)?;
    let n = decimal_in(y)?;
    Ok(Value::Bool(le(&m, &n)))
}

/// `x.greaterThan(y)`.
#[tactic(auto, using(crate::proofs::TestLaws::less_is))]
pub(crate) fn decimal_greater(x: &Value, y: &Value) -> Result<Value, EvalError>
    ensures { result ≡ decimals x.now y.now (λ m n. of_bool (int_lt n m)) }
{
    let m = decimal_in(x)?;
    let n = decimal_in(y)?;
    Ok(Value::Bool(lt(&n, &m)))
}

/// `x.greaterThanOrEqual(y)`.
#[tactic(auto, using(crate::proofs::TestLaws::less_or_equal_is))]
pub(crate) fn decimal_greater_or_equal(x: &Value, y: &Value) -> Result<Value, EvalError>
    ensures { result ≡ decimals x.now y.now (λ m n. of_bool (int_le n m)) }
{
    let m = decimal_in(x)?;
    let n = decimal_in(y)?;
    Ok(Value::Bool(le(&n, &m)))
}
