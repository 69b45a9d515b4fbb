//! Arithmetic on whole numbers. A number that leaves 64 bits is an `Overflow`.
ghost use Rattle.std.specs.Prelude.{◌≡◌, ◌+ℤ◌, ◌-ℤ◌, ◌*ℤ◌, neg_ℤ};
ghost use Rattle.sc_ast.specs.declared.operator.UnaryOperator.TheVariants.{Negate};
ghost use Rattle.sc_eval.specs.Outcomes.{of_long};
ghost use Rattle.sc_eval.specs.Operators.{longs, unary};

use crate::error::EvalError;
use crate::kinds::long_in;
use sc_values::Value;

/// `x + y`.
pub(crate) fn add(x: &Value, y: &Value) -> Result<Value, EvalError>
    ensures { result ≡ longs x.now y.now (λ m n. of_long (m +ℤ n)) }
{
    let m = long_in(x)?;
    sum(m, long_in(y)?)
}

fn sum(m: i64, n: i64) -> Result<Value, EvalError>
    ensures { result ≡ of_long (m +ℤ n) }
{
    let sum = m.checked_add(n).ok_or(EvalError::Overflow)?;
    Ok(Value::Long(sum))
}

/// `x - y`.
pub(crate) fn subtract(x: &Value, y: &Value) -> Result<Value, EvalError>
    ensures { result ≡ longs x.now y.now (λ m n. of_long (m -ℤ n)) }
{
    let m = long_in(x)?;
    difference(m, long_in(y)?)
}

fn difference(m: i64, n: i64) -> Result<Value, EvalError>
    ensures { result ≡ of_long (m -ℤ n) }
{
    let difference = m.checked_sub(n).ok_or(EvalError::Overflow)?;
    Ok(Value::Long(difference))
}

/// `x * y`.
pub(crate) fn multiply(x: &Value, y: &Value) -> Result<Value, EvalError>
    ensures { result ≡ longs x.now y.now (λ m n. of_long (m *ℤ n)) }
{
    let m = long_in(x)?;
    product(m, long_in(y)?)
}

fn product(m: i64, n: i64) -> Result<Value, EvalError>
    ensures { result ≡ of_long (m *ℤ n) }
{
    let product = m.checked_mul(n).ok_or(EvalError::Overflow)?;
    Ok(Value::Long(product))
}

/// `-x`.
pub(crate) fn negate(x: &Value) -> Result<Value, EvalError>
    ensures { result ≡ unary Negate x.now }
{
    negative(long_in(x)?)
}

fn negative(n: i64) -> Result<Value, EvalError>
    ensures { result ≡ of_long (neg_ℤ n) }
{
    let negative = n.checked_neg().ok_or(EvalError::Overflow)?;
    Ok(Value::Long(negative))
}
