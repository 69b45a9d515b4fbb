//! Truth values.
ghost use Rattle.std.specs.Prelude.{◌≡◌};
ghost use Rattle.sc_ast.specs.declared.operator.UnaryOperator.TheVariants.{Not};
ghost use Rattle.sc_eval.specs.Operators.{unary};

use crate::error::EvalError;
use crate::kinds::bool_in;
use sc_values::Value;

/// `!x`.
pub(crate) fn not(x: &Value) -> Result<Value, EvalError>
    ensures { result ≡ unary Not x.now }
{
    Ok(Value::Bool(!bool_in(x)?))
}
