//! Equality, and the members of sets.
ghost use Rattle.std.specs.Prelude.{◌≡◌, IfOk};
ghost use Rattle.std.specs.List.{list_all, list_any};
ghost use Rattle.sc_ast.specs.declared.operator.UnaryOperator.TheVariants.{IsEmpty};
ghost use Rattle.sc_eval.specs.Collections.{is_same, is_member, set_value};
ghost use Rattle.sc_eval.specs.Outcomes.{of_bool};
ghost use Rattle.sc_eval.specs.Operators.{sets, unary, contained};

use crate::error::EvalError;
use crate::kinds::set_in;
use sc_values::{Set, Value, intersects, set_of, subset};
use std::alloc::{AllocError, Global};

/// `x == y`: whether the two are one value.
pub(crate) fn is_equal(x: &Value, y: &Value) -> bool
    ensures { result ≡ is_same x.now y.now }
{
    sc_values::is_same(x, y)
}

/// `x.contains(y)`.
pub(crate) fn contains(x: &Value, y: &Value) -> Result<Value, EvalError>
    ensures { result ≡ contained x.now y.now }
{
    let members = set_in(x)?;
    Ok(Value::Bool(has_member(members, y)))
}

fn has_member(s: &Set, x: &Value) -> bool
    ensures { result ≡ is_member s.now x.now }
{
    sc_values::contains(s, x)
}

/// `x.containsAll(y)`.
pub(crate) fn contains_all(x: &Value, y: &Value) -> Result<Value, EvalError>
    ensures { result ≡ sets x.now y.now (λ s t. of_bool (list_all (is_member s) t)) }
{
    let s = set_in(x)?;
    let t = set_in(y)?;
    Ok(Value::Bool(has_all(s, t)))
}

fn has_all(s: &Set, t: &Set) -> bool
    ensures { result ≡ list_all (is_member s.now) t.now }
{
    subset(t, s)
}

/// `x.containsAny(y)`.
pub(crate) fn contains_any(x: &Value, y: &Value) -> Result<Value, EvalError>
    ensures { result ≡ sets x.now y.now (λ s t. of_bool (list_any (is_member s) t)) }
{
    let s = set_in(x)?;
    let t = set_in(y)?;
    Ok(Value::Bool(has_any(s, t)))
}

fn has_any(s: &Set, t: &Set) -> bool
    ensures { result ≡ list_any (is_member s.now) t.now }
{
    intersects(t, s)
}

/// `x.isEmpty()`.
pub(crate) fn is_empty(x: &Value) -> Result<Value, EvalError>
    ensures { result ≡ unary IsEmpty x.now }
{
    Ok(Value::Bool(set_in(x)?.is_empty()))
}

/// The set of these members.
#[tactic(auto, using(crate::specs::CollectionLaws::set_is))]
pub(crate) fn set_value(alloc: Global, members: &[Value]) -> Result<Value, AllocError>
    ensures { IfOk result (λ v. v ≡ set_value members.now) }
{
    Ok(Value::Set(set_of(alloc, members)?))
}
