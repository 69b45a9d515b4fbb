//! Literals and variables.
ghost use Rattle.std.specs.Prelude.{Ok};
ghost use Rattle.sc_lists.specs.Told.{Gives};
ghost use Rattle.sc_eval.specs.Operators.{literal_value, variable_value};

use crate::error::EvalError;
use sc_ast::{Literal, Variable};
use sc_lists::Fault;
use sc_values::{Value, clone_rec};
use sc_world::Request;
use std::alloc::Global;

/// A literal's value.
pub(crate) fn literal_value(alloc: Global, literal: &Literal) -> Result<Value, Fault<EvalError>>
    ensures { Gives result (Ok (literal_value literal.now)) }
{
    match literal {
        Literal::Bool(b) => Ok(Value::Bool(*b)),
        Literal::Long(n) => Ok(Value::Long(*n)),
        Literal::String(text) => Ok(Value::String(text.try_clone(alloc)?)),
        Literal::Entity(uid) => Ok(Value::Entity(uid.try_clone(alloc)?)),
    }
}

/// A part of the request.
pub(crate) fn variable_value(
    alloc: Global,
    variable: Variable,
    request: &Request,
) -> Result<Value, Fault<EvalError>>
    ensures { Gives result (Ok (variable_value variable request.now)) }
{
    match variable {
        Variable::Principal => Ok(Value::Entity(request.principal.try_clone(alloc)?)),
        Variable::Action => Ok(Value::Entity(request.action.try_clone(alloc)?)),
        Variable::Resource => Ok(Value::Entity(request.resource.try_clone(alloc)?)),
        Variable::Context => Ok(Value::Record(clone_rec(alloc, &request.context)?)),
    }
}
