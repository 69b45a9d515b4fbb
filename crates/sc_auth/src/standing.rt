//! How one policy stands in a world.
ghost use Rattle.std.specs.Prelude.{◌≡◌, if◌then◌else◌, IfOk};
ghost use Rattle.sc_lists.specs.Told.{Gives};
ghost use Rattle.sc_ast.specs.Conditions.{condition};
ghost use Rattle.sc_values.specs.declared.value.Value.{out-Value};
ghost use Rattle.sc_eval.specs.Eval.{eval};
ghost use Rattle.sc_auth.specs.Decisions.{true_in};
ghost use Rattle.sc_auth.specs.Standings.{standing_of};

use sc_ast::{Policy, condition};
use sc_eval::{EvalError, evaluate};
use sc_lists::Fault;
use sc_values::Value;
use sc_world::World;
use std::alloc::{AllocError, Global};

/// How a policy stands in a world.
#[derive(Clone, Copy, Debug, PartialEq, Eq)]
pub enum Standing {
    /// Its condition is true.
    Satisfied,
    /// Its condition isn't true.
    Unsatisfied,
    /// Its condition has no value, for this reason.
    Errs(EvalError),
}

/// How a policy stands in a world.
pub(crate) fn standing_of(
    alloc: Global,
    policy: &Policy,
    world: &World,
) -> Result<Standing, AllocError>
    ensures { IfOk result (λ s. s ≡ standing_of world.now policy.now) }
{
    match outcome(alloc, policy, world) {
        Ok(value) => Ok(standing_at(value)),
        Err(Fault::Told(error)) => Ok(Standing::Errs(error)),
        Err(Fault::NoMemory) => Err(AllocError),
    }
}

/// The value of a policy's condition in a world.
fn outcome(alloc: Global, policy: &Policy, world: &World) -> Result<Value, Fault<EvalError>>
    ensures { Gives result (eval (condition policy.now) world.now) }
{
    let condition = condition(alloc, policy)?;
    let outcome = evaluate(alloc, &condition, world);
    drop(condition);
    outcome
}

/// How a policy stands whose condition has this value.
fn standing_at(value: Value) -> Standing
    ensures { result ≡ (if true_in (out-Value value) then Standing.Satisfied else Standing.Unsatisfied) }
{
    let truth = is_true(&value);
    drop(value);
    if truth {
        Standing::Satisfied
    } else {
        Standing::Unsatisfied
    }
}

/// Whether a value is `true`.
fn is_true(value: &Value) -> bool
    ensures { result ≡ true_in (out-Value value.now) }
{
    match value {
        Value::Bool(truth) => *truth,
        _ => false,
    }
}
