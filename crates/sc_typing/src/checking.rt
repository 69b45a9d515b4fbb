//! Typing of all policies in all environments.
ghost use Rattle.std.specs.Prelude.{◌≡◌, IfOk};
ghost use Rattle.sc_lists.specs.Told.{Gives};
ghost use Rattle.sc_schema.specs.Declarations.{environments};
ghost use Rattle.sc_typing.specs.Checking.{refusing, fault_in, first_in, type_fault};

use crate::ill_typed::IllTyped;
use crate::policy::boxed_policy;
use sc_ast::{Policy, PolicySet};
use sc_lists::Fault;
use sc_schema::{Env, Schema, environments};
use sc_typed::TypeFault;
use std::alloc::{AllocError, Global};

/// Types each policy in each environment of a schema. The error is the first policy that has no type in
/// some environment, in the first such environment.
#[tactic(auto, using(crate::proofs::CheckingLaws::policies_more), unfolding(crate::specs::Checking::fault_from))]
pub fn check_types(
    alloc: Global,
    schema: &Schema,
    policies: &PolicySet,
) -> Result<(), Fault<IllTyped>>
    ensures { Gives result (refusing (type_fault schema.now policies.now)) }
{
    for (i, policy) in policies.as_slice().iter().enumerate() {
        check_policy(alloc, schema, i, policy, environments(schema))?;
    }
    Ok(())
}

/// Types a policy in each of these environments.
#[tactic(auto, using(crate::proofs::CheckingLaws::environments_more), unfolding(crate::specs::Checking::first_in))]
fn check_policy(
    alloc: Global,
    schema: &Schema,
    i: usize,
    policy: &Policy,
    envs: &[Env],
) -> Result<(), Fault<IllTyped>>
    ensures { Gives result (refusing (first_in schema.now i policy.now envs.now)) }
{
    for env in envs {
        check_in(alloc, schema, i, policy, env)?;
    }
    Ok(())
}

/// Types a policy in an environment.
fn check_in(
    alloc: Global,
    schema: &Schema,
    i: usize,
    policy: &Policy,
    env: &Env,
) -> Result<(), Fault<IllTyped>>
    ensures { Gives result (refusing (fault_in schema.now i policy.now env.now)) }
{
    match boxed_policy(alloc, schema, env, policy) {
        Ok(_) => Ok(()),
        Err(Fault::Told(fault)) => Err(Fault::Told(ill_typed(alloc, i, env, fault)?)),
        Err(Fault::NoMemory) => Err(Fault::NoMemory),
    }
}

fn ill_typed(alloc: Global, i: usize, env: &Env, fault: TypeFault) -> Result<IllTyped, AllocError>
    ensures { IfOk result (λ x. x ≡ record { policy = i; env = env.now; fault = fault }) }
{
    let env = Env {
        principal: env.principal.try_clone(alloc)?,
        action: env.action.try_clone(alloc)?,
        resource: env.resource.try_clone(alloc)?,
    };
    Ok(IllTyped {
        policy: i,
        env,
        fault,
    })
}
