//! The request.
ghost use Rattle.std.specs.Prelude.{◌≡◌, IfOk};
ghost use Rattle.sc_model_worlds.specs.Listed.{AreListed};
ghost use Rattle.sc_model_worlds.specs.Saying.{uid_in};
ghost use Rattle.sc_footprint.specs.Closure.{principal_term, resource_term};
ghost use Rattle.sc_model_values.specs.Models.{model};
ghost use Rattle.sc_model_world_laws.specs.Rebuilt.{request_of as request_said};

use crate::context::context_of;
use crate::listed::{closed_of, uid_at};
use crate::saying::first;
use crate::sought::Sought;
use sc_clauses::Assignment;
use sc_footprint::{Problem, closed_laws};
use sc_lists::Text;
use sc_names::Uid;
use sc_world::Request;
use std::alloc::{AllocError, Global};

/// Who asks.
fn principal_of(
    alloc: Global,
    problem: &Problem<'_>,
    names: &[Text],
    closed: &[u64],
) -> Result<Uid, AllocError>
    requires listed { AreListed problem.now closed.now }
    requires all { closed.now ≡ problem.now.closed }
    ensures { IfOk result (λ u. u ≡ uid_in problem.now names.now (principal_term problem.now.schema problem.now.env)) }
{
    problem.laws();
    closed_laws();
    let sought = Sought::Principal;
    let found = first(problem, names, &sought, closed);
    match found {
        Some(term) => uid_at(alloc, problem, names, term),
        None => unreachable!(),
    }
}

/// With what.
fn resource_of(
    alloc: Global,
    problem: &Problem<'_>,
    names: &[Text],
    closed: &[u64],
) -> Result<Uid, AllocError>
    requires listed { AreListed problem.now closed.now }
    requires all { closed.now ≡ problem.now.closed }
    ensures { IfOk result (λ u. u ≡ uid_in problem.now names.now (resource_term problem.now.schema problem.now.env)) }
{
    problem.laws();
    closed_laws();
    let sought = Sought::Resource;
    let found = first(problem, names, &sought, closed);
    match found {
        Some(term) => uid_at(alloc, problem, names, term),
        None => unreachable!(),
    }
}

/// The request, by the closed terms.
fn listed_request(
    alloc: Global,
    problem: &Problem<'_>,
    m: &Assignment,
    names: &[Text],
    closed: &[u64],
) -> Result<Request, AllocError>
    requires listed { AreListed problem.now closed.now }
    requires all { closed.now ≡ problem.now.closed }
    ensures { IfOk result (λ r. r
        ≡ request_said problem.now.schema problem.now.env (model problem.now m.now names.now)) }
{
    let principal = principal_of(alloc, problem, names, closed)?;
    let resource = resource_of(alloc, problem, names, closed)?;
    let action = problem.env().action.try_clone(alloc)?;
    let context = context_of(alloc, problem, m, names, closed)?;
    Ok(Request {
        principal,
        action,
        resource,
        context,
    })
}

/// The request that an assignment stands for, with these names of closed terms, by their numbers
/// from 1 on. Want of memory is its one fault.
pub fn request_of(
    alloc: Global,
    problem: &Problem<'_>,
    m: &Assignment,
    names: &[Text],
) -> Result<Request, AllocError>
    ensures { IfOk result (λ r. r
        ≡ request_said problem.now.schema problem.now.env (model problem.now m.now names.now)) }
{
    let closed = closed_of(alloc, problem)?;
    listed_request(alloc, problem, m, names, closed.as_slice())
}
