//! Authorisation of requests.
ghost use Rattle.std.specs.Prelude.{◌≡◌, IfOk, map};
ghost use Rattle.sc_auth.specs.Decisions.{allows, decided, determining, erroring};
ghost use Rattle.sc_auth.specs.Standings.{standing_of};

use crate::response::Response;
use crate::tally::tally_of;
use sc_ast::PolicySet;
use sc_world::World;
use std::alloc::{AllocError, Global};

/// What a policy set answers to a world's request (Cedar language reference, authorization): it is
/// allowed exactly where some permit is satisfied and no forbid is. Each condition is evaluated once.
#[tactic(auto, using(crate::proofs::PlacesLaws::decision_is))]
pub fn authorise(alloc: Global, policies: &PolicySet, world: &World) -> Result<Response, AllocError>
    ensures decision { IfOk result (λ r. r.decision ≡ decided (allows world.now policies.now)) }
    ensures determining { IfOk result (λ r. r.determining ≡ determining world.now policies.now) }
    ensures erroring { IfOk result (λ r. r.erroring ≡ erroring world.now policies.now) }
    ensures standings { IfOk result (λ r. r.standings ≡ map (standing_of world.now) policies.now) }
{
    let tally = tally_of(alloc, policies.as_slice(), world)?;
    Ok(tally.into_response())
}
