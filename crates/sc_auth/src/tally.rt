//! How policies stand: which are satisfied, and which err.
ghost use Rattle.std.specs.Prelude.{◌≡◌, ◌++◌, [], ◌∷◌, ◌&&◌, not, if◌then◌else◌, length, map, IfOk, OnOk};
ghost use Rattle.sc_auth.specs.Decisions.{permits, first_some, places, is_permitting, is_forbidding, errs, decided};
ghost use Rattle.sc_auth.specs.Standings.{standing_of, listed, is_satisfied, has_erred, is_some};

use crate::decision::Decision;
use crate::response::Response;
use crate::standing::{Standing, standing_of};
use sc_ast::{Effect, Policy};
use sc_lists::Seq;
use sc_world::World;
use std::alloc::{AllocError, Global};

/// How the policies so far stand, and the places of those that are satisfied, by effect, and of those
/// that err.
#[derive(Drop)]
pub(crate) struct Tally {
    permits: Seq<usize>,
    forbids: Seq<usize>,
    erring: Seq<usize>,
    standings: Seq<Standing>,
}

impl Tally {
    /// Counts the next policy.
    fn count(&mut self, effect: Effect, standing: Standing) -> Result<(), AllocError>
        ensures permits { OnOk result (self.new.permits ≡ self.old.permits
            ++ listed (permits effect && is_satisfied standing) (length self.old.standings)) }
        ensures forbids { OnOk result (self.new.forbids ≡ self.old.forbids
            ++ listed (not (permits effect) && is_satisfied standing) (length self.old.standings)) }
        ensures erring { OnOk result (self.new.erring ≡ self.old.erring
            ++ listed (has_erred standing) (length self.old.standings)) }
        ensures standings { OnOk result (self.new.standings ≡ self.old.standings ++ standing ∷ []) }
    {
        let place = self.standings.len();
        self.standings.push(standing)?;
        self.list(place, effect, standing)
    }

    /// Lists the place of a policy by how it stands.
    fn list(&mut self, place: usize, effect: Effect, standing: Standing) -> Result<(), AllocError>
        ensures permits { OnOk result (self.new.permits ≡ self.old.permits
            ++ listed (permits effect && is_satisfied standing) place) }
        ensures forbids { OnOk result (self.new.forbids ≡ self.old.forbids
            ++ listed (not (permits effect) && is_satisfied standing) place) }
        ensures erring { OnOk result (self.new.erring ≡ self.old.erring ++ listed (has_erred standing) place) }
        ensures standings { self.new.standings ≡ self.old.standings }
    {
        match (standing, effect) {
            (Standing::Satisfied, Effect::Permit) => self.permits.push(place),
            (Standing::Satisfied, Effect::Forbid) => self.forbids.push(place),
            (Standing::Unsatisfied, _) => Ok(()),
            (Standing::Errs(_), _) => self.erring.push(place),
        }
    }

    /// The response where just these policies are satisfied and err.
    pub(crate) fn into_response(self) -> Response
        ensures decision { result.decision ≡ decided (is_some self.permits && not (is_some self.forbids)) }
        ensures determining { result.determining ≡ first_some self.forbids self.permits }
        ensures erroring { result.erroring ≡ self.erring }
        ensures standings { result.standings ≡ self.standings }
    {
        if !self.forbids.is_empty() {
            return Response {
                decision: Decision::Deny,
                determining: self.forbids,
                erroring: self.erring,
                standings: self.standings,
            };
        }
        let decision = if self.permits.is_empty() {
            Decision::Deny
        } else {
            Decision::Allow
        };
        Response {
            decision,
            determining: self.permits,
            erroring: self.erring,
            standings: self.standings,
        }
    }
}

/// How the policies stand in a world.
pub(crate) fn tally_of(
    alloc: Global,
    policies: &[Policy],
    world: &World,
) -> Result<Tally, AllocError>
    ensures permits { IfOk result (λ t. t.permits ≡ places (is_permitting world.now) policies.now) }
    ensures forbids { IfOk result (λ t. t.forbids ≡ places (is_forbidding world.now) policies.now) }
    ensures erring { IfOk result (λ t. t.erring ≡ places (errs world.now) policies.now) }
    ensures standings { IfOk result (λ t. t.standings ≡ map (standing_of world.now) policies.now) }
{
    let mut tally = Tally {
        permits: Seq::new(alloc),
        forbids: Seq::new(alloc),
        erring: Seq::new(alloc),
        standings: Seq::new(alloc),
    };
    for policy in policies {
        let standing = standing_of(alloc, policy, world)?;
        tally.count(policy.effect, standing)?;
    }
    Ok(tally)
}
