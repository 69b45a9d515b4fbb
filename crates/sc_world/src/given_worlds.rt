//! The world in which some entities are given, and each other one is as it is by default.
ghost use Rattle.std.specs.Prelude.{◌≡◌, IfOk};
ghost use Rattle.sc_schema.specs.declared.declarations.Env.{Env as AnyEnv};
ghost use Rattle.sc_world.specs.Given.{AreAsGiven, StoresNamedWith};
ghost use Rattle.sc_world.specs.Named.{IsRequestAmong};
ghost use Rattle.sc_world.specs.Sound.{AreSound};
ghost use Rattle.sc_world.specs.WellFormed.{IsWellFormed};

use crate::filling::filled;
use crate::store::Store;
use crate::world::{Request, World};
use sc_names::Lits;
use sc_schema::Schema;
use std::alloc::{AllocError, Global};

/// The world of a request in which given entities are stored as they stand, and all else that is
/// named as it is by default: the declared actions, what the request names, the literals, and what
/// the attributes, tags and ancestors of a stored entity name. It is well-formed where each given
/// entity is as its type, its ancestors and its kind have it.
pub fn world_with(
    alloc: Global,
    s: &Schema,
    request: Request,
    given: Store,
    lits: &Lits,
) -> Result<World, AllocError>
    ensures request { IfOk result (λ w. w.request ≡ request) }
    ensures value { IfOk result (λ w. AreAsGiven s.now given w.store) }
    ensures exact { IfOk result (λ w. StoresNamedWith s.now given request lits.now w.store) }
    ensures well_formed { (env : AnyEnv) → IsRequestAmong s.now env request lits.now → AreSound s.now given
        → IfOk result (IsWellFormed s.now env lits.now) }
{
    s.laws();
    let store = filled(alloc, s, given, &request, lits)?;
    let _ascending = store.entities();
    Ok(World { request, store })
}
