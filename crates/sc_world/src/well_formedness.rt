//! Whether a world is well-formed.
ghost use Rattle.std.specs.Prelude.{◌↔◌, Contains, IsTrue};
ghost use Rattle.sc_schema.specs.Declarations.{environments};
ghost use Rattle.sc_world.specs.Stores.{IsMap};
ghost use Rattle.sc_world.specs.Sound.{AreSound};
ghost use Rattle.sc_world.specs.Tests.{HasWellFormedParts, StoresWanted};
ghost use Rattle.sc_world.specs.WellFormed.{IsWellFormed};

use crate::broken::first_broken;
use crate::missing::first_missing;
use crate::proper::is_proper_request;
use crate::request::is_request_of;
use crate::store::Store;
use crate::world::World;
use sc_names::Lits;
use sc_schema::{Env, Schema};

/// Whether a world is well-formed for an environment of a schema and the uids that policies write.
/// The request is of the environment. Attributes and tags of stored entities conform to their
/// types. Ancestors are of allowed types, and they are transitive and acyclic. The stored actions
/// are exactly the declared ones. Entities of enumerated types have choices as ids. Each uid that is
/// named is stored.
pub fn well_formed(s: &Schema, env: &Env, w: &World, lits: &Lits) -> bool
    requires { Contains (environments s.now) env.now }
    ensures { IsTrue result ↔ IsWellFormed s.now env.now lits.now w.now }
{
    has_well_formed_parts(s, env, w, lits)
}

fn has_well_formed_parts(s: &Schema, env: &Env, w: &World, lits: &Lits) -> bool
    ensures { IsTrue result ↔ HasWellFormedParts s.now env.now lits.now w.now }
{
    let proper = is_proper_request(&w.request);
    let request = is_request_of(s, env, &w.request);
    let sound = are_sound(s, &w.store);
    let stored = stores_wanted(s, w, lits);
    proper && request && sound && stored
}

fn are_sound(s: &Schema, store: &Store) -> bool
    ensures sound { IsTrue result ↔ AreSound s.now store.now }
    ensures ascending { IsMap store.now }
{
    first_broken(s, store).is_none()
}

fn stores_wanted(s: &Schema, w: &World, lits: &Lits) -> bool
    ensures { IsTrue result ↔ StoresWanted s.now lits.now w.now }
{
    first_missing(s, w, lits).is_none()
}
