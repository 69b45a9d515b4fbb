//! The least stored entity that isn't as it has to be.
ghost use Rattle.std.specs.Prelude.{MatchOption};
ghost use Rattle.sc_world.specs.Least.{IsBroken, IsLeast};
ghost use Rattle.sc_world.specs.Sound.{AreSound};
ghost use Rattle.sc_world.specs.Stores.{IsMap};

use crate::sound::is_sound_entry;
use crate::store::Store;
use sc_names::Uid;
use sc_schema::Schema;

/// The least stored entity that isn't as its type, its ancestors and its kind have it, whatever it
/// names.
pub fn first_broken<'w>(s: &Schema, store: &'w Store) -> Option<&'w Uid>
    ensures least { MatchOption result (AreSound s.now store.now) (λ uid. IsLeast (IsBroken s.now store.now) uid.now) }
    ensures ascending { IsMap store.now }
{
    for (uid, entity) in store.entities().iter() {
        if !is_sound_entry(s, store, uid, entity) {
            return Some(uid);
        }
    }
    None
}
