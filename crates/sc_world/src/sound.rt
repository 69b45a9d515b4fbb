//! Whether a stored entity is as a well-formed world has it, whatever it names.
ghost use Rattle.std.specs.Prelude.{◌↔◌, IsTrue};
ghost use Rattle.sc_world.specs.Sound.{IsSoundEntry};

use crate::actions::is_action;
use crate::ancestors::is_ordered;
use crate::attributes::is_typed;
use crate::choices::has_choices;
use crate::entity::EntityData;
use crate::proper::is_proper_entry;
use crate::store::Store;
use sc_names::Uid;
use sc_schema::Schema;

/// Whether what is stored of an entity is as its type, its ancestors and its kind have it: made of
/// values, of a declared type with that type's attributes and tags, below ancestors of allowed types
/// and all of theirs but not below itself, as it is declared if it is an action, and a choice, as its
/// ancestors are, where the type is enumerated. Whether the entities that it names are stored isn't
/// asked.
pub(crate) fn is_sound_entry(s: &Schema, store: &Store, uid: &Uid, entity: &EntityData) -> bool
    ensures { IsTrue result ↔ IsSoundEntry s.now store.now (uid.now, entity.now) }
{
    if !is_proper_entry(uid, entity) {
        return false;
    }
    let typed = is_typed(s, uid, entity);
    let ordered = is_ordered(store, uid, entity);
    let action = is_action(s, uid, entity);
    let chosen = has_choices(s, uid, entity);
    typed && ordered && action && chosen
}
