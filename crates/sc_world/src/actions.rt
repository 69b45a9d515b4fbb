//! Stored actions: exactly the declared ones, with their declared ancestors and nothing else.
ghost use Rattle.std.specs.Prelude.{◌↔◌, IsTrue};
ghost use Rattle.sc_world.specs.Tests.{IsStoredAction, HasActionData};
ghost use Rattle.sc_world.specs.WellFormed.{IsAction};

use crate::attributes::is_empty;
use crate::entity::EntityData;
use crate::uids::are_same;
use sc_names::Uid;
use sc_schema::{Schema, action_ancestors, is_action_type};

/// Whether an entity of an action's type is a declared action, as it is declared.
pub(crate) fn is_action(s: &Schema, uid: &Uid, entity: &EntityData) -> bool
    ensures { IsTrue result ↔ IsAction s.now (uid.now, entity.now) }
{
    if is_action_type(s, &uid.type_name) {
        is_declared(s, uid, entity)
    } else {
        true
    }
}

fn is_declared(s: &Schema, uid: &Uid, entity: &EntityData) -> bool
    ensures { IsTrue result ↔ IsStoredAction s.now (uid.now, entity.now) }
{
    s.laws();
    match action_ancestors(s, uid) {
        Some(ancestors) => has_action_data(ancestors, entity),
        None => false,
    }
}

/// Whether nothing but these ancestors is stored of an entity.
fn has_action_data(ancestors: &[Uid], entity: &EntityData) -> bool
    ensures { IsTrue result ↔ HasActionData ancestors.now entity.now }
{
    let attrs = is_empty(&entity.attrs);
    let same = are_same(entity.ancestors.as_slice(), ancestors);
    let tags = is_empty(&entity.tags);
    attrs && same && tags
}
