//! Objects inside values that are no records: their one member marks them.
ghost use Rattle.std.specs.Prelude.{◌≡◌, option_map};
ghost use Rattle.serde_json.specs.View.{members_view};
ghost use Rattle.sc_world_json.specs.Marks.{only_name, mark_named, mark_of};

use sc_lists::equals;
use serde_json::{Map, Value as Json};

/// What an object with just one member is marked as, by the member's name.
#[derive(Clone, Copy)]
pub(crate) enum Mark {
    /// `__entity`: an entity, by its uid.
    Entity,
    /// `__extn`: the value that a function gives for a text.
    Extension,
}

/// What the name of an object's one member marks the object as.
pub(crate) fn mark_named(name: &str) -> Option<Mark>
    ensures { result ≡ mark_named name.now }
{
    if equals(name, "__entity") {
        Some(Mark::Entity)
    } else if equals(name, "__extn") {
        Some(Mark::Extension)
    } else {
        None
    }
}

/// The name of an object's one member, if it has just one.
fn only_name(members: &Map<String, Json>) -> Option<&str>
    ensures { option_map (λ name. name.now) result ≡ only_name (members_view members.now.entries) }
{
    let mut entries = members.iter();
    let (name, _) = entries.next()?;
    match entries.next() {
        Some(_) => None,
        None => Some(name.as_str()),
    }
}

/// What an object is marked as.
pub(crate) fn mark_of(members: &Map<String, Json>) -> Option<Mark>
    ensures { result ≡ mark_of (members_view members.now.entries) }
{
    match only_name(members) {
        Some(name) => mark_named(name),
        None => None,
    }
}
