//! Members of objects.
ghost use Rattle.std.specs.Prelude.{◌≡◌, option_map, option_and_then, unwrap_or};
ghost use Rattle.serde_json.specs.View.{view, members_view};
ghost use Rattle.serde_json.specs.Find.{get, get_member};
ghost use Rattle.sc_world_json.specs.Worlds.{text_at};

use serde_json::{Map, Value as Json};

/// The value at a name among the members of an object.
pub(crate) fn member<'m>(members: &'m Map<String, Json>, name: &str) -> Option<&'m Json>
    ensures { option_map (λ v. view v.now) result ≡ get_member name.now (members_view members.now.entries) }
{
    members.get(name)
}

/// The value at a name, where the value around, if any, is an object that has such a member.
pub(crate) fn value_at<'v>(value: Option<&'v Json>, name: &str) -> Option<&'v Json>
    ensures { option_map (λ v. view v.now) result
        ≡ option_and_then (get name.now) (option_map (λ v. view v.now) value.entry) }
{
    match value {
        Some(value) => value.get(name),
        None => None,
    }
}

/// The text at a name, which is empty if there is none.
pub(crate) fn text_at<'v>(value: Option<&'v Json>, name: &str) -> &'v str
    ensures { result.now ≡ text_at name.now (option_map (λ v. view v.now) value.entry) }
{
    match value_at(value, name) {
        Some(value) => match value.as_str() {
            Some(text) => text,
            None => "",
        },
        None => "",
    }
}
