//! Members of objects.
ghost use Rattle.std.specs.Prelude.{◌≡◌, ◌<◌, option_map, option_and_then, is_some, IfSome};
ghost use Rattle.serde_json.specs.Data.{depth};
ghost use Rattle.serde_json.specs.View.{view, members_view};
ghost use Rattle.serde_json.specs.Find.{get, get_member, as_str};

use serde_json::{Map, Value};

/// The value at a name among the members of an object.
pub(crate) fn member<'m>(members: &'m Map<String, Value>, name: &str) -> Option<&'m Value>
    ensures { option_map (λ v. view v.now) result ≡ get_member name.now (members_view members.now.entries) }
{
    members.get(name)
}

/// The value at a name, where the value around is an object that has such a member.
pub(crate) fn value_at<'v>(value: &'v Value, name: &str) -> Option<&'v Value>
    ensures found { option_map (λ v. view v.now) result ≡ get name.now (view value.now) }
    ensures inside { IfSome result (λ v. depth (view v.now) < depth (view value.now)) }
{
    value.get(name)
}
