//! What has to stand at each member of an object.
ghost use Rattle.std.specs.Prelude.{◌≡◌, map, is_some};
ghost use Rattle.std.specs.List.{list_all};
ghost use Rattle.serde_json.specs.Find.{get_member};
ghost use Rattle.serde_json.specs.View.{members_view};
ghost use Rattle.sc_world_json.specs.declared.level.Level.TheVariants as level;
ghost use Rattle.sc_world_json.specs.Forms.{fixed_members, among, has_just, has_members, member_form};

use crate::form::Form;
use crate::function::Function;
use crate::level::Level;
use crate::member::member;
use sc_lists::equals;
use serde_json::{Map, Value as Json};

/// What has to stand at a member, if an object of the level may have it.
pub(crate) fn member_form(level: Level, name: &str) -> Option<Form>
    ensures { result ≡ member_form level name.now }
{
    match level {
        Level::Entity => entity_member(name),
        Level::Request => request_member(name),
        Level::Uid => uid_member(name),
        Level::Reference => reference_member(name),
        Level::Extension => extension_member(name),
        Level::Call(function) => call_member(function, name),
        Level::Fields => Some(Form::Value),
    }
}

fn entity_member(name: &str) -> Option<Form>
    ensures { result ≡ among (fixed_members level.Entity) name.now }
{
    if equals(name, "attrs") {
        Some(Form::Record)
    } else if equals(name, "parents") {
        Some(Form::Uids)
    } else if equals(name, "tags") {
        Some(Form::Record)
    } else if equals(name, "uid") {
        Some(Form::Object(Level::Uid))
    } else {
        None
    }
}

fn request_member(name: &str) -> Option<Form>
    ensures { result ≡ among (fixed_members level.Request) name.now }
{
    if equals(name, "action") {
        Some(Form::Object(Level::Uid))
    } else if equals(name, "context") {
        Some(Form::Record)
    } else if equals(name, "principal") {
        Some(Form::Object(Level::Uid))
    } else if equals(name, "resource") {
        Some(Form::Object(Level::Uid))
    } else {
        None
    }
}

fn uid_member(name: &str) -> Option<Form>
    ensures { result ≡ among (fixed_members level.Uid) name.now }
{
    if equals(name, "id") {
        Some(Form::Text)
    } else if equals(name, "type") {
        Some(Form::Text)
    } else {
        None
    }
}

fn reference_member(name: &str) -> Option<Form>
    ensures { result ≡ among (fixed_members level.Reference) name.now }
{
    if equals(name, "__entity") {
        Some(Form::Object(Level::Uid))
    } else {
        None
    }
}

fn extension_member(name: &str) -> Option<Form>
    ensures { result ≡ among (fixed_members level.Extension) name.now }
{
    if equals(name, "__extn") {
        Some(Form::Call)
    } else {
        None
    }
}

fn call_member(function: Option<Function>, name: &str) -> Option<Form>
    ensures { result ≡ among (fixed_members (level.Call function)) name.now }
{
    if equals(name, "arg") {
        Some(Form::Argument(function))
    } else if equals(name, "fn") {
        Some(Form::FunctionName)
    } else {
        None
    }
}

/// Whether an object has just the members of its level.
pub(crate) fn has_members(level: Level, members: &Map<String, Json>) -> bool
    ensures { result ≡ has_members level (members_view members.now.entries) }
{
    match level {
        Level::Entity => has_just(members, &["attrs", "parents", "tags", "uid"]),
        Level::Request => has_just(members, &["action", "context", "principal", "resource"]),
        Level::Uid => has_just(members, &["id", "type"]),
        Level::Reference => has_just(members, &["__entity"]),
        Level::Extension => has_just(members, &["__extn"]),
        Level::Call(_) => has_just(members, &["arg", "fn"]),
        Level::Fields => true,
    }
}

/// Whether an object has members of these names, which differ, and no others.
pub(crate) fn has_just(members: &Map<String, Json>, names: &[&str]) -> bool
    ensures { result ≡ has_just (map (λ name. name.now) names.now) (members_view members.now.entries) }
{
    let no_more = members.len() == names.len();
    let each = has_each(members, names);
    no_more && each
}

fn has_each(members: &Map<String, Json>, names: &[&str]) -> bool
    ensures { result ≡ list_all (λ name. is_some (get_member name.now (members_view members.now.entries))) names.now }
{
    names.iter().all(|name| member(members, name).is_some())
}
