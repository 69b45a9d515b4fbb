//! The objects of a world.
ghost use Rattle.std.specs.Prelude.{◌≡◌};
ghost use Rattle.serde_json.specs.View.{members_view};
ghost use Rattle.sc_world_json.specs.Forms.{function_in, level_of, value_level, record_level};

use crate::form::Form;
use crate::function::{Function, function_named};
use crate::mark::{Mark, mark_of};
use crate::member::member;
use serde_json::{Map, Value as Json};

/// An object of a world, by what its members are.
#[derive(Clone, Copy)]
pub(crate) enum Level {
    /// A stored entity.
    Entity,
    /// A request.
    Request,
    /// A uid.
    Uid,
    /// An entity inside a value.
    Reference,
    /// A value that a function gives for a text.
    Extension,
    /// A function's name and a text, with the function that is named, if there is such a one.
    Call(Option<Function>),
    /// The fields of a record, by their names.
    Fields,
}

/// The function that a call names, if there is such a one.
fn function_in(members: &Map<String, Json>) -> Option<Function>
    ensures { result ≡ function_in (members_view members.now.entries) }
{
    match member(members, "fn") {
        Some(value) => match value.as_str() {
            Some(name) => function_named(name),
            None => None,
        },
        None => None,
    }
}

/// Which object has to stand where this form has to, if one may.
pub(crate) fn level_of(form: Form, members: &Map<String, Json>) -> Option<Level>
    ensures { result ≡ level_of form (members_view members.now.entries) }
{
    match form {
        Form::Object(level) => Some(level),
        Form::Value => Some(value_level(mark_of(members))),
        Form::Record => record_level(mark_of(members)),
        Form::Call => Some(Level::Call(function_in(members))),
        _ => None,
    }
}

/// Which object one with this mark is, where it stands for a value.
fn value_level(mark: Option<Mark>) -> Level
    ensures { result ≡ value_level mark }
{
    match mark {
        None => Level::Fields,
        Some(Mark::Entity) => Level::Reference,
        Some(Mark::Extension) => Level::Extension,
    }
}

/// The fields of a record, unless a mark says that the object is none.
fn record_level(mark: Option<Mark>) -> Option<Level>
    ensures { result ≡ record_level mark }
{
    match mark {
        None => Some(Level::Fields),
        Some(_) => None,
    }
}
