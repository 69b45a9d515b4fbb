//! The objects of a schema file.
ghost use Rattle.std.specs.Prelude.{◌≡◌, option_map};
ghost use Rattle.serde_json.specs.View.{members_view};
ghost use Rattle.sc_schema_syntax.specs.TypeWords.{is_reserved};
ghost use Rattle.sc_schema_syntax.specs.Forms.{word_of, entity_level, level_of, is_name, required_by, required, is_empty, is_whole};

use crate::form::Form;
use crate::member::member;
use crate::position::Position;
use crate::type_word::{TypeWord, type_word};
use sc_lists::equals;
use sc_names::{is_ident, is_path};
use serde_json::{Map, Value};

/// An object of a schema file, by what its members are.
#[derive(Clone, Copy)]
pub(crate) enum Level {
    /// Namespaces, by their names.
    Schema,
    /// What a namespace declares.
    Namespace,
    /// Entity types, by their names.
    EntityTypes,
    /// An entity type that isn't enumerated.
    EntityType,
    /// An enumerated entity type.
    Enumerated,
    /// Actions, by their ids.
    Actions,
    /// An action.
    Action,
    /// An action that an action is in.
    Parent,
    /// The requests that an action is for.
    AppliesTo,
    /// The attributes of an action, of which there may be none.
    NoAttributes,
    /// Common types, by their names.
    CommonTypes,
    /// The attributes of a record type, by their names.
    Attributes,
    /// A type with this word, or one whose word is no text.
    Type(Position, Option<TypeWord>),
}

/// The word of a type, if it is a text.
fn word_of(members: &Map<String, Value>) -> Option<TypeWord>
    ensures { result ≡ word_of (members_view members.now.entries) }
{
    match member(members, "type") {
        Some(value) => match value.as_str() {
            Some(word) => Some(type_word(word)),
            None => None,
        },
        None => None,
    }
}

/// Which object an entity type is: one that has `enum` is enumerated.
fn entity_level(members: &Map<String, Value>) -> Level
    ensures { result ≡ entity_level (members_view members.now.entries) }
{
    match member(members, "enum") {
        Some(_) => Level::Enumerated,
        None => Level::EntityType,
    }
}

/// Which object has to stand where this form has to, if one may.
pub(crate) fn level_of(form: Form, members: &Map<String, Value>) -> Option<Level>
    ensures { result ≡ level_of form (members_view members.now.entries) }
{
    match form {
        Form::Object(level) => Some(level),
        Form::EntityType => Some(entity_level(members)),
        Form::Type(position) => Some(Level::Type(position, word_of(members))),
        _ => None,
    }
}

/// Whether a common type can't have the name.
fn is_reserved(name: &str) -> bool
    ensures { result ≡ is_reserved name.now }
{
    equals(name, "Bool")
        || equals(name, "Boolean")
        || equals(name, "Long")
        || equals(name, "String")
        || equals(name, "Set")
        || equals(name, "Record")
        || equals(name, "Entity")
        || equals(name, "Extension")
        || equals(name, "EntityOrCommon")
}

/// Whether a member may have the name.
pub(crate) fn is_name(level: Level, name: &str) -> bool
    ensures { result ≡ is_name level name.now }
{
    match level {
        Level::Schema => is_path(name) || name.is_empty(),
        Level::EntityTypes => is_ident(name) && !equals(name, "Action"),
        Level::CommonTypes => is_ident(name) && !is_reserved(name),
        _ => true,
    }
}

/// The member that a type with this word has to have.
fn required_by(word: TypeWord) -> Option<&'static str>
    ensures { option_map (λ name. name.now) result ≡ required_by word }
{
    match word {
        TypeWord::Set => Some("element"),
        TypeWord::Record => Some("attributes"),
        TypeWord::Entity | TypeWord::Extension | TypeWord::EntityOrCommon => Some("name"),
        _ => None,
    }
}

/// The member that an object has to have.
fn required(level: Level) -> Option<&'static str>
    ensures { option_map (λ name. name.now) result ≡ required level }
{
    match level {
        Level::Parent => Some("id"),
        Level::Type(_, None) => Some("type"),
        Level::Type(_, Some(word)) => required_by(word),
        _ => None,
    }
}

/// Whether there are no members.
fn is_empty(members: &Map<String, Value>) -> bool
    ensures { result ≡ is_empty (members_view members.now.entries) }
{
    let mut entries = members.iter();
    entries.next().is_none()
}

/// Whether an object has the member that it has to have, and no members where there may be none.
pub(crate) fn is_whole(level: Level, members: &Map<String, Value>) -> bool
    ensures { result ≡ is_whole level (members_view members.now.entries) }
{
    if matches!(level, Level::NoAttributes) {
        return is_empty(members);
    }
    match required(level) {
        Some(name) => member(members, name).is_some(),
        None => true,
    }
}
