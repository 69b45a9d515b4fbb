//! The types that a tree says.
ghost use Rattle.std.specs.Prelude.{◌≡◌, map, option_map, option_and_then, IfOk, codes};
ghost use Rattle.serde_json.specs.Find.{get, as_bool};
ghost use Rattle.serde_json.specs.View.{view};
ghost use Rattle.sc_schema_syntax.specs.Written.{text_of, extension_of, presence_of, type_of, attributes_of, type_at, attributes_at};

use crate::attribute::WrittenPresence;
use crate::entries::text_of;
use crate::extension::ExtensionKind;
use crate::member::value_at;
use crate::type_word::{TypeWord, type_word};
use crate::written_type::{WrittenAttributes, WrittenType};
use sc_lists::{Boxed, Seq, Text, equals};
use serde_json::Value;
use std::alloc::{AllocError, Global};

/// The type that a tree says.
#[cycle(types)]
pub(crate) fn type_of(alloc: Global, value: &Value) -> Result<WrittenType, AllocError>
    ensures { IfOk result (λ type. type ≡ type_of (view value.now)) }
{
    let word = text_of(value_at(value, "type"));
    match type_word(word) {
        TypeWord::Boolean => Ok(WrittenType::Boolean),
        TypeWord::Long => Ok(WrittenType::Long),
        TypeWord::String => Ok(WrittenType::String),
        TypeWord::Set => Ok(WrittenType::Set(element_of(alloc, value)?)),
        TypeWord::Record => Ok(WrittenType::Record(attributes_in(alloc, value)?)),
        TypeWord::Entity => Ok(WrittenType::Entity(name_of(alloc, value)?)),
        TypeWord::Extension => Ok(WrittenType::Extension(extension_of(value))),
        TypeWord::EntityOrCommon => Ok(WrittenType::EntityOrCommon(name_of(alloc, value)?)),
        TypeWord::Common => Ok(WrittenType::Common(Text::from_str(alloc, word)?)),
    }
}

/// The type at the member `element`.
#[cycle(types)]
fn element_of(alloc: Global, value: &Value) -> Result<Boxed<WrittenType>, AllocError>
    ensures { IfOk result (λ element. element ≡ type_at (get (codes "element") (view value.now))) }
{
    match value_at(value, "element") {
        Some(element) => Boxed::new(alloc, type_of(alloc, element)?),
        None => Boxed::new(alloc, WrittenType::Common(Text::from_str(alloc, "")?)),
    }
}

/// The attributes at the member `attributes`.
#[cycle(types)]
fn attributes_in(alloc: Global, value: &Value) -> Result<WrittenAttributes, AllocError>
    ensures { IfOk result (λ attributes. attributes ≡ attributes_at (get (codes "attributes") (view value.now))) }
{
    match value_at(value, "attributes") {
        Some(attributes) => attributes_of(alloc, attributes),
        None => Ok(Seq::new(alloc)),
    }
}

/// The attributes that an object says.
#[cycle(types)]
fn attributes_of(alloc: Global, value: &Value) -> Result<WrittenAttributes, AllocError>
    ensures { IfOk result (λ attributes. attributes ≡ attributes_of (view value.now)) }
{
    let mut attributes = Seq::new(alloc);
    let Some(members) = value.as_object() else {
        return Ok(attributes);
    };
    for (name, value) in members.iter() {
        attributes.push((
            Text::from_str(alloc, name.as_str())?,
            presence_of(value),
            type_of(alloc, value)?,
        ))?;
    }
    Ok(attributes)
}

/// Whether an attribute has to be there: unless its member `required` is false.
fn presence_of(value: &Value) -> WrittenPresence
    ensures { result ≡ presence_of (option_and_then as_bool (get (codes "required") (view value.now))) }
{
    match value_at(value, "required") {
        Some(required) => match required.as_bool() {
            Some(false) => WrittenPresence::Optional,
            _ => WrittenPresence::Required,
        },
        None => WrittenPresence::Required,
    }
}

/// The text at the member `name`.
fn name_of(alloc: Global, value: &Value) -> Result<Text, AllocError>
    ensures { IfOk result (λ name. name ≡ text_of (get (codes "name") (view value.now))) }
{
    Text::from_str(alloc, text_of(value_at(value, "name")))
}

/// The extension type at the member `name`.
fn extension_of(value: &Value) -> ExtensionKind
    ensures { result ≡ extension_of (text_of (get (codes "name") (view value.now))) }
{
    if equals(text_of(value_at(value, "name")), "ipaddr") {
        ExtensionKind::Ipaddr
    } else {
        ExtensionKind::Decimal
    }
}
