//! Defaults, the sorts of types, copies and the order of sorts.
use crate::samples::{is_text, name, uid};
use sc_decimal::write_decimal;
use sc_ip::write_ip;
use sc_lists::{Boxed, Seq, Shared, Text};
use sc_names::{Name, Uid, put_escaped, put_uid};
use sc_schema::{Attributes, EntityKind, Presence, Ty};
use sc_sorts::{Sort, default_of, sort_of, try_clone};
use sc_values::{Rec, Value};
use std::alloc::{AllocError, Global};

/// Entities of a type, of which none is listed.
fn entities(alloc: Global, type_name: &str) -> Result<Sort, AllocError> {
    Ok(Sort::Entity(name(alloc, type_name)?, Seq::new(alloc)))
}

fn put_action(alloc: Global, choices: &mut Seq<Uid>, id: &str) -> Result<(), AllocError> {
    choices.push(uid(alloc, ("Action", id))?)
}

fn listed(alloc: Global) -> Result<Seq<Uid>, AllocError> {
    let mut choices = Seq::new(alloc);
    put_action(alloc, &mut choices, "buy")?;
    put_action(alloc, &mut choices, "view")?;
    Ok(choices)
}

/// Actions, of which two are listed.
fn actions(alloc: Global) -> Result<Sort, AllocError> {
    let name = name(alloc, "Action")?;
    Ok(Sort::Entity(name, listed(alloc)?))
}

/// An enumerated type, whose choices aren't in the order of their texts.
fn paint_type(alloc: Global) -> Result<Ty, AllocError> {
    let mut choices = Seq::new(alloc);
    choices.push(Text::from_str(alloc, "red")?)?;
    choices.push(Text::from_str(alloc, "green")?)?;
    Ok(Ty::Entity(EntityKind {
        name: name(alloc, "Paint")?,
        choices: Shared::new(alloc, choices)?,
    }))
}

/// The sort of that type.
fn paints(alloc: Global) -> Result<Sort, AllocError> {
    let ty = paint_type(alloc)?;
    sort_of(alloc, &ty)
}

/// The type of records of a level, perhaps a nick, and a truth value.
fn record_type(alloc: Global) -> Result<Ty, AllocError> {
    let mut fields = Seq::new(alloc);
    let level = Text::from_str(alloc, "level")?;
    fields.push((level, Presence::Required, Ty::Long))?;
    let nick = Text::from_str(alloc, "nick")?;
    fields.push((nick, Presence::Optional, Ty::String))?;
    let on = Text::from_str(alloc, "on")?;
    fields.push((on, Presence::Required, Ty::Bool))?;
    Ok(Ty::Record(Attributes::new(alloc, fields)?))
}

/// The sort of that type.
fn records(alloc: Global) -> Result<Sort, AllocError> {
    let ty = record_type(alloc)?;
    sort_of(alloc, &ty)
}

/// Options of users.
fn users_option(alloc: Global) -> Result<Sort, AllocError> {
    let users = Boxed::new(alloc, entities(alloc, "User")?)?;
    Ok(Sort::Option(users))
}

/// Sets of whole numbers.
fn set_of_longs(alloc: Global) -> Result<Sort, AllocError> {
    let member = Boxed::new(alloc, Sort::Long)?;
    Ok(Sort::Set(member))
}

/// A sort of each kind, and actions and entities of an enumerated type beside other entities.
#[derive(Clone, Copy)]
enum Sample {
    Bool,
    Long,
    String,
    Decimal,
    Ip,
    Users,
    Actions,
    Paints,
    Set,
    Record,
    Option,
}

fn sort(alloc: Global, sample: Sample) -> Result<Sort, AllocError> {
    match sample {
        Sample::Bool => Ok(Sort::Bool),
        Sample::Long => Ok(Sort::Long),
        Sample::String => Ok(Sort::String),
        Sample::Decimal => Ok(Sort::Decimal),
        Sample::Ip => Ok(Sort::Ip),
        Sample::Users => entities(alloc, "User"),
        Sample::Actions => actions(alloc),
        Sample::Paints => paints(alloc),
        Sample::Set => set_of_longs(alloc),
        Sample::Record => records(alloc),
        Sample::Option => users_option(alloc),
    }
}

/// Writes a value, and of a set whether it has members.
#[cycle(values)]
fn put_value(alloc: Global, told: &mut String, value: &Value) -> Result<(), AllocError> {
    match value {
        Value::Bool(b) => told.push_str(if *b { "true" } else { "false" }),
        Value::Long(n) => told.push_str(format!(in alloc; "{n}")?.as_str()),
        Value::String(text) => put_escaped(told, text.as_str()),
        Value::Entity(uid) => put_uid(told, uid),
        Value::Set(members) => told.push_str(if members.is_empty() { "[]" } else { "[..]" }),
        Value::Record(fields) => put_values(alloc, told, fields),
        Value::Decimal(number) => told.push_str(write_decimal(alloc, number)?.as_str()),
        Value::Ip(address) => told.push_str(write_ip(alloc, address)?.as_str()),
    }
}

#[cycle(values)]
fn put_values(alloc: Global, told: &mut String, fields: &Rec) -> Result<(), AllocError> {
    for field in fields.as_slice() {
        told.push_str(field.0.as_str())?;
        told.push_str(": ")?;
        put_value(alloc, told, &field.1)?;
        told.push_str("; ")?;
    }
    Ok(())
}

fn default_text(alloc: Global, sort: &Sort) -> Result<String, AllocError> {
    let value = Boxed::new(alloc, default_of(alloc, sort)?)?;
    let mut told = String::new(alloc);
    put_value(alloc, &mut told, value.get())?;
    Ok(told)
}

fn has_default(alloc: Global, sample: Sample, text: &str) -> bool {
    match sort(alloc, sample) {
        Ok(sort) => is_text(default_text(alloc, &sort), text),
        Err(_) => false,
    }
}

/// Sorts, and their defaults.
const DEFAULTS: &[(Sample, &str)] = &[
    (Sample::Bool, "false"),
    (Sample::Long, "0"),
    (Sample::String, ""),
    (Sample::Decimal, "0.0000"),
    (Sample::Ip, "0.0.0.0/32"),
    (Sample::Users, r#"User::"""#),
    // the first that is listed
    (Sample::Actions, r#"Action::"buy""#),
    (Sample::Paints, r#"Paint::"red""#),
    (Sample::Set, "[]"),
    // without the field that may be absent
    (Sample::Record, "level: 0; on: false; "),
    // of what the option holds
    (Sample::Option, r#"User::"""#),
];

#[test]
fn defaults(rt: HostRuntime) {
    for &(sample, text) in DEFAULTS {
        assert!(rt; has_default(rt.alloc(), sample, text), "{text}");
    }
}

/// Writes a sort, and of entities how many are listed.
#[cycle(sorts)]
fn put_sort(alloc: Global, told: &mut String, sort: &Sort) -> Result<(), AllocError> {
    match sort {
        Sort::Bool => told.push_str("Bool"),
        Sort::Long => told.push_str("Long"),
        Sort::String => told.push_str("String"),
        Sort::Decimal => told.push_str("Decimal"),
        Sort::Ip => told.push_str("Ip"),
        Sort::Entity(name, choices) => put_entities(alloc, told, name, choices),
        Sort::Set(member) => {
            told.push_str("set of ")?;
            put_sort(alloc, told, member.get())
        }
        Sort::Record(fields) => put_fields(alloc, told, fields),
        Sort::Option(held) => {
            told.push_str("option of ")?;
            put_sort(alloc, told, held.get())
        }
    }
}

#[cycle(sorts)]
fn put_fields(
    alloc: Global,
    told: &mut String,
    fields: &Seq<(Text, Sort)>,
) -> Result<(), AllocError> {
    for field in fields.as_slice() {
        told.push_str(field.0.as_str())?;
        told.push_str(": ")?;
        put_sort(alloc, told, &field.1)?;
        told.push_str("; ")?;
    }
    Ok(())
}

fn put_entities(
    alloc: Global,
    told: &mut String,
    name: &Name,
    choices: &Seq<Uid>,
) -> Result<(), AllocError> {
    told.push_str(name.as_str())?;
    for choice in choices.as_slice() {
        told.push_str(" ")?;
        told.push_str(choice.id.as_str())?;
    }
    Ok(())
}

/// The text of a sort's copy.
fn copy_text(alloc: Global, sort: &Sort) -> Result<String, AllocError> {
    let copy = Boxed::new(alloc, try_clone(alloc, sort)?)?;
    let mut told = String::new(alloc);
    put_sort(alloc, &mut told, copy.get())?;
    Ok(told)
}

fn has_copy(alloc: Global, sample: Sample, text: &str) -> bool {
    match sort(alloc, sample) {
        Ok(sort) => is_text(copy_text(alloc, &sort), text),
        Err(_) => false,
    }
}

/// Sorts, and the texts of their copies.
const COPIES: &[(Sample, &str)] = &[
    (Sample::Bool, "Bool"),
    (Sample::Long, "Long"),
    (Sample::String, "String"),
    (Sample::Decimal, "Decimal"),
    (Sample::Ip, "Ip"),
    (Sample::Users, "User"),
    (Sample::Actions, "Action buy view"),
    // in the order in which they are declared
    (Sample::Paints, "Paint red green"),
    (Sample::Set, "set of Long"),
    // the sort of its type: the field that may be absent has options
    (
        Sample::Record,
        "level: Long; nick: option of String; on: Bool; ",
    ),
    (Sample::Option, "option of User"),
];

#[test]
fn copies(rt: HostRuntime) {
    for &(sample, text) in COPIES {
        assert!(rt; has_copy(rt.alloc(), sample, text), "{text}");
    }
}

fn comes_before_actions(alloc: Global, sort: &Sort) -> bool {
    match actions(alloc) {
        Ok(two) => *sort < two,
        Err(_) => false,
    }
}

/// Whether fewer listed entities come before more of them.
fn fewer_come_first(alloc: Global) -> bool {
    match entities(alloc, "Action") {
        Ok(none) => comes_before_actions(alloc, &none),
        Err(_) => false,
    }
}

#[test]
fn listed_entities_are_compared(rt: HostRuntime) {
    assert!(rt; fewer_come_first(rt.alloc()));
}
