//! Sorts by name.
use sc_lists::{Boxed, Seq, Text};
use sc_names::{Name, Uid};
use sc_sorts::Sort;
use std::alloc::{AllocError, Global};

/// A sort.
#[derive(Clone, Copy, PartialEq, Eq)]
pub(crate) enum Kind {
    Bool,
    Long,
    String,
    Decimal,
    Ip,
    /// Entities of the type `User`, of which none is listed.
    User,
    /// Actions, of which `buy` and `view` are listed.
    Action,
    Bools,
    Longs,
    Strings,
    Users,
    /// Records of what is known of a person.
    Person,
    /// Records of one whole number, `a`.
    Record,
    /// Options of a text.
    Nick,
}

pub(crate) fn name(alloc: Global, text: &str) -> Result<Name, AllocError> {
    Ok(Name::from_text(Text::from_str(alloc, text)?))
}

pub(crate) fn uid(alloc: Global, type_name: &str, id: &str) -> Result<Uid, AllocError> {
    Ok(Uid {
        type_name: name(alloc, type_name)?,
        id: Text::from_str(alloc, id)?,
    })
}

fn put_action(alloc: Global, choices: &mut Seq<Uid>, id: &str) -> Result<(), AllocError> {
    choices.push(uid(alloc, "Action", id)?)
}

/// The actions that are listed.
pub(crate) fn actions(alloc: Global) -> Result<Seq<Uid>, AllocError> {
    let mut choices = Seq::new(alloc);
    put_action(alloc, &mut choices, "buy")?;
    put_action(alloc, &mut choices, "view")?;
    Ok(choices)
}

fn users(alloc: Global) -> Result<Sort, AllocError> {
    Ok(Sort::Entity(name(alloc, "User")?, Seq::new(alloc)))
}

fn action(alloc: Global) -> Result<Sort, AllocError> {
    let name = name(alloc, "Action")?;
    Ok(Sort::Entity(name, actions(alloc)?))
}

fn set(alloc: Global, member: Sort) -> Result<Sort, AllocError> {
    Ok(Sort::Set(Boxed::new(alloc, member)?))
}

fn option(alloc: Global, held: Sort) -> Result<Sort, AllocError> {
    Ok(Sort::Option(Boxed::new(alloc, held)?))
}

/// What is known of a person.
const PERSON: &[(&str, Kind)] = &[
    ("address", Kind::Ip),
    ("friends", Kind::Users),
    ("level", Kind::Long),
    ("name", Kind::String),
    ("nick", Kind::Nick),
    ("on", Kind::Bool),
    ("price", Kind::Decimal),
    ("up", Kind::Bool),
];

fn put_field(
    alloc: Global,
    fields: &mut Seq<(Text, Sort)>,
    name: &str,
    kind: Kind,
) -> Result<(), AllocError> {
    let name = Text::from_str(alloc, name)?;
    fields.push((name, plain(alloc, kind)?))
}

/// Records of fields of these kinds, which aren't records themselves.
fn record(alloc: Global, shape: &[(&str, Kind)]) -> Result<Sort, AllocError> {
    let mut fields = Seq::new(alloc);
    for (name, kind) in shape {
        put_field(alloc, &mut fields, name, *kind)?;
    }
    Ok(Sort::Record(fields))
}

/// The sort of a kind that isn't one of records.
fn plain(alloc: Global, kind: Kind) -> Result<Sort, AllocError> {
    match kind {
        Kind::Long => Ok(Sort::Long),
        Kind::String => Ok(Sort::String),
        Kind::Decimal => Ok(Sort::Decimal),
        Kind::Ip => Ok(Sort::Ip),
        Kind::User => users(alloc),
        Kind::Action => action(alloc),
        Kind::Bools => set(alloc, Sort::Bool),
        Kind::Longs => set(alloc, Sort::Long),
        Kind::Strings => set(alloc, Sort::String),
        Kind::Users => set(alloc, users(alloc)?),
        Kind::Nick => option(alloc, Sort::String),
        _ => Ok(Sort::Bool),
    }
}

/// The sort of a kind.
pub(crate) fn sort(alloc: Global, kind: Kind) -> Result<Sort, AllocError> {
    match kind {
        Kind::Person => record(alloc, PERSON),
        Kind::Record => record(alloc, &[("a", Kind::Long)]),
        _ => plain(alloc, kind),
    }
}
