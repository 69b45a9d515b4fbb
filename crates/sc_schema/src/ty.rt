//! Types of values.
ghost use Rattle.std.specs.Prelude.{◌≡◌, IfOk};

use crate::fields::Fields;
use sc_lists::{Seq, Shared, Text};
use sc_names::Name;
use std::alloc::{AllocError, Global};

/// Whether each record of a type has a field.
#[derive(Clone, Copy, Debug, PartialEq, Eq)]
pub enum Presence {
    /// Each one has it.
    Required,
    /// One may lack it.
    Optional,
}

/// The fields of a record type: their names, ascending by bytes, each once, with their types. Copies
/// of a type share them.
pub type Attributes = Fields<Presence, Ty>;

/// The ids that entities of an enumerated type may have, in the order in which they are declared; none of a type that
/// isn't enumerated, whose entities may have any id. Copies share them.
pub type Choices = Shared<Seq<Text>>;

/// A type of entities, as the types of values name it.
#[derive(Drop)]
pub struct EntityKind {
    /// The type's name.
    pub name: Name,
    /// The ids that its entities may have, if it is enumerated.
    pub choices: Choices,
}

impl EntityKind {
    /// A copy, which equals the type of entities and shares its choices.
    pub fn try_clone(&self, alloc: Global) -> Result<EntityKind, AllocError>
        ensures { IfOk result (λ copy. copy ≡ self.now) }
    {
        Ok(EntityKind {
            name: self.name.try_clone(alloc)?,
            choices: self.choices.try_clone()?,
        })
    }
}

/// A type of values.
#[derive(Drop)]
pub enum Ty {
    /// The truth value `true` alone.
    True,
    /// The truth value `false` alone.
    False,
    /// Both truth values.
    Bool,
    /// Whole numbers of 64 bits.
    Long,
    /// Texts.
    String,
    /// Decimal numbers.
    Decimal,
    /// Addresses of the internet protocol.
    Ip,
    /// Entities of a type.
    Entity(EntityKind),
    /// Sets with members of a type.
    Set(Shared<Ty>),
    /// Records with these fields and no others.
    Record(Attributes),
}

impl Ty {
    /// A copy, which equals the type and shares what it is made of, so that it takes the same time
    /// for each type.
    pub fn try_clone(&self, alloc: Global) -> Result<Ty, AllocError>
        ensures { IfOk result (λ copy. copy ≡ self.now) }
    {
        match self {
            Ty::True => Ok(Ty::True),
            Ty::False => Ok(Ty::False),
            Ty::Bool => Ok(Ty::Bool),
            Ty::Long => Ok(Ty::Long),
            Ty::String => Ok(Ty::String),
            Ty::Decimal => Ok(Ty::Decimal),
            Ty::Ip => Ok(Ty::Ip),
            Ty::Entity(kind) => Ok(Ty::Entity(kind.try_clone(alloc)?)),
            Ty::Set(member) => Ok(Ty::Set(member.try_clone()?)),
            Ty::Record(fields) => Ok(Ty::Record(fields.try_clone()?)),
        }
    }
}
