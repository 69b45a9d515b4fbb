//! Types whose names are looked up.
use crate::ty::Presence;
use sc_lists::{Boxed, Seq, Text};
use sc_names::Name;

/// The attributes of a record type, ascending by the bytes of their names, each once.
pub type ResolvedAttributes = Seq<(Text, Presence, ResolvedType)>;

/// A type as a schema file declares it.
#[derive(Debug, PartialEq, Eq, Drop)]
pub enum ResolvedType {
    /// Truth values.
    Boolean,
    /// Whole numbers of 64 bits.
    Long,
    /// Texts.
    String,
    /// Decimal numbers.
    Decimal,
    /// Addresses of the internet protocol.
    Ip,
    /// Entities of the declared type with this name.
    Entity(Name),
    /// Sets with members of a type.
    Set(Boxed<ResolvedType>),
    /// Records with these attributes and no others.
    Record(ResolvedAttributes),
    /// The declared common type with this name.
    Common(Name),
}
