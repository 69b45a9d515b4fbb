//! Types as a schema file says them.
use crate::attribute::WrittenPresence;
use crate::extension::ExtensionKind;
use sc_lists::{Boxed, Seq, Text};

/// The attributes of a record type, ascending by the bytes of their names, each once.
pub type WrittenAttributes = Seq<(Text, WrittenPresence, WrittenType)>;

/// A type as a schema file says it. No name in it is looked up yet.
#[derive(Drop)]
pub enum WrittenType {
    /// Truth values.
    Boolean,
    /// Whole numbers of 64 bits.
    Long,
    /// Texts.
    String,
    /// Sets with members of a type.
    Set(Boxed<WrittenType>),
    /// Records with these attributes and no others.
    Record(WrittenAttributes),
    /// Entities of the type with this name.
    Entity(Text),
    /// An extension type.
    Extension(ExtensionKind),
    /// The common type with this name, the entities of the type with this name, or a primitive or
    /// extension type.
    EntityOrCommon(Text),
    /// The common type with this name.
    Common(Text),
}
