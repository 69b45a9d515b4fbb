//! Entity types whose names are looked up.
use crate::resolved_type::ResolvedType;
use crate::ty::Choices;
use sc_lists::{Seq, Text};
use sc_names::Name;

/// An entity type as a schema file declares it.
#[derive(Drop)]
pub struct ResolvedEntityType {
    /// The name of its member in the file.
    pub key: Text,
    /// Its name, the namespace before it.
    pub name: Name,
    /// The declared types of the entities that its entities may be in, in the order of the file.
    pub parents: Seq<Name>,
    /// The type of an entity's attributes; if it is absent, records without attributes.
    pub shape: Option<ResolvedType>,
    /// The type of each tag's value, where entities of the type have tags.
    pub tags: Option<ResolvedType>,
    /// The ids that its entities may have, if the type is enumerated.
    pub choices: Choices,
}
