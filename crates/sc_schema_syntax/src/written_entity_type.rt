//! Entity types as a schema file says them.
use crate::written_type::WrittenType;
use sc_lists::{Seq, Shared, Text};

/// An entity type as a schema file says it. No name in it is looked up yet.
#[derive(Drop)]
pub struct WrittenEntityType {
    /// The entity type's name.
    pub name: Text,
    /// The names of the types of entities that its entities may be in, in the order of the file.
    pub parents: Seq<Text>,
    /// The type of an entity's attributes; if it is absent, records without attributes.
    pub shape: Option<WrittenType>,
    /// The type of each tag's value, where entities of the type have tags.
    pub tags: Option<WrittenType>,
    /// The ids that its entities may have, in the order of the file, if the type is enumerated, and
    /// else none.
    pub choices: Shared<Seq<Text>>,
}
