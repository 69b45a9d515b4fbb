//! Schemas whose common types are written out.
use crate::ty::{Choices, Ty};
use sc_lists::Seq;
use sc_names::{Name, Uid};

/// An entity type as a schema file declares it, each common type written out.
#[derive(Drop)]
pub struct ExpandedEntityType {
    /// Its name, the namespace before it.
    pub name: Name,
    /// The declared types of the entities that its entities may be in, in the order of the file.
    pub parents: Seq<Name>,
    /// The type of an entity's attributes, a record type.
    pub shape: Ty,
    /// The type of each tag's value, where entities of the type have tags.
    pub tags: Option<Ty>,
    /// The ids that its entities may have, if the type is enumerated.
    pub choices: Choices,
}

/// An action as a schema file declares it, each common type written out.
#[derive(Drop)]
pub struct ExpandedAction {
    /// The action's uid, whose id is the name of its member in the file.
    pub uid: Uid,
    /// The declared actions that the file says it is in, in the order of the file.
    pub parents: Seq<Uid>,
    /// The declared types that a principal may have, in the order of the file.
    pub principals: Seq<Name>,
    /// The declared types that a resource may have, in the order of the file.
    pub resources: Seq<Name>,
    /// The type of the context, a record type.
    pub context: Ty,
}

/// What a schema file declares, each common type written out.
#[derive(Drop)]
pub struct ExpandedSchema {
    /// The entity types, namespace by namespace, in the order of the file.
    pub entity_types: Seq<ExpandedEntityType>,
    /// The actions, namespace by namespace, in the order of the file.
    pub actions: Seq<ExpandedAction>,
}
