//! What the declarations of a file come to.
use sc_lists::Seq;
use sc_schema::{Action, EntityType};

/// Entity types and actions in their order, each with all that stands above it.
#[derive(Drop)]
pub struct Declared {
    /// The entity types, ascending by name.
    pub types: Seq<EntityType>,
    /// The actions, ascending by uid.
    pub actions: Seq<Action>,
}
