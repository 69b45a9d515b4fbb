//! What is stored of an entity.
use sc_lists::Seq;
use sc_names::Uid;
use sc_values::Rec;

/// What is stored of an entity.
#[derive(Drop)]
pub struct EntityData {
    /// The entity's attributes.
    pub attrs: Rec,
    /// All its ancestors, ascending, each once.
    pub ancestors: Seq<Uid>,
    /// Its tags by their keys.
    pub tags: Rec,
}
