//! Namespaces as a schema file says them.
use crate::written_action::WrittenAction;
use crate::written_common_type::WrittenCommonType;
use crate::written_entity_type::WrittenEntityType;
use sc_lists::{Seq, Text};

/// A namespace as a schema file says it. Its lists ascend by the bytes of names and ids, each of
/// which stands once.
#[derive(Drop)]
pub struct WrittenNamespace {
    /// The namespace's name, a path, or the empty text.
    pub name: Text,
    /// The actions that it declares.
    pub actions: Seq<WrittenAction>,
    /// The common types that it declares.
    pub common_types: Seq<WrittenCommonType>,
    /// The entity types that it declares.
    pub entity_types: Seq<WrittenEntityType>,
}
