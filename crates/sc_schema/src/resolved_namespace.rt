//! Namespaces whose names are looked up.
use crate::resolved_action::ResolvedAction;
use crate::resolved_common_type::ResolvedCommonType;
use crate::resolved_entity_type::ResolvedEntityType;
use sc_lists::{Seq, Text};

/// A namespace as a schema file declares it. Its lists ascend by the bytes of keys and ids, each of
/// which stands once.
#[derive(Drop)]
pub struct ResolvedNamespace {
    /// The namespace's name, a path, or the empty text.
    pub name: Text,
    /// The actions that it declares.
    pub actions: Seq<ResolvedAction>,
    /// The common types that it declares.
    pub common_types: Seq<ResolvedCommonType>,
    /// The entity types that it declares.
    pub entity_types: Seq<ResolvedEntityType>,
}
