//! Common types whose names are looked up.
use crate::resolved_type::ResolvedType;
use sc_lists::Text;
use sc_names::Name;

/// A common type as a schema file declares it.
#[derive(Drop)]
pub struct ResolvedCommonType {
    /// The name of its member in the file.
    pub key: Text,
    /// Its name, the namespace before it.
    pub name: Name,
    /// The type that the name stands for.
    pub body: ResolvedType,
}
