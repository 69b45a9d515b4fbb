//! Common types as a schema file says them.
use crate::written_type::WrittenType;
use sc_lists::Text;

/// A common type as a schema file says it. No name in it is looked up yet.
#[derive(Drop)]
pub struct WrittenCommonType {
    /// The common type's name.
    pub name: Text,
    /// The type that the name stands for.
    pub body: WrittenType,
}
