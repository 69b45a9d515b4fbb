//! Schemas as a file says them.
use crate::written_namespace::WrittenNamespace;
use sc_lists::Seq;

/// A schema as a file says it. No name in it is looked up yet.
#[derive(Drop)]
pub struct WrittenSchema {
    /// The namespaces, ascending by the bytes of their names, each once.
    pub namespaces: Seq<WrittenNamespace>,
}
