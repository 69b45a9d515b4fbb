//! Schemas whose names are looked up.
use crate::resolved_namespace::ResolvedNamespace;
use sc_lists::Seq;

/// A schema as a file declares it.
#[derive(Drop)]
pub struct ResolvedSchema {
    /// The namespaces, ascending by the bytes of their names, each once.
    pub namespaces: Seq<ResolvedNamespace>,
}
