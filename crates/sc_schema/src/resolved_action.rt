//! Actions whose names are looked up.
use crate::resolved_type::ResolvedType;
use sc_lists::Seq;
use sc_names::{Name, Uid};

/// An action as a schema file declares it.
#[derive(Drop)]
pub struct ResolvedAction {
    /// The action's uid, whose id is the name of its member in the file.
    pub uid: Uid,
    /// The declared actions that the file says it is in, in the order of the file.
    pub parents: Seq<Uid>,
    /// The declared types that a principal may have, in the order of the file.
    pub principals: Seq<Name>,
    /// The declared types that a resource may have, in the order of the file.
    pub resources: Seq<Name>,
    /// The type of the context; if it is absent, records without attributes.
    pub context: Option<ResolvedType>,
}
