//! Actions as a schema file says them.
use crate::written_type::WrittenType;
use sc_lists::{Seq, Text};

/// An action that another action is in, as a schema file names it.
#[derive(Drop)]
pub struct WrittenParent {
    /// The action's id.
    pub id: Text,
    /// The name of its type; if it is absent, the type of actions of the namespace around.
    pub type_name: Option<Text>,
}

/// An action as a schema file says it. No name in it is looked up yet.
#[derive(Drop)]
pub struct WrittenAction {
    /// The action's id.
    pub id: Text,
    /// The actions that it is in, in the order of the file.
    pub parents: Seq<WrittenParent>,
    /// The names of the types that a principal may have, in the order of the file.
    pub principals: Seq<Text>,
    /// The names of the types that a resource may have, in the order of the file.
    pub resources: Seq<Text>,
    /// The type of the context; if it is absent, records without attributes.
    pub context: Option<WrittenType>,
}
