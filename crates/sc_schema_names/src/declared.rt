//! What a schema file declares, in sets that find a name fast.
use sc_names::{Name, Uid};
use std::collections::BTreeSet;

/// The full names and the uids that a schema file declares.
#[derive(Drop)]
pub(crate) struct Declared {
    /// The full names of the entity types.
    pub(crate) entity_types: BTreeSet<Name>,
    /// The full names of the common types.
    pub(crate) common_types: BTreeSet<Name>,
    /// The uids of the actions.
    pub(crate) actions: BTreeSet<Uid>,
}
