//! What is sought among closed terms.
use sc_lists::Text;
use sc_names::Uid;

/// What is sought among closed terms.
#[derive(Drop)]
pub(crate) enum Sought {
    /// Who asks.
    Principal,
    /// With what.
    Resource,
    /// What else is told of the request.
    Context,
    /// The attributes of an entity.
    Attributes(Uid),
    /// The tag of an entity under a key.
    Tag(Uid, Text),
}
