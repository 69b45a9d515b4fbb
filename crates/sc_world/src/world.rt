//! Requests, what is stored of an entity, and worlds.
use crate::store::Store;
use sc_names::Uid;
use sc_values::Rec;

/// A request.
#[derive(Drop)]
pub struct Request {
    /// Who asks.
    pub principal: Uid,
    /// What to do.
    pub action: Uid,
    /// With what.
    pub resource: Uid,
    /// What else is told of the request.
    pub context: Rec,
}

/// A request, and the entities that are stored.
#[derive(Drop)]
pub struct World {
    /// The request.
    pub request: Request,
    /// The entities.
    pub store: Store,
}
