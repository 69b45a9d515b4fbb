//! What a schema declares, and the environments of requests.
use crate::ty::{Choices, Ty};
use sc_lists::Seq;
use sc_names::{Name, Uid};

/// A declared type of entities.
#[derive(Drop)]
pub struct EntityType {
    /// The type's name.
    pub name: Name,
    /// The types that an entity's ancestors may have: closed under taking ancestor types, ascending.
    pub ancestors: Seq<Name>,
    /// The type of an entity's attributes, a record type.
    pub shape: Ty,
    /// The type of each tag's value, where entities of the type have tags.
    pub tags: Option<Ty>,
    /// The ids that its entities may have, if the type is enumerated: then they have no attributes, tags or ancestors.
    pub choices: Choices,
}

/// A declared action.
#[derive(Drop)]
pub struct Action {
    /// The action's uid.
    pub uid: Uid,
    /// The actions that it is in, itself or through others, ascending.
    pub ancestors: Seq<Uid>,
    /// The types that a principal may have in a request for it, ascending.
    pub principals: Seq<Name>,
    /// The types that a resource may have in a request for it, ascending.
    pub resources: Seq<Name>,
    /// The type of the context of a request for it, a record type.
    pub context: Ty,
}

/// An environment: which requests are looked at together.
#[derive(Debug, PartialEq, Eq, Drop)]
pub struct Env {
    /// The principal's type.
    pub principal: Name,
    /// The action.
    pub action: Uid,
    /// The resource's type.
    pub resource: Name,
}
