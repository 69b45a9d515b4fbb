//! Which name of a policy isn't declared.
use sc_ast::Place;
use thiserror::Error;

/// What an undeclared name stands for.
#[derive(Clone, Copy, Debug, PartialEq, Eq, PartialOrd, Ord)]
pub enum NameKind {
    /// A type of entities.
    UnknownEntityType,
    /// An action.
    UnknownAction,
    /// A choice of a declared type that is enumerated.
    UnknownChoice,
}

/// A name that isn't declared.
#[derive(Clone, Copy, Debug, PartialEq, Eq, Error)]
#[error("policy{policy}: {kind:?} at {}", place.offset)]
pub struct NameFault {
    /// What the name stands for.
    pub kind: NameKind,
    /// Which policy writes it, counted from 0.
    pub policy: usize,
    /// The place of its first token.
    pub place: Place,
}
