//! Literals.
ghost use Rattle.std.specs.Prelude.{◌≡◌, IfOk};

use crate::place::Place;
use sc_lists::Text;
use sc_names::Uid;
use std::alloc::{AllocError, Global};

/// A literal of the policy language.
#[derive(PartialEq, Eq, Drop)]
pub enum Literal {
    /// `true` or `false`.
    Bool(bool),
    /// A whole number of 64 bits.
    Long(i64),
    /// A text.
    String(Text),
    /// An entity's uid.
    Entity(Uid),
}

impl Literal {
    /// A copy, which equals the literal.
    pub fn try_clone(&self, alloc: Global) -> Result<Literal, AllocError>
        ensures { IfOk result (λ copy. copy ≡ self.now) }
    {
        match self {
            Literal::Bool(b) => Ok(Literal::Bool(*b)),
            Literal::Long(n) => Ok(Literal::Long(*n)),
            Literal::String(text) => Ok(Literal::String(text.try_clone(alloc)?)),
            Literal::Entity(uid) => Ok(Literal::Entity(uid.try_clone(alloc)?)),
        }
    }
}

/// An entity's uid as a policy's scope writes it.
#[derive(Drop)]
pub struct EntityLiteral {
    /// The place of its first token.
    pub place: Place,
    /// The uid.
    pub uid: Uid,
}
