//! Why reading stops.
ghost use Rattle.std.specs.Prelude.{◌≡◌};
ghost use Rattle.sc_lexemes.specs.declared.stop.Stop.TheVariants.{NoMemory};

use std::alloc::{AllocError, AllocFailed};

/// Why reading stops at a token, or where the tokens end.
#[derive(Clone, Copy, PartialEq, Eq)]
pub enum Stop {
    /// No policy file goes on so.
    Unexpected,
    /// A policy too many begins.
    TooManyPolicies,
    /// A template's slot.
    Template,
    /// The token lies too deep.
    TooDeep,
    /// The number has more than 64 bits.
    IntRange,
    /// The key of a record is there already.
    DuplicateKey,
    /// Nothing can be called by this name with so many arguments.
    BadCall,
    /// Memory ran out.
    NoMemory,
}

impl From<AllocError> for Stop {
    ghost from_gives = { λ _ stop. stop ≡ NoMemory };

    fn from(_error: AllocError) -> Stop {
        Stop::NoMemory
    }
}

impl<T: Drop> From<AllocFailed<T>> for Stop {
    ghost from_gives = { λ _ stop. stop ≡ NoMemory };

    fn from(_error: AllocFailed<T>) -> Stop {
        Stop::NoMemory
    }
}
