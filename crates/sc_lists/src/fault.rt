//! Why a call that may want memory has no answer.
use std::alloc::{AllocError, AllocFailed};
use std::error::Error;
use std::fmt;

/// Why a call has no answer: a fault of its own, or want of memory.
#[derive(Clone, Copy, Debug, PartialEq, Eq)]
pub enum Fault<E> {
    /// The call's own fault.
    Told(E),
    /// Memory ran out.
    NoMemory,
}

impl<E> From<AllocError> for Fault<E> {
    ghost use Rattle.std.specs.Prelude.{◌≡◌};
    ghost use Rattle.sc_lists.specs.declared.fault.Fault.TheVariants.{NoMemory};

    ghost from_gives = { λ _ fault. fault ≡ NoMemory };

    fn from(_error: AllocError) -> Fault<E> {
        Fault::NoMemory
    }
}

impl<E, T: Drop> From<AllocFailed<T>> for Fault<E> {
    ghost use Rattle.std.specs.Prelude.{◌≡◌};
    ghost use Rattle.sc_lists.specs.declared.fault.Fault.TheVariants.{NoMemory};

    ghost from_gives = { λ _ fault. fault ≡ NoMemory };

    fn from(_error: AllocFailed<T>) -> Fault<E> {
        Fault::NoMemory
    }
}

impl<E: fmt::Display> fmt::Display for Fault<E> {
    fn fmt<W: fmt::Write>(&self, f: &mut fmt::Formatter<W>) -> fmt::Result {
        match self {
            Fault::Told(error) => error.fmt(f),
            Fault::NoMemory => write!(f, "out of memory"),
        }
    }
}

impl<E: Error> Error for Fault<E> {}
