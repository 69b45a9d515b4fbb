//! Why an expression has no value.
use sc_lists::Fault;
use thiserror::Error;

/// Why an expression has no value.
#[derive(Clone, Copy, Debug, PartialEq, Eq, Error)]
pub enum EvalError {
    /// A value is of another kind than its place asks for.
    #[error("a value of another kind")]
    TypeError,
    /// A number leaves 64 bits.
    #[error("a number past 64 bits")]
    Overflow,
    /// An attribute or a tag is read from an entity that isn't stored.
    #[error("no such entity")]
    EntityMissing,
    /// A record or an entity lacks an attribute.
    #[error("no such attribute")]
    AttrMissing,
    /// An entity lacks a tag.
    #[error("no such tag")]
    TagMissing,
    /// The text of a decimal number or of an address doesn't read.
    #[error("a text that doesn't read")]
    BadText,
}

impl From<EvalError> for Fault<EvalError> {
    ghost use Rattle.std.specs.Prelude.{◌≡◌};
    ghost use Rattle.sc_lists.specs.declared.fault.Fault.TheVariants.{Told};

    ghost from_gives = { λ error fault. fault ≡ Told error };

    fn from(error: EvalError) -> Fault<EvalError> {
        Fault::Told(error)
    }
}
