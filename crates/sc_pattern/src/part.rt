//! The parts of a pattern.

/// A part of a pattern (Cedar language reference, operator `like`).
#[derive(Clone, Copy, Debug, PartialEq, Eq, PartialOrd, Ord)]
pub enum Part {
    /// `*`: any characters, or none.
    Star,
    /// Just this character, which may be a `*` that was written `\*`.
    Char(char),
}
