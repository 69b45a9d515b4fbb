//! What the parts of a string stand for.

/// What a byte or a character that stands for itself, or an escape, stands for in a string.
#[derive(Clone, Copy, Debug, PartialEq, Eq)]
pub enum Piece {
    /// This character. It is a `*` only where the string has that by its code, as in `\x2A`.
    Char(char),
    /// `*`, which in a pattern stands for any characters or none.
    Star,
    /// `\*`, which in a pattern stands for just a `*`.
    EscapedStar,
}

/// An escape.
#[derive(Clone, Copy, Debug, PartialEq, Eq)]
pub(crate) struct Escape {
    /// What it stands for.
    pub(crate) piece: Piece,
    /// How many bytes it has after its backslash.
    pub(crate) len: usize,
}
