//! Tokens, and why a file has none.
use thiserror::Error;

/// The kinds of tokens.
#[derive(Clone, Copy, Debug, PartialEq, Eq)]
pub enum Kind {
    /// A letter or `_`, and then letters, digits and `_`.
    Word,
    /// Decimal digits.
    Number,
    /// A string, with its quotes.
    Str,
    /// `::`
    DoubleColon,
    /// `&&`
    And,
    /// `||`
    Or,
    /// `==`
    Equal,
    /// `!=`
    NotEqual,
    /// `<=`
    LessOrEqual,
    /// `>=`
    GreaterOrEqual,
    /// `<`
    Less,
    /// `>`
    Greater,
    /// `+`
    Plus,
    /// `-`
    Minus,
    /// `*`
    Star,
    /// `!`
    Not,
    /// `.`
    Dot,
    /// `,`
    Comma,
    /// `;`
    Semicolon,
    /// `:`
    Colon,
    /// `(`
    OpenParenthesis,
    /// `)`
    CloseParenthesis,
    /// `[`
    OpenBracket,
    /// `]`
    CloseBracket,
    /// `{`
    OpenBrace,
    /// `}`
    CloseBrace,
    /// `@`
    At,
    /// `?`
    Question,
}

/// The place of a token, in bytes from 0.
#[derive(Clone, Copy, Debug, PartialEq, Eq)]
pub struct Span {
    /// Where the token begins.
    pub start: usize,
    /// Where the first byte after it stands.
    pub end: usize,
}

/// A token, whose text is the file's from its span's start to its end.
#[derive(Clone, Copy, Debug, PartialEq, Eq)]
pub struct Token {
    /// What it is.
    pub kind: Kind,
    /// Where it stands.
    pub span: Span,
}

/// Why a file has no tokens. A place is counted in bytes from 0.
#[derive(Clone, Copy, Debug, PartialEq, Eq, Error)]
pub enum LexFault {
    /// The first ill-formed sequence begins there.
    #[error("ill-formed UTF-8 at {0}")]
    BadUtf8(usize),
    /// No token begins there; of a string that isn't closed it is the opening quote.
    #[error("no token at {0}")]
    BadToken(usize),
    /// The backslash there begins no escape.
    #[error("no escape at {0}")]
    BadEscape(usize),
}
