//! Tokens with what they say.
use sc_ast::Place;
use sc_lexer::Kind;
use sc_lists::{Seq, Text};
use sc_pattern::Part;

/// What a token says.
#[derive(Drop)]
pub enum Shape {
    /// A word.
    Word(Text),
    /// Decimal digits.
    Number(Text),
    /// A string: the text that it means, and the pattern that it means after `like`.
    String(Text, Seq<Part>),
    /// A sign.
    Sign(Kind),
}

/// A token with its place.
#[derive(Drop)]
pub struct Lexeme {
    /// Where it begins.
    pub place: Place,
    /// What it says.
    pub shape: Shape,
}
