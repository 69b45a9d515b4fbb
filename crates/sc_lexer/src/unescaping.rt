//! What the text of a string token stands for.
ghost use Rattle.std.specs.Prelude.{◌≡◌, ◌∷◌, [], ◌<◌, List, IfOk, MatchOption};
ghost use Rattle.std.specs.Str.{IsUtf8, chars};
ghost use Rattle.sc_lexer.specs.declared.piece.Piece.{Piece as AnyPiece};
ghost use Rattle.sc_lexer.specs.Pieces.{quoted, Spells, pieces_after, pieces_of, piece_char, string_of};

use crate::escape::escape;
use crate::piece::Piece;
use sc_lists::{Seq, Text};
use std::alloc::{AllocError, Global};

/// The bytes between the quotes of a string.
fn quoted(text: &[u8]) -> &[u8]
    ensures { result.now ≡ quoted text.now }
{
    if text.len() < 2 {
        return &[];
    }
    &text[1..text.len() - 1]
}

/// The first character of a text, and what follows it.
fn split_char(text: &str) -> Option<(char, &str)>
    ensures { MatchOption result (chars text.now ≡ []) (λ x. chars text.now ≡ x.0 ∷ chars x.1.now) }
{
    let mut chars = text.chars();
    let first = chars.next()?;
    Some((first, chars.as_str()))
}

/// What a backslash in front of a text stands for, with the escape that it begins, and what follows
/// that.
#[tactic(auto, using(crate::proofs::UnescapingLaws::escape_boundary, crate::proofs::UnescapingLaws::pieces_escape, crate::proofs::UnescapingLaws::pieces_backslash))]
fn split_escape(text: &str) -> (Piece, &str)
    ensures { pieces_after 0 (92 ∷ chars text.now) ≡ result.0 ∷ pieces_after 0 (chars result.1.now) }
{
    match escape(text.as_bytes()) {
        Some(found) => (found.piece, &text[found.len..]),
        None => (Piece::Char('\\'), text),
    }
}

/// What the first character of a text stands for, with those that belong to it, and what follows
/// them.
#[tactic(auto, using(crate::proofs::UnescapingLaws::pieces_star, crate::proofs::UnescapingLaws::pieces_plain, crate::proofs::UnescapingLaws::pieces_none))]
fn split_piece(text: &str) -> Option<(Piece, &str)>
    ensures { MatchOption result (pieces_after 0 (chars text.now) ≡ []) (λ x. pieces_after 0 (chars text.now)
        ≡ x.0 ∷ pieces_after 0 (chars x.1.now)) }
{
    let (first, rest) = split_char(text)?;
    match first {
        '\\' => Some(split_escape(rest)),
        '*' => Some((Piece::Star, rest)),
        _ => Some((Piece::Char(first), rest)),
    }
}

/// What a text stands for.
fn text_pieces(alloc: Global, text: &str) -> Result<Seq<Piece>, AllocError>
    ensures { IfOk result (λ ps. ps ≡ pieces_after 0 (chars text.now)) }
{
    let mut pieces = Seq::new(alloc);
    let mut left = text;
    while let Some((piece, rest)) = split_piece(left) {
        pieces.push(piece)?;
        left = rest;
    }
    Ok(pieces)
}

/// What a string stands for in a pattern, by its token's text.
#[tactic(auto, using(crate::proofs::UnescapingLaws::pieces_empty))]
fn read_pieces(alloc: Global, text: &[u8]) -> Result<Seq<Piece>, AllocError>
    ensures { IfOk result (λ ps. ps ≡ pieces_of text.now) }
{
    match std::str::from_utf8(quoted(text)) {
        Ok(text) => text_pieces(alloc, text),
        Err(_) => Ok(Seq::new(alloc)),
    }
}

/// What a string stands for in a pattern, by its token's text: its characters, with escapes read,
/// and stars apart from those that are escaped.
pub fn pieces(alloc: Global, text: &[u8]) -> Result<Seq<Piece>, AllocError>
    // They are those that the definition gives for the token's text.
    ensures value { IfOk result (λ ps. ps ≡ pieces_of text.now) }
    // What the characters between the quotes spell is given.
    ensures spelled { (told : List AnyPiece) → IsUtf8 (quoted text.now) → Spells (chars (quoted text.now)) told
        → IfOk result (λ ps. ps ≡ told) }
{
    read_pieces(alloc, text)
}

/// The character that a piece is in a string that is no pattern.
fn piece_char(piece: Piece) -> char
    ensures { result ≡ piece_char piece }
{
    match piece {
        Piece::Char(char) => char,
        Piece::Star | Piece::EscapedStar => '*',
    }
}

/// The string that a token's text stands for: what is between its quotes, with escapes read.
#[tactic(auto, using(crate::proofs::UnescapingLaws::string_more), unfolding(crate::specs::Pieces::string_of))]
pub fn unescape(alloc: Global, text: &[u8]) -> Result<Text, AllocError>
    ensures { IfOk result (λ string. string ≡ string_of text.now) }
{
    let pieces = pieces(alloc, text)?;
    let mut string = String::new(alloc);
    for piece in pieces.as_slice() {
        string.push(piece_char(*piece))?;
    }
    Text::from_string(string)
}
