//! The parts of a string, and its first backslash that begins no escape.
ghost use Rattle.std.specs.Prelude.{◌≡◌, ◌+◌, ◌-◌, ◌<◌, length, take, drop, IfSome, IfNone};
ghost use Rattle.sc_lexer.specs.Escapes.{IsSpelled, IsBadEscape};
ghost use Rattle.sc_lexer.specs.Parts.{allows, IsPart, BeginsBadEscape};

use crate::escape::escape;
use crate::piece::Piece;

/// Whether an escape with this meaning may stand in a string; like tells that the string is a
/// pattern.
fn allows(like: bool, piece: Piece) -> bool
    ensures { result ≡ allows like piece }
{
    match piece {
        Piece::Char(_) | Piece::Star => true,
        Piece::EscapedStar => like,
    }
}

/// How long the byte that stands for itself is, or the escape with its backslash, that begins some
/// bytes; or none where a backslash begins no escape.
#[tactic(auto, using(crate::proofs::SpellingLaws::IsPart_plain, crate::proofs::SpellingLaws::BeginsBadEscape_none, crate::proofs::SpellingLaws::BeginsBadEscape_star))]
fn part_len(bytes: &[u8], like: bool) -> Option<usize>
    requires { 0 < length bytes.now }
    ensures some { IfSome result (IsPart like bytes.now) }
    ensures none { IfNone result (BeginsBadEscape like bytes.now) }
{
    if bytes[0] != b'\\' {
        return Some(1);
    }
    let Some(found) = escape(&bytes[1..]) else {
        return None;
    };
    if !allows(like, found.piece) {
        return None;
    }
    Some(found.len + 1)
}

/// The place of a string's first backslash that begins no escape, counted in bytes from 0.
#[tactic(auto, using(crate::proofs::SpellingLaws::IsSpelled_start, crate::proofs::SpellingLaws::IsSpelled_more, crate::proofs::SpellingLaws::IsSpelled_all, crate::proofs::SpellingLaws::IsBadEscape_at))]
pub(crate) fn bad_escape(text: &[u8], like: bool) -> Option<usize>
    ensures within { IfSome result (λ at. at < length text.now) }
    ensures some { IfSome result (λ at. IsBadEscape like text.now (take at text.now) (drop (at + 1) text.now)) }
    ensures none { IfNone result (IsSpelled like text.now) }
{
    let mut at = 0;
    while at < text.len() {
        match part_len(&text[at..], like) {
            Some(len) => at += len,
            None => return Some(at),
        }
    }
    None
}
