//! Escapes in strings.
ghost use Rattle.std.specs.Prelude.{◌≡◌, ◌+◌, ◌≤◌, ◌<◌, length, true};
ghost use Rattle.std.specs.List.{take_while, list_all};
ghost use Rattle.std.specs.Char.{is_ascii_hexdigit, digit_value};
ghost use Rattle.std.specs.Str.Parse.{digits_value};
ghost use Rattle.sc_lexer.specs.Escapes.{is_letter, letter_char, ascii_of, braced_of, scalar_of, escape_of};

use crate::piece::{Escape, Piece};

/// Whether a letter after a backslash is an escape everywhere.
fn is_letter(byte: u8) -> bool
    ensures { result ≡ is_letter byte }
{
    matches!(byte, b'n' | b'r' | b't' | b'0' | b'\\' | b'"' | b'\'')
}

/// The character that a letter after a backslash stands for.
fn letter_char(byte: u8) -> char
    ensures { result ≡ letter_char byte }
{
    match byte {
        b'n' => '\n',
        b'r' => '\r',
        b't' => '\t',
        b'0' => '\0',
        _ => byte as char,
    }
}

/// How many hexadecimal digits stand in front.
fn hexadecimal_len(bytes: &[u8]) -> usize
    ensures value { result ≡ length (take_while is_ascii_hexdigit bytes.now) }
    ensures within { result ≤ length bytes.now }
{
    bytes
        .iter()
        .take_while(|byte| byte.is_ascii_hexdigit())
        .count()
}

/// The value of a hexadecimal digit.
fn digit_value(digit: u8) -> u32
    requires { is_ascii_hexdigit digit ≡ true }
    ensures value { result ≡ digit_value digit }
    ensures small { result < 16 }
{
    match digit {
        b'0'..=b'9' => u32::from(digit - b'0'),
        b'A'..=b'F' => u32::from(digit - b'A') + 10,
        _ => u32::from(digit - b'a') + 10,
    }
}

/// The number that up to six hexadecimal digits write.
#[tactic(auto, using(crate::proofs::DigitLaws::digit_at))]
fn digits_value(digits: &[u8]) -> u32
    requires digits { list_all is_ascii_hexdigit digits.now ≡ true }
    requires few { length digits.now ≤ 6 }
    ensures { result ≡ digits_value 16 digits.now }
{
    let mut value = 0;
    for digit in digits {
        value = value * 16 + digit_value(*digit);
    }
    value
}

/// The escape after whose `x` the bytes stand, which has two hexadecimal digits of a number up to
/// 7F.
#[tactic(auto, using(crate::proofs::EscapeLaws::digits_front, crate::proofs::EscapeLaws::ascii_few, crate::proofs::EscapeLaws::ascii_large, crate::proofs::EscapeLaws::ascii_some))]
fn ascii(bytes: &[u8]) -> Option<Escape>
    ensures { result ≡ ascii_of bytes.now }
{
    if hexadecimal_len(bytes) < 2 {
        return None;
    }
    let code = digits_value(&bytes[..2]);
    if code > 127 {
        return None;
    }
    Some(Escape {
        piece: Piece::Char(code as u8 as char),
        len: 3,
    })
}

/// The escape after whose `u{` the bytes stand, which has one to six hexadecimal digits of a scalar
/// value, and `}`.
#[tactic(auto, using(crate::proofs::EscapeLaws::digits_front, crate::proofs::EscapeLaws::braced_few, crate::proofs::EscapeLaws::braced_many, crate::proofs::EscapeLaws::braced_open, crate::proofs::EscapeLaws::braced_other, crate::proofs::EscapeLaws::braced_some, crate::proofs::EscapeLaws::braced_none))]
fn braced(bytes: &[u8]) -> Option<Escape>
    ensures { result ≡ braced_of bytes.now }
{
    let len = hexadecimal_len(bytes);
    if len < 1 {
        return None;
    }
    if len > 6 {
        return None;
    }
    if len >= bytes.len() {
        return None;
    }
    if bytes[len] != b'}' {
        return None;
    }
    match char::from_u32(digits_value(&bytes[..len])) {
        Some(char) => Some(Escape {
            piece: Piece::Char(char),
            len: len + 3,
        }),
        None => None,
    }
}

/// The escape after whose `u` the bytes stand.
#[tactic(auto, using(crate::proofs::EscapeLaws::scalar_empty, crate::proofs::EscapeLaws::scalar_none, crate::proofs::EscapeLaws::scalar_braced))]
fn scalar(bytes: &[u8]) -> Option<Escape>
    ensures { result ≡ scalar_of bytes.now }
{
    if bytes.is_empty() {
        return None;
    }
    if bytes[0] != b'{' {
        return None;
    }
    braced(&bytes[1..])
}

/// The escape of a pattern after whose backslash the bytes stand, or none where they begin with
/// none.
#[tactic(auto, using(crate::proofs::EscapeLaws::escape_empty, crate::proofs::EscapeLaws::escape_letter, crate::proofs::EscapeLaws::escape_star, crate::proofs::EscapeLaws::escape_ascii, crate::proofs::EscapeLaws::escape_scalar, crate::proofs::EscapeLaws::escape_none))]
pub(crate) fn escape(bytes: &[u8]) -> Option<Escape>
    ensures { result ≡ escape_of bytes.now }
{
    if bytes.is_empty() {
        return None;
    }
    let first = bytes[0];
    if is_letter(first) {
        return Some(Escape {
            piece: Piece::Char(letter_char(first)),
            len: 1,
        });
    }
    if first == b'*' {
        return Some(Escape {
            piece: Piece::EscapedStar,
            len: 1,
        });
    }
    if first == b'x' {
        return ascii(&bytes[1..]);
    }
    if first == b'u' {
        return scalar(&bytes[1..]);
    }
    None
}
