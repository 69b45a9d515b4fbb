//! The longest token that begins some bytes.
ghost use Rattle.std.specs.Prelude.{◌≡◌, ◌≢◌, ◌<◌, length, get_or, false, IfSome, IfNone};
ghost use Rattle.std.specs.Char.{is_ascii_digit};
ghost use Rattle.sc_names.specs.Names.{begins_word};
ghost use Rattle.sc_lexer.specs.Tokens.{BeginsNoToken};
ghost use Rattle.sc_lexer.specs.Fronts.{IsFront, long_sign};

use crate::length::{number_len, word_len};
use crate::sign::{one_sign, two_sign};
use crate::string::closing_len;
use crate::token::Kind;

/// A token by its length, in bytes.
#[derive(Clone, Copy)]
pub(crate) struct Front {
    pub(crate) kind: Kind,
    pub(crate) len: usize,
}

/// Whether a byte may begin a word: a letter or `_`.
fn begins_word(byte: u8) -> bool
    ensures { result ≡ begins_word byte }
{
    byte.is_ascii_alphabetic() || byte == b'_'
}

/// The string that begins the bytes, of which the first is a quote, or none where it isn't closed.
#[tactic(auto, using(crate::proofs::FrontLaws::BeginsNoToken_string))]
fn string(bytes: &[u8]) -> Option<Front>
    requires some { 0 < length bytes.now }
    requires quote { get_or bytes.now 0 0 ≡ 34 }
    ensures some { IfSome result (λ front. IsFront bytes.now front.kind front.len) }
    ensures none { IfNone result (BeginsNoToken bytes.now) }
{
    match closing_len(&bytes[1..]) {
        Some(len) => Some(Front {
            kind: Kind::Str,
            len: len + 1,
        }),
        None => None,
    }
}

/// The sign of two bytes that begins the bytes.
#[tactic(auto, using(crate::proofs::FrontLaws::long_sign_short, crate::proofs::FrontLaws::long_sign_two))]
fn long_sign(bytes: &[u8]) -> Option<Kind>
    ensures { result ≡ long_sign bytes.now }
{
    if bytes.len() < 2 {
        return None;
    }
    two_sign(bytes[0], bytes[1])
}

/// The sign that begins the bytes, of which the first begins no other token.
#[tactic(auto, using(crate::proofs::FrontLaws::BeginsNoToken_sign))]
fn sign(bytes: &[u8]) -> Option<Front>
    requires some { 0 < length bytes.now }
    requires no_word { begins_word (get_or bytes.now 0 0) ≡ false }
    requires no_number { is_ascii_digit (get_or bytes.now 0 0) ≡ false }
    requires no_string { get_or bytes.now 0 0 ≢ 34 }
    ensures some { IfSome result (λ front. IsFront bytes.now front.kind front.len) }
    ensures none { IfNone result (BeginsNoToken bytes.now) }
{
    if let Some(kind) = long_sign(bytes) {
        return Some(Front { kind, len: 2 });
    }
    match one_sign(bytes[0]) {
        Some(kind) => Some(Front { kind, len: 1 }),
        None => None,
    }
}

/// The longest token that begins the bytes, or none where none does.
pub(crate) fn longest(bytes: &[u8]) -> Option<Front>
    ensures some { IfSome result (λ front. IsFront bytes.now front.kind front.len) }
    ensures none { IfNone result (BeginsNoToken bytes.now) }
{
    if bytes.is_empty() {
        return None;
    }
    let first = bytes[0];
    if begins_word(first) {
        return Some(Front {
            kind: Kind::Word,
            len: word_len(bytes),
        });
    }
    if first.is_ascii_digit() {
        return Some(Front {
            kind: Kind::Number,
            len: number_len(bytes),
        });
    }
    if first == b'"' {
        return string(bytes);
    }
    sign(bytes)
}
