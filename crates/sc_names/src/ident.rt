//! Words and identifiers.
ghost use Rattle.std.specs.Prelude.{◌≡◌, true, IfOk, if◌then◌else◌};
ghost use Rattle.std.specs.List.{list_all};
ghost use Rattle.sc_names.specs.Names.{begins_word, goes_on_word, is_word, is_reserved, is_ident};

use sc_lists::{Text, same_bytes};
use std::alloc::{AllocError, Global};
use std::marker::Model;

/// Whether a byte may begin a word: a letter or `_`.
pub(crate) fn begins_word(byte: u8) -> bool
    ensures { result ≡ begins_word byte }
{
    byte.is_ascii_alphabetic() || byte == b'_'
}

/// Whether a byte may stand in a word after its first: a letter, a digit or `_`.
pub(crate) fn goes_on_word(byte: u8) -> bool
    ensures { result ≡ goes_on_word byte }
{
    byte.is_ascii_alphanumeric() || byte == b'_'
}

/// Whether each byte may stand in a word after its first.
fn all_go_on(bytes: &[u8]) -> bool
    ensures { result ≡ list_all goes_on_word bytes.now }
{
    bytes.iter().all(|byte| goes_on_word(*byte))
}

/// Whether the bytes are a word: a letter or `_`, and then letters, digits and `_`.
pub fn is_word(bytes: &[u8]) -> bool
    ensures { result ≡ is_word bytes.now }
{
    let Some((first, rest)) = bytes.split_first() else {
        return false;
    };
    begins_word(*first) && all_go_on(rest)
}

/// Whether the bytes are a reserved word, which no identifier is.
pub fn is_reserved(word: &[u8]) -> bool
    ensures { result ≡ is_reserved word.now }
{
    same_bytes(word, b"true")
        || same_bytes(word, b"false")
        || same_bytes(word, b"if")
        || same_bytes(word, b"then")
        || same_bytes(word, b"else")
        || same_bytes(word, b"in")
        || same_bytes(word, b"like")
        || same_bytes(word, b"is")
        || same_bytes(word, b"has")
        || same_bytes(word, b"__cedar")
}

/// Whether the bytes are an identifier.
pub(crate) fn is_identifier(bytes: &[u8]) -> bool
    ensures { result ≡ is_ident bytes.now }
{
    is_word(bytes) && !is_reserved(bytes)
}

/// Whether a text is an identifier: a word that isn't reserved (Cedar language reference, `IDENT`).
pub fn is_ident(text: &str) -> bool
    ensures { result ≡ is_ident text.now }
{
    is_identifier(text.as_bytes())
}

/// An identifier, such as `owner` or `Shop`, by its text.
#[derive(Debug, PartialEq, Eq, Drop)]
pub struct Ident {
    text: Text,
}

impl Model for Ident {
    ghost use Rattle.std.specs.Prelude.{◌≡◌, ℕ, List, true};
    ghost use Rattle.sc_names.specs.Names.{is_ident};

    ghost Value = { List ℕ };

    ghost view = { λ i. i.text };

    ghost invariant = { λ i. is_ident i.text ≡ true };

    ghost inverse = { λ t. record { text = t } };
}

impl Ident {
    /// The identifier's text.
    pub fn as_str(&self) -> &str
        ensures value { result.now ≡ self.now }
        ensures ident { is_ident self.now ≡ true }
    {
        self.text.as_str()
    }

    /// A copy, which equals the identifier.
    pub fn try_clone(&self, alloc: Global) -> Result<Ident, AllocError>
        ensures { IfOk result (λ ident. ident ≡ self.now) }
    {
        Ok(Ident {
            text: self.text.try_clone(alloc)?,
        })
    }
}

/// The identifier of a text, or none where the text isn't one.
pub fn read_ident(alloc: Global, text: &str) -> Result<Option<Ident>, AllocError>
    ensures { IfOk result (λ found. found ≡ (if is_ident text.now then Some text.now else None)) }
{
    if !is_ident(text) {
        return Ok(None);
    }
    Ok(Some(Ident {
        text: Text::from_str(alloc, text)?,
    }))
}
