//! Reading a path: identifiers joined by `::`.
ghost use Rattle.std.specs.Prelude.{◌≡◌, ◌↔◌, ℕ, List, ◌<◌, ◌≤◌, length, IsTrue, IfOk, IfErr, OnOk};
ghost use Rattle.std.specs.List.{take_while};
ghost use Rattle.sc_lists.specs.declared.fault.Fault.TheVariants.{NoMemory};
ghost use Rattle.sc_names.specs.Names.{goes_on_word};
ghost use Rattle.sc_names.specs.Paths.{IsPath, is_path, IsBadAt, Refuses};
ghost use Rattle.sc_names.specs.Scanning.{start, colons, word_len, Stands, EndsIdent};

use crate::ident::{begins_word, goes_on_word, is_identifier};
use crate::name::Name;
use sc_lists::{Fault, Text};
use std::alloc::Global;
use thiserror::Error;

/// A text is no path.
#[derive(Clone, Copy, Debug, PartialEq, Eq, Error)]
#[error("no name: unexpected at {at}")]
pub struct BadName {
    /// The place, in bytes from 0, of the first byte that no path has there; or the text's length,
    /// where a path may go on.
    pub at: u64,
}

/// How many bytes from the front on may stand in a word after its first.
fn tail_len(bytes: &[u8]) -> usize
    ensures value { result ≡ length (take_while goes_on_word bytes.now) }
    ensures within { result ≤ length bytes.now }
{
    bytes.iter().take_while(|byte| goes_on_word(**byte)).count()
}

/// How many bytes the longest word has that the bytes begin with, or 0 where they begin with none.
#[tactic(auto, unfolding(crate::specs::Scanning::word_len))]
fn word_len(bytes: &[u8]) -> usize
    ensures value { result ≡ word_len bytes.now }
    ensures within { result ≤ length bytes.now }
{
    match bytes.split_first() {
        Some((first, rest)) if begins_word(*first) => tail_len(rest) + 1,
        _ => 0,
    }
}

/// Where the identifier ends that begins at a place.
#[tactic(auto, using(crate::proofs::ScanningLaws::IsBadAt_word, crate::proofs::ScanningLaws::EndsIdent_word, crate::proofs::ScanningLaws::onward_word))]
fn ident_end(text: &[u8], at: usize) -> Result<usize, BadName>
    requires { Stands text.now at start }
    ensures ok { IfOk result (EndsIdent text.now) }
    ensures onward { IfOk result (λ end. at < end) }
    ensures err { IfErr result (λ bad. IsBadAt text.now bad.at) }
{
    let word = word_len(&text[at..]);
    if !is_identifier(&text[at..at + word]) {
        return Err(BadName {
            at: (at + word) as u64,
        });
    }
    Ok(at + word)
}

/// How many of the two colons of a `::` the bytes begin with.
#[tactic(auto, unfolding(crate::specs::Scanning::colons))]
fn colons(bytes: &[u8]) -> usize
    ensures value { result ≡ colons bytes.now }
    ensures within { result ≤ length bytes.now }
{
    bytes
        .iter()
        .take(2)
        .take_while(|byte| **byte == b':')
        .count()
}

/// Where the `::` ends that begins at a place after an identifier.
#[tactic(auto, using(crate::proofs::ScanningLaws::Stands_colons))]
fn separator_end(text: &[u8], at: usize) -> Result<usize, BadName>
    requires ident { EndsIdent text.now at }
    requires more { at < length text.now }
    ensures ok { IfOk result (λ end. Stands text.now end start) }
    ensures onward { IfOk result (λ end. at < end) }
    ensures err { IfErr result (λ bad. IsBadAt text.now bad.at) }
{
    let colons = colons(&text[at..]);
    if colons < 2 {
        return Err(BadName {
            at: (at + colons) as u64,
        });
    }
    Ok(at + colons)
}

/// Whether a text is a path, and if not, where it stops being one.
#[tactic(auto, using(crate::proofs::ScanningLaws::Stands_start, crate::proofs::ScanningLaws::IsPath_ends))]
fn check_path(text: &[u8]) -> Result<(), BadName>
    ensures ok { OnOk result (IsPath text.now) }
    ensures err { IfErr result (λ bad. IsBadAt text.now bad.at) }
{
    let mut at = 0;
    loop {
        at = ident_end(text, at)?;
        if at == text.len() {
            return Ok(());
        }
        at = separator_end(text, at)?;
    }
}

/// Reads the name of a type: a path, which is identifiers joined by `::` with nothing between
/// (Cedar language reference, `Path`).
pub fn read_name(alloc: Global, text: &str) -> Result<Name, Fault<BadName>>
    ensures ok { IfOk result (λ name. (name ≡ text.now) × IsPath text.now) }
    ensures err { IfErr result (Refuses text.now) }
    // A path is refused for want of memory alone.
    ensures path { IsPath text.now → IfErr result (λ fault. fault ≡ NoMemory) }
{
    match check_path(text.as_bytes()) {
        Ok(()) => Ok(Name::from_text(Text::from_str(alloc, text)?)),
        Err(bad) => Err(Fault::Told(bad)),
    }
}

/// Whether a text is a path.
#[tactic(auto, using(crate::proofs::PartsLaws::is_path_when))]
pub fn is_path(text: &str) -> bool
    ensures { result ≡ is_path text.now }
{
    match check_path(text.as_bytes()) {
        Ok(()) => true,
        Err(_) => false,
    }
}

/// The test of paths decides whether a text is one.
#[tactic(auto, using(crate::proofs::PartsLaws::is_path_decides))]
pub fn path_laws()
    ensures { (t : List ℕ) → IsTrue (is_path t) ↔ IsPath t }
{}

/// A text has one bad place at most, and none if it is a path.
#[tactic(auto, using(crate::proofs::BadNameLaws::one_IsBadAt))]
pub fn bad_name_laws()
    ensures one { (t : List ℕ) → (a b : ℕ) → IsBadAt t a → IsBadAt t b → a ≡ b }
    ensures none { (t : List ℕ) → (a : ℕ) → IsBadAt t a → ¬ IsPath t }
{}
