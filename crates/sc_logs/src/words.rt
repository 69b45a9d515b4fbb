//! Reads the words of a step's line.
ghost use Rattle.std.specs.Prelude.{◌≡◌, ◌∷◌, ◌==◌, map, not, length, decimal, option_map, true, IfOk, MatchOption, ℕ, List, if◌then◌else◌};
ghost use Rattle.std.specs.List.{list_all};
ghost use Rattle.std.specs.Str.{bytes_eq};
ghost use Rattle.sc_logs.specs.Readings.{Reads};
ghost use Rattle.sc_logs.specs.Texts.{sign_text, word_text, lit_text, zero_text, ended_words};
ghost use Rattle.sc_logs.specs.Writable.{is_lit, is_hint};
ghost use Rattle.sc_footprint.specs.Written.{is_word};

use crate::line_words::LineWords;
use crate::log::is_hint;
use crate::numbers::number_of;
use sc_clauses::{Lit, Word};
use sc_lists::Seq;
use std::alloc::{AllocError, Global};

fn hint_of(word: &[u8]) -> Option<u64>
    ensures { Reads is_hint decimal word.now result }
{
    match number_of(word) {
        Some(hint) if is_hint(hint) => Some(hint),
        _ => None,
    }
}

/// The literal of an atom, where there is one.
fn lit_of_atom(atom: Option<u64>, negated: bool) -> Option<Lit>
    ensures { result ≡ option_map (λ n. record { atom = n; negated = negated }) atom }
{
    atom.map(|atom| Lit { atom, negated })
}

/// What follows `-` in a word that begins with it.
fn after_minus(word: &[u8]) -> Option<&[u8]>
    ensures { MatchOption result ((rest : List ℕ) → ¬ (word.now ≡ 45 ∷ rest)) (λ r. word.now ≡ 45 ∷ r.now) }
{
    match word {
        [b'-', rest @ ..] => Some(rest),
        _ => None,
    }
}

fn lit_of(word: &[u8]) -> Option<Lit>
    ensures { Reads is_lit lit_text word.now result }
{
    match after_minus(word) {
        Some(atom) => lit_of_atom(hint_of(atom), true),
        None => lit_of_atom(hint_of(word), false),
    }
}

/// The sign that a byte is: `+`, `-`, or `.` for none.
fn sign_of(byte: u8) -> Option<Option<bool>>
    ensures { Reads (λ _. true) sign_text byte result }
{
    match byte {
        b'+' => Some(Some(true)),
        b'-' => Some(Some(false)),
        b'.' => Some(None),
        _ => None,
    }
}

fn signs_of(alloc: Global, word: &[u8]) -> Result<Option<Seq<Option<bool>>>, AllocError>
    ensures { IfOk result (Reads (λ signs. not (length signs == 0)) (map sign_text) word.now) }
{
    let mut signs = Seq::new(alloc);
    for byte in word {
        let Some(sign) = sign_of(*byte) else {
            return Ok(None);
        };
        signs.push(sign)?;
    }
    if signs.is_empty() {
        return Ok(None);
    }
    Ok(Some(signs))
}

fn word_of(alloc: Global, word: &[u8]) -> Result<Option<Word>, AllocError>
    ensures { IfOk result (Reads is_word word_text word.now) }
{
    if let Some(number) = number_of(word) {
        return Ok(Some(Word::Number(number)));
    }
    match signs_of(alloc, word)? {
        Some(signs) => Ok(Some(Word::Signs(signs))),
        None => Ok(None),
    }
}

/// The words of an instance, up to the end of its line.
pub(crate) fn words_of(
    alloc: Global,
    words: &mut LineWords<'_>,
) -> Result<Option<Seq<Word>>, AllocError>
    ensures { IfOk result (Reads (list_all is_word) (map word_text) words.old) }
{
    let mut read = Seq::new(alloc);
    while let Some(word) = words.next_word() {
        let Some(next) = word_of(alloc, word)? else {
            return Ok(None);
        };
        read.push(next)?;
    }
    Ok(Some(read))
}

/// Whether a word is `0`, which ends literals and hints.
fn is_zero(word: &[u8]) -> bool
    ensures { result ≡ bytes_eq word.now zero_text }
{
    word == b"0".as_slice()
}

/// Reads literals up to a word `0`, which it takes. Tells whether there are such.
pub(crate) fn read_lits(words: &mut LineWords<'_>, lits: &mut Vec<Lit>) -> Result<bool, AllocError>
    ensures { IfOk result (λ found. Reads (λ p. list_all is_lit p.0) (ended_words lit_text) words.old
        (if found then Some (lits.new.items, words.new) else None)) }
{
    lits.clear();
    while let Some(word) = words.next_word() {
        if is_zero(word) {
            return Ok(true);
        }
        let Some(lit) = lit_of(word) else {
            return Ok(false);
        };
        lits.push(lit)?;
    }
    Ok(false)
}

/// Reads hints up to a word `0`, which it takes. Tells whether there are such.
pub(crate) fn read_hints(
    words: &mut LineWords<'_>,
    hints: &mut Vec<u64>,
) -> Result<bool, AllocError>
    ensures { IfOk result (λ found. Reads (λ p. list_all is_hint p.0) (ended_words decimal) words.old
        (if found then Some (hints.new.items, words.new) else None)) }
{
    hints.clear();
    while let Some(word) = words.next_word() {
        if is_zero(word) {
            return Ok(true);
        }
        let Some(hint) = hint_of(word) else {
            return Ok(false);
        };
        hints.push(hint)?;
    }
    Ok(false)
}
