//! An alphabet of a few characters that stand for all: those of the patterns, and one other.
ghost use Rattle.std.specs.Prelude.{◌≡◌, ◌∷◌, ◌<◌, ◌≤◌, ℕ, IfOk, OnOk, MatchOption};
ghost use Rattle.std.specs.Bool.{MatchBool};
ghost use Rattle.std.specs.Char.{IsScalar};
ghost use Rattle.sc_lists.specs.Members.{Has};
ghost use Rattle.sc_languages.specs.declared.item.Item.TheVariants.{Char as this_character};
ghost use Rattle.sc_languages.specs.Searching.{HasLetters, AreAmong, IsNoted, Covers};

use crate::item::Item;
use sc_lists::Seq;
use std::alloc::{AllocError, Global};

/// Whether a list holds a character.
fn is_among(letters: &[char], c: char) -> bool
    ensures { MatchBool result (Has letters.now c) (¬ (Has letters.now c)) }
{
    letters.contains(&c)
}

/// Appends the character of an item, if the list doesn't hold it.
fn note_letter(letters: &mut Vec<char>, item: &Item) -> Result<(), AllocError>
    ensures { OnOk result (IsNoted letters.old.items letters.new.items item.now) }
{
    let Item::Char(c) = item else {
        return Ok(());
    };
    if is_among(letters.as_slice(), *c) {
        return Ok(());
    }
    letters.push(*c)?;
    Ok(())
}

/// Appends the characters of items that the list doesn't hold.
fn note_items(letters: &mut Vec<char>, items: &[Item]) -> Result<(), AllocError>
    ensures kept { OnOk result (AreAmong letters.old.items letters.new.items) }
    ensures noted { OnOk result ((c : ℕ) → Has items.now (this_character c) → Has letters.new.items c) }
{
    for item in items {
        note_letter(letters, item)?;
    }
    Ok(())
}

/// Appends the characters of a text that the list doesn't hold.
fn note_word(letters: &mut Vec<char>, word: &[char]) -> Result<(), AllocError>
    ensures kept { OnOk result (AreAmong letters.old.items letters.new.items) }
    ensures noted { OnOk result ((c : ℕ) → Has word.now c → Has letters.new.items c) }
{
    for c in word {
        note_letter(letters, &Item::Char(*c))?;
    }
    Ok(())
}

/// The characters of items and texts, each once.
fn letters_of(alloc: Global, items: &[Item], words: &[Seq<char>]) -> Result<Vec<char>, AllocError>
    ensures { IfOk result (λ v. HasLetters items.now words.now v.items) }
{
    let mut letters = Vec::new(alloc);
    note_items(&mut letters, items)?;
    for word in words {
        note_word(&mut letters, word.as_slice())?;
    }
    Ok(letters)
}

/// The character with this code point, if there is one and the list doesn't hold it.
fn other_at(letters: &[char], number: u32) -> Option<char>
    ensures { MatchOption result (IsScalar number → Has letters.now number) (λ c. ¬ (Has letters.now c)) }
{
    let c = char::from_u32(number)?;
    if is_among(letters, c) { None } else { Some(c) }
}

/// The first character of a range that the list doesn't hold.
fn other_within(letters: &[char], from: u32, to: u32) -> Option<char>
    ensures { MatchOption result ((c : ℕ) → IsScalar c → from ≤ c → c < to
        → Has letters.now c) (λ c. ¬ (Has letters.now c)) }
{
    for number in from..to {
        if let Some(c) = other_at(letters, number) {
            return Some(c);
        }
    }
    None
}

/// A character that the list doesn't hold: the first one from `a` on, or else one before it.
fn other(letters: &[char]) -> Option<char>
    ensures { MatchOption result ((c : ℕ) → IsScalar c → Has letters.now c) (λ c. ¬ (Has letters.now c)) }
{
    if let Some(c) = other_within(letters, 97, 0x110000) {
        return Some(c);
    }
    other_within(letters, 0, 97)
}

/// An alphabet in which some character behaves like any given one: the characters of the items and texts, and one
/// other.
pub(crate) fn symbols(
    alloc: Global,
    items: &[Item],
    words: &[Seq<char>],
) -> Result<Vec<char>, AllocError>
    ensures { IfOk result (λ v. Covers items.now words.now v.items) }
{
    let mut letters = letters_of(alloc, items, words)?;
    let Some(c) = other(letters.as_slice()) else {
        return Ok(letters);
    };
    letters.insert(0, c)?;
    Ok(letters)
}
