//! Texts that match some patterns and don't match others.
ghost use Rattle.std.specs.Prelude.{◌≡◌, ◌++◌, ℕ, List, [], map, string_bytes, IfOk, OnOk};
ghost use Rattle.std.specs.Str.{chars};
ghost use Rattle.sc_lists.specs.Members.{Has};
ghost use Rattle.sc_languages.specs.Items.{part_item, with_pattern, items_of as all_items};
ghost use Rattle.sc_languages.specs.Strings.{IsText, AreStrings};

use crate::item::Item;
use crate::search::find;
use crate::symbols::symbols;
use sc_lists::Seq;
use sc_pattern::{Part, Pattern};
use std::alloc::{AllocError, Global};

/// The item of a pattern's part.
fn item_of(part: &Part) -> Item
    ensures { result ≡ part_item part.now }
{
    match part {
        Part::Star => Item::Star,
        Part::Char(c) => Item::Char(*c),
    }
}

/// Appends the items of a pattern, which end in the sign that is wanted of it.
fn put_pattern(items: &mut Vec<Item>, pattern: &Pattern, sign: bool) -> Result<(), AllocError>
    ensures { OnOk result (items.new.items ≡ items.old.items ++ with_pattern pattern.now sign []) }
{
    for part in pattern.parts() {
        items.push(item_of(part))?;
    }
    items.push(Item::End(sign))?;
    Ok(())
}

/// The items of all patterns, each pattern with its sign.
fn items_of(alloc: Global, patterns: &[Pattern], signs: &[bool]) -> Result<Vec<Item>, AllocError>
    ensures { IfOk result (λ v. v.items ≡ all_items patterns.now signs.now) }
{
    let mut items = Vec::new(alloc);
    let mut left = signs;
    for pattern in patterns {
        let Some((sign, others)) = left.split_first() else {
            return Ok(items);
        };
        put_pattern(&mut items, pattern, *sign)?;
        left = others;
    }
    Ok(items)
}

/// Like `strings_of`, with each text as a list of characters.
fn words_of(
    alloc: Global,
    patterns: &[Pattern],
    signs: &[bool],
    wanted: u64,
) -> Result<Vec<Seq<char>>, AllocError>
    ensures { IfOk result (λ v. AreStrings patterns.now signs.now wanted v.items) }
{
    let items = items_of(alloc, patterns, signs)?;
    let mut words = Vec::new(alloc);
    'more: while (words.len() as u64) < wanted {
        let few = symbols(alloc, items.as_slice(), words.as_slice())?;
        let Some(word) = find(alloc, items.as_slice(), few.as_slice(), words.as_slice())? else {
            return Ok(words);
        };
        words.push(Seq::from_vec(word))?;
    }
    Ok(words)
}

/// The text of some characters.
fn text_of(alloc: Global, word: &[char]) -> Result<String, AllocError>
    requires { IsText word.now }
    ensures { IfOk result (λ s. chars (string_bytes s) ≡ word.now) }
{
    let mut text = String::new(alloc);
    for c in word {
        text.push(*c)?;
    }
    Ok(text)
}

/// The texts of some lists of characters.
fn texts_of(alloc: Global, words: &[Seq<char>]) -> Result<Vec<String>, AllocError>
    requires { (word : List ℕ) → Has words.now word → IsText word }
    ensures { IfOk result (λ v. map (λ s. chars (string_bytes s)) v.items ≡ words.now) }
{
    let mut texts = Vec::new(alloc);
    for word in words {
        let text = text_of(alloc, word.as_slice())?;
        texts.push(text)?;
    }
    Ok(texts)
}

/// Distinct texts, each of which matches exactly the patterns whose sign is true: `wanted` of them, or fewer where no
/// more exist. The sign of a pattern stands at its place; both lists may be empty, and where one is longer its
/// further elements are ignored. The time grows with the number of reachable sets of automaton states, which adds up
/// over the patterns' lengths and multiplies with stars inside of patterns.
pub fn strings_of(
    alloc: Global,
    patterns: &[Pattern],
    signs: &[bool],
    wanted: u64,
) -> Result<Vec<String>, AllocError>
    ensures { IfOk result (λ v. AreStrings patterns.now signs.now wanted (map (λ s. chars (string_bytes s)) v.items)) }
{
    let words = words_of(alloc, patterns, signs, wanted)?;
    texts_of(alloc, words.as_slice())
}
