//! Signs that more texts have than are asked about, told by one text. In a text any character that
//! no pattern names may stand for another such character: where a text with the signs has one of
//! them, there are as many texts as such characters.
ghost use Rattle.std.specs.Prelude.{◌≡◌, ◌≤◌, ◌+◌, ◌∷◌, ◌++◌, true, length, IfOk, OnOk, IsTrue};
ghost use Rattle.std.specs.Bool.{MatchBool};
ghost use Rattle.sc_lists.specs.Members.{Has};
ghost use Rattle.th_strings_instances.specs.Plenty as plenty;

use sc_languages::strings_of;
use sc_pattern::{Part, Pattern, pattern_of};
use std::alloc::{AllocError, Global};

/// A character that patterns seldom name: the first one for private use.
const OTHER: char = '\u{e000}';

/// So many characters come before the surrogates.
const MOST: u64 = 55_296;

/// Puts the characters that a pattern names after others.
fn put_letters(letters: &mut Vec<char>, pattern: &Pattern) -> Result<(), AllocError>
    ensures { OnOk result (letters.new.items ≡ letters.old.items ++ plenty.pattern_letters pattern.now) }
{
    let mut rest = pattern.parts();
    while let Some((part, later)) = rest.split_first() {
        if let Part::Char(c) = part {
            letters.push(*c)?;
        }
        rest = later;
    }
    Ok(())
}

/// The characters that patterns name.
fn letters(alloc: Global, patterns: &[Pattern]) -> Result<Vec<char>, AllocError>
    ensures { IfOk result (λ v. v.items ≡ plenty.letters_of patterns.now) }
{
    let mut letters = Vec::new(alloc);
    let mut rest = patterns;
    while let Some((pattern, later)) = rest.split_first() {
        put_letters(&mut letters, pattern)?;
        rest = later;
    }
    Ok(letters)
}

/// Whether there are enough characters without so many.
fn are_enough(letters: u64, count: u64) -> bool
    ensures { IsTrue result → count + letters ≤ 55296 }
{
    if count > MOST {
        return false;
    }
    letters <= MOST - count
}

/// Whether a character is among some.
fn is_among(letters: &[char], c: char) -> bool
    ensures { MatchBool result (Has letters.now c) (¬ (Has letters.now c)) }
{
    letters.contains(&c)
}

/// A pattern, and others after it.
fn with_first(
    alloc: Global,
    first: Pattern,
    patterns: &[Pattern],
) -> Result<Vec<Pattern>, AllocError>
    ensures { IfOk result (λ v. v.items ≡ first ∷ patterns.now) }
{
    let mut all = Vec::new(alloc);
    all.push(first)?;
    let mut rest = patterns;
    while let Some((pattern, later)) = rest.split_first() {
        all.push(pattern.try_clone(alloc)?)?;
        rest = later;
    }
    Ok(all)
}

/// The sign that a pattern matches, and others after it.
fn with_true(alloc: Global, signs: &[bool]) -> Result<Vec<bool>, AllocError>
    ensures { IfOk result (λ v. v.items ≡ true ∷ signs.now) }
{
    let mut all = Vec::new(alloc);
    all.push(true)?;
    let mut rest = signs;
    while let Some((sign, later)) = rest.split_first() {
        all.push(*sign)?;
        rest = later;
    }
    Ok(all)
}

/// Whether some text has the signs, and has a character.
fn has_other(
    alloc: Global,
    patterns: &[Pattern],
    signs: &[bool],
    c: char,
) -> Result<bool, AllocError>
    ensures { IfOk result (λ b. IsTrue b → plenty.HasOther patterns.now signs.now c) }
{
    let having = pattern_of(alloc, &[Part::Star, Part::Char(c), Part::Star])?;
    let all = with_first(alloc, having, patterns)?;
    let wanted = with_true(alloc, signs)?;
    let texts = strings_of(alloc, all.as_slice(), wanted.as_slice(), 1)?;
    Ok(!texts.is_empty())
}

/// Whether at least so many texts surely have the signs. A search for one text tells it.
pub(crate) fn are_plenty(
    alloc: Global,
    patterns: &[Pattern],
    signs: &[bool],
    count: u64,
) -> Result<bool, AllocError>
    ensures { IfOk result (λ b. IsTrue b → plenty.AreMany patterns.now signs.now count) }
{
    let letters = letters(alloc, patterns)?;
    if !are_enough(letters.len() as u64, count) {
        return Ok(false);
    }
    if is_among(letters.as_slice(), OTHER) {
        return Ok(false);
    }
    has_other(alloc, patterns, signs, OTHER)
}
