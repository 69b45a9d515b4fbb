//! How many texts have signs.
ghost use Rattle.std.specs.Prelude.{◌≡◌, ◌↔◌, ◌<◌, length, map, IfOk, IsTrue};
ghost use Rattle.sc_rule_laws.specs.Strings.{AreFew};
ghost use Rattle.th_strings_instances.specs.Texts as texts;
ghost use Rattle.sc_falsified.specs.Crowds.{true_sign};

use crate::numbers::copied_signs;
use crate::plenty::are_plenty;
use sc_falsified::{is_false, true_signs};
use sc_languages::strings_of;
use sc_pattern::{Pattern, matches};
use std::alloc::{AllocError, Global};

/// The patterns that have a sign.
fn asked_patterns(
    alloc: Global,
    patterns: &[Pattern],
    signs: &[Option<bool>],
) -> Result<Vec<Pattern>, AllocError>
    ensures { IfOk result (λ v. v.items ≡ texts.asked_patterns patterns.now signs.now) }
{
    let mut asked = Vec::new(alloc);
    let mut left = patterns;
    let mut rest = signs;
    while let Some((pattern, further)) = left.split_first() {
        let Some((sign, later)) = rest.split_first() else {
            return Ok(asked);
        };
        if sign.is_some() {
            asked.push(pattern.try_clone(alloc)?)?;
        }
        left = further;
        rest = later;
    }
    Ok(asked)
}

/// The signs that are asked.
fn asked_signs(alloc: Global, signs: &[Option<bool>]) -> Result<Vec<bool>, AllocError>
    ensures { IfOk result (λ v. v.items ≡ texts.asked_signs signs.now) }
{
    let mut asked = Vec::new(alloc);
    let mut rest = signs;
    while let Some((sign, later)) = rest.split_first() {
        if let Some(sign) = sign {
            asked.push(*sign)?;
        }
        rest = later;
    }
    Ok(asked)
}

/// Whether fewer than so many texts have all signs that are asked, told by a search for such texts.
fn are_few_found(
    alloc: Global,
    patterns: &[Pattern],
    signs: &[Option<bool>],
    count: u64,
) -> Result<bool, AllocError>
    ensures { IfOk result (λ b. IsTrue b ↔ AreFew patterns.now signs.now count) }
{
    let asked = asked_patterns(alloc, patterns, signs)?;
    let wanted = asked_signs(alloc, signs)?;
    if are_plenty(alloc, asked.as_slice(), wanted.as_slice(), count)? {
        return Ok(false);
    }
    let texts = strings_of(alloc, asked.as_slice(), wanted.as_slice(), count)?;
    Ok((texts.len() as u64) < count)
}

/// Whether two of the patterns or more aren't matched.
fn are_two_false(signs: &[Option<bool>]) -> bool {
    let mut one = false;
    for sign in signs {
        if is_false(*sign) {
            if one {
                return true;
            }
            one = true;
        }
    }
    false
}

/// A text that has the signs that are asked.
fn sample(
    alloc: Global,
    patterns: &[Pattern],
    signs: &[Option<bool>],
) -> Result<Option<String>, AllocError> {
    let asked = asked_patterns(alloc, patterns, signs)?;
    let wanted = asked_signs(alloc, signs)?;
    let mut texts = strings_of(alloc, asked.as_slice(), wanted.as_slice(), 1)?;
    Ok(texts.pop())
}

/// Whether a text matches the pattern at a place, though it shouldn't.
fn has_other_sign(patterns: &[Pattern], signs: &[Option<bool>], place: usize, text: &str) -> bool
    requires { place < length signs.now }
{
    match patterns.get(place) {
        Some(pattern) => is_false(signs[place]) && matches(pattern, text),
        None => false,
    }
}

/// Whether fewer than so many texts have those signs that are asked already, and that at a place.
fn are_few_with(
    alloc: Global,
    patterns: &[Pattern],
    signs: &[Option<bool>],
    asked: &[Option<bool>],
    place: usize,
    count: u64,
) -> Result<bool, AllocError>
    requires asked { asked.now ≡ map true_sign signs.now }
    requires place { place < length signs.now }
    ensures { IfOk result (λ b. IsTrue b → AreFew patterns.now signs.now count) }
{
    let mut more = copied_signs(alloc, asked)?.into_vec();
    more[place] = signs[place];
    are_few_found(alloc, patterns, more.as_slice(), count)
}

/// Whether fewer than so many texts have the true signs, which are asked already, and a false one.
/// Of these only those matter that a text hasn't which has all that are true.
fn are_few_with_one(
    alloc: Global,
    patterns: &[Pattern],
    signs: &[Option<bool>],
    asked: &[Option<bool>],
    text: &str,
    count: u64,
) -> Result<bool, AllocError>
    requires { asked.now ≡ map true_sign signs.now }
    ensures { IfOk result (λ b. IsTrue b → AreFew patterns.now signs.now count) }
{
    for place in 0..signs.len() {
        if has_other_sign(patterns, signs, place, text) {
            if are_few_with(alloc, patterns, signs, asked, place, count)? {
                return Ok(true);
            }
        }
    }
    Ok(false)
}

/// Whether a part of the signs tells that fewer than so many texts have them: those that are true,
/// or these and one that is false. Where no two are false that is no less than all.
#[tactic(auto, using(crate::proofs::FewLaws::few_true))]
fn are_few_by_part(
    alloc: Global,
    patterns: &[Pattern],
    signs: &[Option<bool>],
    count: u64,
) -> Result<bool, AllocError>
    ensures { IfOk result (λ b. IsTrue b → AreFew patterns.now signs.now count) }
{
    if !are_two_false(signs) {
        return Ok(false);
    }
    let asked = true_signs(alloc, signs)?;
    if are_few_found(alloc, patterns, asked.as_slice(), count)? {
        return Ok(true);
    }
    let Some(text) = sample(alloc, patterns, asked.as_slice())? else {
        return Ok(false);
    };
    are_few_with_one(
        alloc,
        patterns,
        signs,
        asked.as_slice(),
        text.as_str(),
        count,
    )
}

/// Whether fewer than so many texts have the signs that are asked. Want of memory is its one fault.
/// Mostly a few of the signs tell it, so these are looked at first.
pub fn are_few(
    alloc: Global,
    patterns: &[Pattern],
    signs: &[Option<bool>],
    count: u64,
) -> Result<bool, AllocError>
    ensures { IfOk result (λ b. IsTrue b ↔ AreFew patterns.now signs.now count) }
{
    if are_few_by_part(alloc, patterns, signs, count)? {
        return Ok(true);
    }
    are_few_found(alloc, patterns, signs, count)
}
