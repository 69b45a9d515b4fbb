//! Leaving out signs that a crowd doesn't need.
ghost use Rattle.std.specs.Prelude.{◌≡◌, ◌↔◌, ◌+◌, ◌<◌, length, map, true, false, IfOk, IfSome, IsTrue, None, Some};
ghost use Rattle.sc_falsified.specs.Crowds.{true_sign, IsPart, IsEnough, AreNeeded, AreAllNeeded};

use crate::texts::Texts;
use crate::truths::is;
use std::alloc::{AllocError, Global};

/// Leaves out a sign, if fewer than `count` texts have the remaining ones.
fn ask_without<S: Texts>(
    alloc: Global,
    texts: &S,
    signs: &mut Vec<Option<bool>>,
    count: usize,
    pattern: usize,
) -> Result<(), AllocError>
    requires sized { length signs.old.items ≡ S.patterns texts.now }
    requires bound { pattern < length signs.old.items }
    requires enough { S.few texts.now signs.old.items count }
    requires needed { AreNeeded (S.few texts.now) count signs.old.items pattern }
    ensures enough { IfOk result (λ _. IsEnough (S.few texts.now) count signs.old.items signs.new.items) }
    ensures needed { IfOk result (λ _. AreNeeded (S.few texts.now) count signs.new.items (pattern + 1)) }
{
    let mut fewer = copy_signs(alloc, signs.as_slice())?;
    fewer[pattern] = None;
    if texts.few(alloc, fewer.as_slice(), count)? {
        *signs = fewer;
        return Ok(());
    }
    Ok(())
}

/// Leaves out a sign, if it is asked and fewer than `count` texts have the remaining ones.
fn ask_less<S: Texts>(
    alloc: Global,
    texts: &S,
    signs: &mut Vec<Option<bool>>,
    count: usize,
    pattern: usize,
) -> Result<(), AllocError>
    requires sized { length signs.old.items ≡ S.patterns texts.now }
    requires bound { pattern < length signs.old.items }
    requires enough { S.few texts.now signs.old.items count }
    requires needed { AreNeeded (S.few texts.now) count signs.old.items pattern }
    ensures enough { IfOk result (λ _. IsEnough (S.few texts.now) count signs.old.items signs.new.items) }
    ensures needed { IfOk result (λ _. AreNeeded (S.few texts.now) count signs.new.items (pattern + 1)) }
{
    match signs[pattern] {
        None => Ok(()),
        Some(_) => ask_without(alloc, texts, signs, count, pattern),
    }
}

/// A copy of signs.
pub(crate) fn copy_signs(
    alloc: Global,
    signs: &[Option<bool>],
) -> Result<Vec<Option<bool>>, AllocError>
    ensures { IfOk result (λ v. v.items ≡ signs.now) }
{
    let mut copy = Vec::new(alloc);
    for sign in signs {
        copy.push(*sign)?;
    }
    Ok(copy)
}

/// A sign, asked only if it is true.
fn true_sign(sign: Option<bool>) -> Option<bool>
    ensures { result ≡ true_sign sign }
{
    match sign {
        Some(true) => Some(true),
        _ => None,
    }
}

/// The true signs alone; the false ones aren't asked.
pub fn true_signs(alloc: Global, signs: &[Option<bool>]) -> Result<Vec<Option<bool>>, AllocError>
    ensures { IfOk result (λ v. v.items ≡ map true_sign signs.now) }
{
    let mut asked = Vec::new(alloc);
    for sign in signs {
        asked.push(true_sign(*sign))?;
    }
    Ok(asked)
}

/// Whether a sign says that a pattern isn't matched.
pub fn is_false(sign: Option<bool>) -> bool
    ensures { IsTrue result ↔ sign ≡ Some false }
{
    is(sign, false)
}

/// Asks one more sign, if fewer than `count` texts have all that are then asked, and says whether it did.
fn ask_more<S: Texts>(
    alloc: Global,
    texts: &S,
    signs: &[Option<bool>],
    asked: &mut Vec<Option<bool>>,
    count: usize,
    pattern: usize,
) -> Result<bool, AllocError>
    requires sized { length signs.now ≡ S.patterns texts.now }
    requires bound { pattern < length signs.now }
    requires part { IsPart signs.now asked.old.items }
    ensures part { IfOk result (λ _. IsPart signs.now asked.new.items) }
    ensures few { IfOk result (λ b. b ≡ true → S.few texts.now asked.new.items count) }
{
    asked[pattern] = signs[pattern];
    if texts.few(alloc, asked.as_slice(), count)? {
        return Ok(true);
    }
    asked[pattern] = None;
    Ok(false)
}

/// The true signs and at most one false one, if fewer than `count` texts have these.
fn few_signs<S: Texts>(
    alloc: Global,
    texts: &S,
    signs: &[Option<bool>],
    count: usize,
) -> Result<Option<Vec<Option<bool>>>, AllocError>
    requires { length signs.now ≡ S.patterns texts.now }
    ensures { IfOk result (λ o. IfSome o (λ v. IsEnough (S.few texts.now) count signs.now v.items)) }
{
    let mut asked = true_signs(alloc, signs)?;
    if texts.few(alloc, asked.as_slice(), count)? {
        return Ok(Some(asked));
    }
    for pattern in 0..signs.len() {
        if is_false(signs[pattern]) {
            if ask_more(alloc, texts, signs, &mut asked, count, pattern)? {
                return Ok(Some(asked));
            }
        }
    }
    Ok(None)
}

/// Leaves the true signs and at most one false one, if fewer than `count` texts have these; else all signs.
fn ask_few<S: Texts>(
    alloc: Global,
    texts: &S,
    signs: &mut Vec<Option<bool>>,
    count: usize,
) -> Result<(), AllocError>
    requires sized { length signs.old.items ≡ S.patterns texts.now }
    requires enough { S.few texts.now signs.old.items count }
    ensures { IfOk result (λ _. IsEnough (S.few texts.now) count signs.old.items signs.new.items) }
{
    match few_signs(alloc, texts, signs.as_slice(), count)? {
        Some(asked) => {
            *signs = asked;
            Ok(())
        }
        None => Ok(()),
    }
}

/// Leaves out each sign in turn that isn't needed.
fn ask_needed<S: Texts>(
    alloc: Global,
    texts: &S,
    signs: &mut Vec<Option<bool>>,
    count: usize,
) -> Result<(), AllocError>
    requires sized { length signs.old.items ≡ S.patterns texts.now }
    requires enough { S.few texts.now signs.old.items count }
    ensures enough { IfOk result (λ _. IsEnough (S.few texts.now) count signs.old.items signs.new.items) }
    ensures needed { IfOk result (λ _. AreAllNeeded (S.few texts.now) count signs.new.items) }
{
    for pattern in 0..signs.len() {
        ask_less(alloc, texts, signs, count, pattern)?;
    }
    Ok(())
}

/// Leaves out signs until each that is left is needed: fewer than `count` texts have them all, and no fewer have all
/// but one. Mostly few signs are needed, so the true ones with at most one false one are tried first.
pub fn ask_least<S: Texts>(
    alloc: Global,
    texts: &S,
    signs: &mut Vec<Option<bool>>,
    count: usize,
) -> Result<(), AllocError>
    requires sized { length signs.old.items ≡ S.patterns texts.now }
    requires enough { S.few texts.now signs.old.items count }
    ensures enough { IfOk result (λ _. IsEnough (S.few texts.now) count signs.old.items signs.new.items) }
    ensures needed { IfOk result (λ _. AreAllNeeded (S.few texts.now) count signs.new.items) }
{
    ask_few(alloc, texts, signs, count)?;
    ask_needed(alloc, texts, signs, count)
}
