//! Crowds under an assignment that leaves nothing about the items open: they fall into classes, and each has a sign
//! for each pattern. Then there is no search: for each item, one item of each class among those with its signs tells
//! whether they are a crowd.
ghost use Rattle.std.specs.Prelude.{◌≡◌, ℕ, ◌<◌, ◌+◌, ◌==◌, length, slice_index_or, IfOk, IfSome, IfNone, IsTrue, IsSome, ◌↔◌, Some, None};
ghost use Rattle.sc_falsified.specs.Crowds.{IsCrowd, Fits, NoneCrowded, AreAllNeeded};
ghost use Rattle.sc_falsified.specs.Settled.{IsSettled, IsPicked, AreRowsFree};

use crate::classes::labels;
use crate::crowds::{Crowd, crowded, is_apart, row};
use crate::needs::ask_least;
use crate::texts::Texts;
use crate::truths::{Equalities, is};
use std::alloc::{AllocError, Global};

/// Whether two items are known to be equal if their labels are, and known to differ if these differ.
fn is_classed<E: Equalities>(items: &E, labels: &[usize], a: usize, b: usize) -> bool
    requires a { a < length labels.now }
    requires b { b < length labels.now }
    ensures { IsTrue result ↔ E.truth items.now a b
        ≡ Some (slice_index_or labels.now a 0 == slice_index_or labels.now b 0) }
{
    is(items.equal(a, b), labels[a] == labels[b])
}

/// Whether an item and each before it are known to be equal if their labels are, and to differ if these do.
fn is_row_classed<E: Equalities>(items: &E, labels: &[usize], b: usize) -> bool
    requires { b < length labels.now }
    ensures { IsTrue result → (a : ℕ) → a < b → E.truth items.now a b
        ≡ Some (slice_index_or labels.now a 0 == slice_index_or labels.now b 0) }
{
    for a in 0..b {
        if !is_classed(items, labels, a, b) {
            return false;
        }
    }
    true
}

/// Whether items fall into classes, which their labels tell: each two are known to be equal, or known to differ.
fn are_classed<E: Equalities>(items: &E, labels: &[usize]) -> bool
    ensures { IsTrue result → (a b : ℕ) → a < b → b < length labels.now → E.truth items.now a b
        ≡ Some (slice_index_or labels.now a 0 == slice_index_or labels.now b 0) }
{
    for b in 0..labels.len() {
        if !is_row_classed(items, labels, b) {
            return false;
        }
    }
    true
}

/// Whether an item's sign for a pattern is known.
fn has_sign<S: Texts>(texts: &S, item: usize, pattern: usize) -> bool
    ensures { IsTrue result ↔ IsSome (S.sign texts.now item pattern) }
{
    texts.sign(item, pattern).is_some()
}

/// Whether each sign of an item is known.
fn has_all_signs<S: Texts>(texts: &S, item: usize) -> bool
    ensures { IsTrue result → (p : ℕ) → p < S.patterns texts.now → IsSome (S.sign texts.now item p) }
{
    for pattern in 0..texts.patterns() {
        if !has_sign(texts, item, pattern) {
            return false;
        }
    }
    true
}

/// Whether each sign of each of the first items is known, up to a number.
fn have_all_signs<S: Texts>(texts: &S, count: usize) -> bool
    ensures { IsTrue result → (t p : ℕ) → t < count → p < S.patterns texts.now → IsSome (S.sign texts.now t p) }
{
    for item in 0..count {
        if !has_all_signs(texts, item) {
            return false;
        }
    }
    true
}

/// Whether nothing about the items is open.
fn is_settled<E: Equalities, S: Texts>(items: &E, texts: &S, labels: &[usize]) -> bool
    requires { length labels.now ≡ E.size items.now }
    ensures { IsTrue result → IsSettled (E.truth items.now) (S.sign texts.now) (E.size items.now)
        (S.patterns texts.now) labels.now }
{
    if !are_classed(items, labels) {
        return false;
    }
    have_all_signs(texts, labels.len())
}

/// Whether an item has each sign that is asked.
fn fits<S: Texts>(texts: &S, signs: &[Option<bool>], item: usize) -> bool
    ensures { IsTrue result ↔ Fits (S.sign texts.now) signs.now item }
{
    for pattern in 0..signs.len() {
        if let Some(sign) = signs[pattern] {
            if !is(texts.sign(item, pattern), sign) {
                return false;
            }
        }
    }
    true
}

/// Picks an item, if it has the signs and differs from those that were picked.
#[tactic(auto, using(crate::proofs::SettledLaws::picked_known))]
fn pick<E: Equalities, S: Texts>(
    items: &E,
    texts: &S,
    labels: &[usize],
    signs: &[Option<bool>],
    picked: &mut Vec<usize>,
    item: usize,
) -> Result<(), AllocError>
    requires bound { item < E.size items.now }
    requires settled { IsSettled (E.truth items.now) (S.sign texts.now) (E.size items.now)
        (S.patterns texts.now) labels.now }
    requires picked { IsPicked (E.truth items.now) (S.sign texts.now) (E.size items.now)
        (S.patterns texts.now) item signs.now picked.old.items }
    ensures { IfOk result (λ _. IsPicked (E.truth items.now) (S.sign texts.now) (E.size items.now)
        (S.patterns texts.now) (item + 1) signs.now picked.new.items) }
{
    if !fits(texts, signs, item) {
        return Ok(());
    }
    if !is_apart(items, picked.as_slice(), item) {
        return Ok(());
    }
    picked.push(item)?;
    Ok(())
}

/// One item of each class among those that have some signs.
fn pick_all<E: Equalities, S: Texts>(
    alloc: Global,
    items: &E,
    texts: &S,
    labels: &[usize],
    signs: &[Option<bool>],
) -> Result<Vec<usize>, AllocError>
    requires settled { IsSettled (E.truth items.now) (S.sign texts.now) (E.size items.now)
        (S.patterns texts.now) labels.now }
    requires sized { length signs.now ≡ S.patterns texts.now }
    ensures { IfOk result (λ v. IsPicked (E.truth items.now) (S.sign texts.now) (E.size items.now)
        (S.patterns texts.now) (E.size items.now) signs.now v.items) }
{
    let mut picked = Vec::new(alloc);
    for item in 0..items.len() {
        pick(items, texts, labels, signs, &mut picked, item)?;
    }
    Ok(picked)
}

/// A crowd of items that have the signs of a given one; none where they are no crowd.
#[tactic(auto, using(crate::proofs::SettledLaws::row_crowded, crate::proofs::SettledLaws::row_not_crowded))]
fn row_crowd<E: Equalities, S: Texts>(
    alloc: Global,
    items: &E,
    texts: &S,
    labels: &[usize],
    item: usize,
) -> Result<Option<Crowd>, AllocError>
    requires { IsSettled (E.truth items.now) (S.sign texts.now) (E.size items.now) (S.patterns texts.now) labels.now }
    ensures found { IfOk result (λ o. IfSome o (λ c. IsCrowd (E.truth items.now) (S.sign texts.now) (S.few texts.now)
        (E.size items.now) (S.patterns texts.now) c.items.items c.signs.items)) }
    ensures none { IfOk result (λ o. IfNone o (AreRowsFree (E.truth items.now) (S.sign texts.now) (S.few texts.now)
        (E.size items.now) (S.patterns texts.now) item
        → AreRowsFree (E.truth items.now) (S.sign texts.now) (S.few texts.now) (E.size items.now)
        (S.patterns texts.now) (item + 1))) }
{
    let signs = row(alloc, texts, item)?;
    let picked = pick_all(alloc, items, texts, labels, signs.as_slice())?;
    if !texts.few(alloc, signs.as_slice(), picked.len())? {
        return Ok(None);
    }
    Ok(Some(Crowd {
        items: picked,
        signs,
    }))
}

/// A crowd, where nothing about the items is open; none exactly where there is none.
#[tactic(auto, using(crate::proofs::SettledLaws::rows_first))]
fn settled_crowd<E: Equalities, S: Texts>(
    alloc: Global,
    items: &E,
    texts: &S,
    labels: &[usize],
) -> Result<Option<Crowd>, AllocError>
    requires { IsSettled (E.truth items.now) (S.sign texts.now) (E.size items.now) (S.patterns texts.now) labels.now }
    ensures found { IfOk result (λ o. IfSome o (λ c. IsCrowd (E.truth items.now) (S.sign texts.now) (S.few texts.now)
        (E.size items.now) (S.patterns texts.now) c.items.items c.signs.items)) }
    ensures none { IfOk result (λ o. IfNone o (NoneCrowded (E.truth items.now) (S.sign texts.now) (S.few texts.now)
        (E.size items.now) (S.patterns texts.now))) }
{
    for item in 0..items.len() {
        let outcome = row_crowd(alloc, items, texts, labels, item)?;
        if let Some(found) = outcome {
            return Ok(Some(found));
        }
    }
    Ok(None)
}

/// A crowd; none exactly where there is none. There is a search only where something about the items is open.
fn any_crowd<E: Equalities, S: Texts>(
    alloc: Global,
    items: &E,
    texts: &S,
) -> Result<Option<Crowd>, AllocError>
    ensures found { IfOk result (λ o. IfSome o (λ c. IsCrowd (E.truth items.now) (S.sign texts.now) (S.few texts.now)
        (E.size items.now) (S.patterns texts.now) c.items.items c.signs.items)) }
    ensures none { IfOk result (λ o. IfNone o (NoneCrowded (E.truth items.now) (S.sign texts.now) (S.few texts.now)
        (E.size items.now) (S.patterns texts.now))) }
{
    let labels = labels(alloc, items)?;
    if is_settled(items, texts, labels.as_slice()) {
        return settled_crowd(alloc, items, texts, labels.as_slice());
    }
    crowded(alloc, items, texts)
}

/// A crowd: items that are known to differ pairwise and to have some signs, more of them than there are texts with
/// these signs, and each sign that is asked is needed for that. None exactly where there is no crowd.
#[tactic(auto, using(crate::proofs::NeedLaws::crowd_less))]
pub fn crowd_of<E: Equalities, S: Texts>(
    alloc: Global,
    items: &E,
    texts: &S,
) -> Result<Option<Crowd>, AllocError>
    ensures found { IfOk result (λ o. IfSome o (λ c. IsCrowd (E.truth items.now) (S.sign texts.now) (S.few texts.now)
        (E.size items.now) (S.patterns texts.now) c.items.items c.signs.items)) }
    ensures needed { IfOk result (λ o. IfSome o (λ c. AreAllNeeded (S.few texts.now)
        (length c.items.items) c.signs.items)) }
    ensures none { IfOk result (λ o. IfNone o (NoneCrowded (E.truth items.now) (S.sign texts.now) (S.few texts.now)
        (E.size items.now) (S.patterns texts.now))) }
{
    let Some(crowd) = any_crowd(alloc, items, texts)? else {
        return Ok(None);
    };
    let members = crowd.items;
    let mut signs = crowd.signs;
    ask_least(alloc, texts, &mut signs, members.len())?;
    Ok(Some(Crowd {
        items: members,
        signs,
    }))
}
