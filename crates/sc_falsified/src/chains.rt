//! Breaches of transitivity: one item is known to equal a second, the second to equal a third, and the first to
//! differ from the third.
ghost use Rattle.std.specs.Prelude.{◌≡◌, ℕ, ◌<◌, ◌≤◌, ◌+◌, ◌==◌, get_or, slice_index_or, length, IfOk, IfSome, IfNone, IsTrue, ◌↔◌, Some, None, true, false};
ghost use Rattle.sc_falsified.specs.Truths.{IsIntransitive, NoneIntransitive};
ghost use Rattle.sc_falsified.specs.Classes.{AreLabels};
ghost use Rattle.sc_falsified.specs.Chains.{NoneBetween, NoneFrom, IsRow, AreSizes, seen};
ghost use Rattle.sc_falsified.specs.Crowds.{one_if};

use crate::truths::{Equalities, is};
use std::alloc::{AllocError, Global};

/// What is known of two items, if they have one label; else nothing.
fn seen<E: Equalities>(items: &E, labels: &[usize], a: usize, b: usize) -> Option<bool>
    requires a { a < length labels.now }
    requires b { b < length labels.now }
    ensures { result ≡ seen (E.truth items.now) labels.now a b }
{
    if labels[b] == labels[a] {
        items.equal(a, b)
    } else {
        None
    }
}

/// A row: what is known of an item and each other of its label.
fn row<E: Equalities>(
    alloc: Global,
    items: &E,
    labels: &[usize],
    a: usize,
) -> Result<Vec<Option<bool>>, AllocError>
    requires labels { AreLabels (E.truth items.now) (E.size items.now) labels.now }
    requires bound { a < E.size items.now }
    ensures { IfOk result (λ v. IsRow (E.truth items.now) (E.size items.now) a v.items) }
{
    let mut row = Vec::new(alloc);
    for b in 0..labels.len() {
        row.push(seen(items, labels, a, b))?;
    }
    Ok(row)
}

/// Whether a row has this truth at a place.
fn is_at(row: &[Option<bool>], b: usize, truth: bool) -> bool
    requires { b < length row.now }
    ensures { IsTrue result ↔ slice_index_or row.now b None ≡ Some truth }
{
    is(row[b], truth)
}

/// An item that is known to equal both of two others.
#[tactic(auto, using(crate::proofs::ChainLaws::between_unseen, crate::proofs::ChainLaws::between_last))]
fn between<E: Equalities>(items: &E, row: &[Option<bool>], a: usize, c: usize) -> Option<usize>
    requires { IsRow (E.truth items.now) (E.size items.now) a row.now }
    ensures found { IfSome result (λ b. (E.truth items.now a b ≡ Some true) × (E.truth items.now b c ≡ Some true)) }
    ensures none { IfNone result (NoneBetween (E.truth items.now) (E.size items.now) a c) }
{
    for b in 0..row.len() {
        if is_at(row, b, true) {
            if is(items.equal(b, c), true) {
                return Some(b);
            }
        }
    }
    None
}

/// A second and a third item that breach transitivity with a first one.
#[tactic(auto, using(crate::proofs::ChainLaws::from_unseen, crate::proofs::ChainLaws::from_next))]
fn from<E: Equalities>(items: &E, row: &[Option<bool>], a: usize) -> Option<(usize, usize)>
    requires row { IsRow (E.truth items.now) (E.size items.now) a row.now }
    requires bound { a < E.size items.now }
    ensures found { IfSome result (λ p. IsIntransitive (E.truth items.now) a p.0 p.1) }
    ensures none { IfNone result (NoneFrom (E.truth items.now) (E.size items.now) (E.size items.now) a) }
{
    for c in a + 1..row.len() {
        if is_at(row, c, false) {
            if let Some(b) = between(items, row, a, c) {
                return Some((b, c));
            }
        }
    }
    None
}

/// Counts one more item with a label.
fn count_one(sizes: &mut Vec<usize>, label: usize)
    requires { get_or sizes.old.items label 0 < length sizes.old.items }
    ensures sized { length sizes.new.items ≡ length sizes.old.items }
    ensures counted { (l : ℕ) → l < length sizes.old.items
        → get_or sizes.new.items l 0 ≡ one_if (label == l) + get_or sizes.old.items l 0 }
{
    if label < sizes.len() {
        sizes[label] += 1;
    }
}

/// Zeros at the places from 0 to `last`.
fn zeros(alloc: Global, last: usize) -> Result<Vec<usize>, AllocError>
    ensures sized { IfOk result (λ v. length v.items ≡ last + 1) }
    ensures zero { IfOk result (λ v. (i : ℕ) → get_or v.items i 0 ≡ 0) }
{
    let mut zeros = Vec::new(alloc);
    for _item in 0..last {
        zeros.push(0)?;
    }
    zeros.push(0)?;
    Ok(zeros)
}

fn larger(a: usize, b: usize) -> usize
    ensures { a ≤ result }
{
    if a < b { b } else { a }
}

/// The highest label, or the number of labels if that is greater.
fn highest(labels: &[usize]) -> usize
    ensures { length labels.now ≤ result }
{
    let mut most = labels.len();
    for label in labels.iter() {
        most = larger(most, *label);
    }
    most
}

/// For each label the number of items that have it.
fn sizes(alloc: Global, labels: &[usize]) -> Result<Vec<usize>, AllocError>
    ensures { IfOk result (λ v. AreSizes labels.now v.items) }
{
    let mut sizes = zeros(alloc, highest(labels))?;
    for item in 0..labels.len() {
        count_one(&mut sizes, labels[item]);
    }
    Ok(sizes)
}

/// Whether three items may have a label.
fn may_be_of_three(sizes: &[usize], label: usize) -> bool
    ensures within { result ≡ false → label < length sizes.now }
    ensures few { result ≡ false → get_or sizes.now label 0 ≤ 2 }
{
    match sizes.get(label) {
        Some(size) => *size > 2,
        None => true,
    }
}

/// A second and a third item that breach transitivity with a first one. Labels of fewer than three items are passed
/// over.
fn beside<E: Equalities>(
    alloc: Global,
    items: &E,
    labels: &[usize],
    sizes: &[usize],
    a: usize,
) -> Result<Option<(usize, usize)>, AllocError>
    requires labels { AreLabels (E.truth items.now) (E.size items.now) labels.now }
    requires sizes { AreSizes labels.now sizes.now }
    requires bound { a < E.size items.now }
    ensures found { IfOk result (λ o. IfSome o (λ p. IsIntransitive (E.truth items.now) a p.0 p.1)) }
    ensures none { IfOk result (λ o. IfNone o (NoneFrom (E.truth items.now) (E.size items.now) (E.size items.now) a)) }
{
    if !may_be_of_three(sizes, labels[a]) {
        return Ok(None);
    }
    let row = row(alloc, items, labels, a)?;
    Ok(from(items, row.as_slice(), a))
}

/// Three items that breach transitivity, or none exactly where no three do. Items that are known to be equal have one
/// label.
#[tactic(auto, using(crate::proofs::ChainLaws::from_each, crate::proofs::ChainLaws::none_intransitive))]
pub fn intransitive_among<E: Equalities>(
    alloc: Global,
    items: &E,
    labels: &[usize],
) -> Result<Option<(usize, usize, usize)>, AllocError>
    requires { AreLabels (E.truth items.now) (E.size items.now) labels.now }
    ensures found { IfOk result (λ o. IfSome o (λ t. IsIntransitive (E.truth items.now) t.0 t.1 t.2)) }
    ensures none { IfOk result (λ o. IfNone o (NoneIntransitive (E.truth items.now) (E.size items.now))) }
{
    let sizes = sizes(alloc, labels)?;
    for a in 0..labels.len() {
        let next = beside(alloc, items, labels, sizes.as_slice(), a)?;
        if let Some((b, c)) = next {
            return Ok(Some((a, b, c)));
        }
    }
    Ok(None)
}
