//! Labels of items, so that items which are known to be equal have one label.
ghost use Rattle.std.specs.Prelude.{◌≡◌, ◌+◌, ◌<◌, map, length, slice_index_or, IfOk};
ghost use Rattle.sc_falsified.specs.Classes.{moved, IsJoined, AreLabels};

use crate::truths::{Equalities, is};
use std::alloc::{AllocError, Global};

/// The label of an item, once one label is replaced by another.
fn moved(from: usize, to: usize, label: usize) -> usize
    ensures { result ≡ moved from to label }
{
    if label == from { to } else { label }
}

/// Replaces one label by another.
fn move_all(labels: &mut Vec<usize>, from: usize, to: usize)
    ensures { labels.new.items ≡ map (moved from to) labels.old.items }
{
    for label in labels.iter_mut() {
        *label = moved(from, to, *label);
    }
}

/// Joins the classes of two items: all items of both get one label.
fn merge(labels: &mut Vec<usize>, one: usize, other: usize)
    requires one { one < length labels.old.items }
    requires other { other < length labels.old.items }
    ensures { labels.new.items ≡ map (moved (slice_index_or labels.old.items other 0)
        (slice_index_or labels.old.items one 0)) labels.old.items }
{
    let to = labels[one];
    let from = labels[other];
    move_all(labels, from, to);
}

/// Joins an item's class with that of each earlier item that it is known to equal.
#[tactic(auto, using(crate::proofs::ClassLaws::joined_skip, crate::proofs::ClassLaws::joined_merge, crate::proofs::ClassLaws::joined_row))]
fn join_row<E: Equalities>(items: &E, labels: &mut Vec<usize>, i: usize)
    requires bound { i < E.size items.now }
    requires joined { IsJoined (E.truth items.now) (E.size items.now) i 0 labels.old.items }
    ensures { IsJoined (E.truth items.now) (E.size items.now) (i + 1) 0 labels.new.items }
{
    for j in 0..i {
        if is(items.equal(i, j), true) {
            merge(labels, i, j);
        }
    }
}

/// The numbers from 0 on, as many as there are items.
fn numbers(alloc: Global, count: usize) -> Result<Vec<usize>, AllocError>
    ensures { IfOk result (λ v. length v.items ≡ count) }
{
    let mut numbers = Vec::new(alloc);
    for i in 0..count {
        numbers.push(i)?;
    }
    Ok(numbers)
}

/// A label for each item, so that items which are known to be equal have one label.
#[tactic(auto, using(crate::proofs::ClassLaws::joined_start, crate::proofs::ClassLaws::joined_end))]
pub fn labels<E: Equalities>(alloc: Global, items: &E) -> Result<Vec<usize>, AllocError>
    ensures { IfOk result (λ v. AreLabels (E.truth items.now) (E.size items.now) v.items) }
{
    let count = items.len();
    let mut labels = numbers(alloc, count)?;
    for i in 0..count {
        join_row(items, &mut labels, i);
    }
    Ok(labels)
}
