//! Classes of items that are joined two by two. Each item has a parent, which is no higher than the
//! item, and the lowest item of a class is its own parent.
ghost use Rattle.std.specs.Prelude.{◌≡◌, ◌<◌, ◌≤◌, length, get_or, IfOk, IfSome, IfNone};
ghost use Rattle.th_equal.specs.Classes.{AreParents, IsAlong, IsSame, IsRoot, IsCoarser};

use std::alloc::{AllocError, Global};

/// Items that are each a class of its own.
#[tactic(auto, using(crate::proofs::ClassLaws::alone_next))]
pub(crate) fn alone(alloc: Global, count: usize) -> Result<Vec<usize>, AllocError>
    ensures sized { IfOk result (λ v. length v.items ≡ count) }
    ensures parents { IfOk result (λ v. AreParents v.items) }
{
    let mut parents = Vec::new(alloc);
    for item in 0..count {
        parents.push(item)?;
    }
    Ok(parents)
}

/// The parent of an item. None exactly of an item that is its own.
fn above(parents: &[usize], item: usize) -> Option<usize>
    requires item { item < length parents.now }
    requires parents { AreParents parents.now }
    ensures some { IfSome result (λ p. get_or parents.now item 0 ≡ p) }
    ensures low { IfSome result (λ p. p < item) }
    ensures none { IfNone result (get_or parents.now item 0 ≡ item) }
{
    let parent = parents[item];
    if parent < item { Some(parent) } else { None }
}

/// The lowest item of an item's class.
#[tactic(auto, using(crate::proofs::ClassLaws::same_itself, crate::proofs::ClassLaws::root_step, crate::proofs::ClassLaws::root_end))]
fn root(parents: &[usize], item: usize) -> usize
    requires item { item < length parents.now }
    requires parents { AreParents parents.now }
    ensures { IsRoot parents.now item result }
{
    let mut at = item;
    while let Some(parent) = above(parents, at) {
        at = parent;
    }
    at
}

/// Puts an item that is its own parent below another.
#[tactic(auto, using(crate::proofs::ClassLaws::put_coarser, crate::proofs::ClassLaws::put_same))]
fn put_below(parents: &mut Vec<usize>, item: usize, parent: usize)
    requires item { item < length parents.old.items }
    requires own { get_or parents.old.items item 0 ≡ item }
    requires low { parent ≤ item }
    requires parents { AreParents parents.old.items }
    ensures coarser { IsCoarser parents.old.items parents.new.items }
    ensures same { IsSame parents.new.items item parent }
{
    parents[item] = parent;
}

/// Makes the classes of two items one.
#[tactic(auto, using(crate::proofs::ClassLaws::join_same, crate::proofs::ClassLaws::join_turned))]
pub(crate) fn join(parents: &mut Vec<usize>, one: usize, other: usize)
    requires one { one < length parents.old.items }
    requires other { other < length parents.old.items }
    requires parents { AreParents parents.old.items }
    ensures coarser { IsCoarser parents.old.items parents.new.items }
    ensures same { IsSame parents.new.items one other }
{
    let a = root(parents.as_slice(), one);
    let b = root(parents.as_slice(), other);
    if a < b {
        put_below(parents, b, a);
    } else {
        put_below(parents, a, b);
    }
}

/// The label of an item after those before it: its parent's, or its own number where it is its own parent.
fn label(parents: &[usize], labels: &[usize], item: usize) -> usize
    requires item { item < length parents.now }
    requires labels { length labels.now ≡ item }
    ensures low { get_or parents.now item 0 < item → result ≡ get_or labels.now (get_or parents.now item 0) 0 }
    ensures own { item ≤ get_or parents.now item 0 → result ≡ item }
{
    let parent = parents[item];
    if parent < item { labels[parent] } else { item }
}

/// A label for each item, one for all items of a class.
#[tactic(auto, using(crate::proofs::ClassLaws::label_next, crate::proofs::ClassLaws::labels_end))]
pub(crate) fn labels(alloc: Global, parents: &[usize]) -> Result<Vec<usize>, AllocError>
    requires { AreParents parents.now }
    ensures sized { IfOk result (λ v. length v.items ≡ length parents.now) }
    ensures along { IfOk result (λ v. IsAlong parents.now v.items) }
{
    let mut labels = Vec::new(alloc);
    for item in 0..parents.len() {
        let next = label(parents, labels.as_slice(), item);
        labels.push(next)?;
    }
    Ok(labels)
}
