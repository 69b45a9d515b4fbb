//! How many terms a table takes: equal ones come in once.
ghost use Rattle.std.specs.Prelude.{◌<◌, ◌≤◌, length, IfOk};

use crate::kinds::Kind;
use crate::words::Leaf::{My, Principal, Resource};
use crate::words::Two::Equal;
use crate::words::Word::{self, Leaf, Two};
use crate::words::number_of;
use sc_terms::Terms;
use std::alloc::{AllocError, Global};
use std::cmp::Ordering;

/// Whether a term or x is true, and the term or y: two copies of the term, and three more terms.
fn doubled(terms: &mut Terms, t: u64, x: u64, y: u64) -> Result<u64, AllocError>
    requires t_in { t < length terms.old }
    requires x_in { x < length terms.old }
    requires y_in { y < length terms.old }
    ensures within { IfOk result (λ n. n < length terms.new) }
    ensures longer { length terms.old ≤ length terms.new }
{
    let left = terms.or(t, x)?;
    let right = terms.or(t, y)?;
    terms.and(left, right)
}

/// Whether the user views what is the user.
const OWN: &[Word] = &[
    Leaf(Principal(Kind::User)),
    Leaf(Resource(Kind::User)),
    Two(Equal),
];

/// A term that is doubled so many times.
fn doubled_often(alloc: Global, terms: &mut Terms, times: u32) -> Result<u64, AllocError>
    ensures within { IfOk result (λ n. n < length terms.new) }
    ensures longer { length terms.old ≤ length terms.new }
{
    let x = number_of(alloc, terms, &[Leaf(My("on"))])?;
    let y = number_of(alloc, terms, &[Leaf(My("up"))])?;
    let mut t = number_of(alloc, terms, OWN)?;
    for round in 0..times {
        t = doubled(terms, t, x, y)?;
    }
    Ok(t)
}

/// How many terms a table then has.
fn count(alloc: Global, times: u32) -> Result<u64, AllocError> {
    let mut terms = Terms::new(alloc)?;
    doubled_often(alloc, &mut terms, times)?;
    Ok(terms.len())
}

#[test]
fn equal_terms_come_in_once(rt: HostRuntime) {
    // as a tree the last of them has more than 2 ^ 60 nodes
    assert!(rt; count(rt.alloc(), 0) == Ok(8));
    assert!(rt; count(rt.alloc(), 60) == Ok(188));
}

/// How a term that is doubled so many times compares with one that is doubled more often.
fn order(alloc: Global, times: u32, more: u32) -> Result<Ordering, AllocError> {
    let mut terms = Terms::new(alloc)?;
    let t = doubled_often(alloc, &mut terms, times)?;
    let u = doubled_often(alloc, &mut terms, more)?;
    Ok(terms.compare(t, u))
}

#[test]
fn comparison_goes_down_one_path(rt: HostRuntime) {
    assert!(rt; order(rt.alloc(), 60, 61) == Ok(Ordering::Greater));
}

#[test]
fn comparison_of_deep_terms(rt: HostRuntime) {
    // they differ at the bottom alone, a hundred thousand parts deep
    assert!(rt; order(rt.alloc(), 50_000, 50_001) == Ok(Ordering::Greater));
}

/// `scripts/terms.sh` times it.
#[test]
fn a_million_terms(rt: HostRuntime) {
    assert!(rt; count(rt.alloc(), 333_331) == Ok(1_000_001));
}
