//! Gaps: a start is joined to a middle, the middle to an end, and the start is known not to be joined to that end. So
//! transitivity fails, or that members of a subset are members.
ghost use Rattle.std.specs.Prelude.{◌≡◌, ℕ, ◌<◌, Bool, Option, length, slice_index_or, ◌↔◌, None, IfOk, IfSome, IfNone, IsTrue, Some, true, false};
ghost use Rattle.sc_falsified.specs.Paths.{IsGap, NoGap, IsReach, ReachesNone, NoEnd, NoStart};

use crate::truths::is;
use std::alloc::{AllocError, Global};

/// Starts, middles and ends, by their numbers from 0, and what is known of the three relations between them. All
/// three may be the same items, and the relations may be one.
pub trait Paths {
    /// The number of starts.
    ghost starts: { Self → ℕ };

    /// The number of middles.
    ghost middles: { Self → ℕ };

    /// The number of ends.
    ghost ends: { Self → ℕ };

    /// Whether a start is joined to a middle, where that is known.
    ghost first: { Self → ℕ → ℕ → Option Bool };

    /// Whether a middle is joined to an end, where that is known.
    ghost second: { Self → ℕ → ℕ → Option Bool };

    /// Whether a start is joined to an end, where that is known.
    ghost third: { Self → ℕ → ℕ → Option Bool };

    /// The number of starts.
    fn starts(&self) -> usize
        ensures { result ≡ starts self.now };

    /// The number of middles.
    fn middles(&self) -> usize
        ensures { result ≡ middles self.now };

    /// The number of ends.
    fn ends(&self) -> usize
        ensures { result ≡ ends self.now };

    /// Whether a start is joined to a middle, where that is known.
    fn first(&self, start: usize, middle: usize) -> Option<bool>
        ensures { result ≡ first self.now start middle };

    /// Whether a middle is joined to an end, where that is known.
    fn second(&self, middle: usize, end: usize) -> Option<bool>
        ensures { result ≡ second self.now middle end };

    /// Whether a start is joined to an end, where that is known.
    fn third(&self, start: usize, end: usize) -> Option<bool>
        ensures { result ≡ third self.now start end };
}

/// A row: what is known of a middle and each end.
fn reach<P: Paths>(alloc: Global, paths: &P, b: usize) -> Result<Vec<Option<bool>>, AllocError>
    ensures { IfOk result (λ v. IsReach (P.second paths.now) (P.ends paths.now) b v.items) }
{
    let mut reach = Vec::new(alloc);
    for c in 0..paths.ends() {
        reach.push(paths.second(b, c))?;
    }
    Ok(reach)
}

/// Whether a middle is known to be joined to an end.
fn reaches(reach: &[Option<bool>], c: usize) -> bool
    requires { c < length reach.now }
    ensures { IsTrue result ↔ slice_index_or reach.now c None ≡ Some true }
{
    is(reach[c], true)
}

/// Whether a middle is known to be joined to any end.
#[tactic(auto, using(crate::proofs::PathLaws::none_first, crate::proofs::PathLaws::none_more))]
fn reaches_any(reach: &[Option<bool>]) -> bool
    ensures { result ≡ false → ReachesNone reach.now (length reach.now) }
{
    for c in 0..reach.len() {
        if reaches(reach, c) {
            return true;
        }
    }
    false
}

/// An end to which a middle is joined and a start is known not to be.
#[tactic(auto, using(crate::proofs::PathLaws::end_first, crate::proofs::PathLaws::end_unreached, crate::proofs::PathLaws::end_joined))]
fn end<P: Paths>(paths: &P, reach: &[Option<bool>], a: usize, b: usize) -> Option<usize>
    requires { IsReach (P.second paths.now) (P.ends paths.now) b reach.now }
    ensures found { IfSome result (λ c. (P.second paths.now b c ≡ Some true) × (P.third paths.now a c ≡ Some false)) }
    ensures none { IfNone result (NoEnd (P.second paths.now) (P.third paths.now) (P.ends paths.now) a b) }
{
    for c in 0..reach.len() {
        if reaches(reach, c) {
            if is(paths.third(a, c), false) {
                return Some(c);
            }
        }
    }
    None
}

/// A start that is joined to a middle, and an end to which the middle is joined and the start is known not to be.
#[tactic(auto, using(crate::proofs::PathLaws::none_reached, crate::proofs::PathLaws::start_first, crate::proofs::PathLaws::start_skip, crate::proofs::PathLaws::start_more))]
fn start<P: Paths>(paths: &P, reach: &[Option<bool>], b: usize) -> Option<(usize, usize)>
    requires { IsReach (P.second paths.now) (P.ends paths.now) b reach.now }
    ensures found { IfSome result (λ p. IsGap (P.first paths.now) (P.second paths.now) (P.third paths.now) p.0 b p.1) }
    ensures none { IfNone result (NoStart (P.first paths.now) (P.second paths.now) (P.third paths.now)
        (P.starts paths.now) (P.ends paths.now) b) }
{
    if !reaches_any(reach) {
        return None;
    }
    for a in 0..paths.starts() {
        if is(paths.first(a, b), true) {
            if let Some(c) = end(paths, reach, a, b) {
                return Some((a, c));
            }
        }
    }
    None
}

/// A gap, or none exactly where there is none.
#[tactic(auto, using(crate::proofs::PathLaws::middle_first, crate::proofs::PathLaws::middle_more, crate::proofs::PathLaws::no_gap))]
pub fn gap<P: Paths>(alloc: Global, paths: &P) -> Result<Option<(usize, usize, usize)>, AllocError>
    ensures found { IfOk result (λ o. IfSome o (λ t. IsGap (P.first paths.now) (P.second paths.now)
        (P.third paths.now) t.0 t.1 t.2)) }
    ensures none { IfOk result (λ o. IfNone o (NoGap (P.first paths.now) (P.second paths.now) (P.third paths.now)
        (P.starts paths.now) (P.middles paths.now) (P.ends paths.now))) }
{
    for b in 0..paths.middles() {
        let reach = reach(alloc, paths, b)?;
        if let Some((a, c)) = start(paths, reach.as_slice(), b) {
            return Ok(Some((a, b, c)));
        }
    }
    Ok(None)
}
