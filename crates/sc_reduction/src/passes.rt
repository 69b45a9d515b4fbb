//! Passes over the policies that stay.
ghost use Rattle.std.specs.Prelude.{◌≡◌, ◌<◌, List, Bool, false, true, length, slice_set, slice_index_or, IfOk};
ghost use Rattle.std.specs.List.{AllByRecursion};
ghost use Rattle.sc_reduction.specs.Marked.{HasWorld, asked_by};
ghost use Rattle.sc_reduction.specs.Passes.{IsFewer, IsPass, IsTried};
ghost use Rattle.sc_reduction.specs.Reductions.{Asked as AnyAsked, IsEquivalent, MayBeReduced, stays};

use crate::comparing::Task;
use crate::fate::Fate;
use crate::searching::fate_of;
use std::alloc::{AllocError, Global};
use std::mem;

/// What a pass leaves.
#[derive(Drop)]
pub(crate) struct Pass {
    /// Which policies stay, by their places.
    pub(crate) kept: Vec<bool>,
    /// What was found of each policy; before the first pass nothing.
    pub(crate) fates: Vec<Fate>,
    /// Whether the pass dropped a policy.
    pub(crate) dropped: bool,
}

/// The marks without the one at a place.
fn without(alloc: Global, marks: &[bool], place: usize) -> Result<Vec<bool>, AllocError>
    requires { place < length marks.now }
    ensures { IfOk result (λ fewer. fewer.items ≡ slice_set marks.now place false) }
{
    let mut fewer = Vec::from_slice(alloc, marks)?;
    fewer[place] = false;
    Ok(fewer)
}

/// What was found of the policy at a place before, if anything was.
fn taken(fates: &mut Vec<Fate>, place: usize) -> Fate
    ensures world { (r : AnyAsked) → AllByRecursion (HasWorld r) fates.old.items → HasWorld r result }
    ensures worlds { (r : AnyAsked) → AllByRecursion (HasWorld r) fates.old.items
        → AllByRecursion (HasWorld r) fates.new.items }
{
    if place < fates.len() {
        mem::replace(&mut fates[place], Fate::Dropped)
    } else {
        Fate::Dropped
    }
}

/// What becomes of the policy at a place. One that leaves does so at once.
fn try_policy(
    task: &Task<'_>,
    kept: &mut Vec<bool>,
    place: usize,
    before: Fate,
) -> Result<Fate, AllocError>
    requires task { MayBeReduced task.now.schema.now task.now.query.now }
    requires one_each { length kept.old.items ≡ length task.now.query.now.first }
    requires within { place < length kept.old.items }
    requires world { HasWorld (asked_by task.now) before }
    requires equivalent { IsEquivalent (asked_by task.now) kept.old.items }
    ensures tried { IfOk result (IsTried (asked_by task.now) kept.old.items place kept.new.items) }
{
    if !kept[place] {
        return Ok(Fate::Dropped);
    }
    let fewer = without(task.alloc, kept, place)?;
    let fate = fate_of(task, kept, &fewer, before)?;
    if !fate.stays() {
        *kept = fewer;
    }
    Ok(fate)
}

/// One more pass: each policy that stays is tried, by its place.
pub(crate) fn next_pass(task: &Task<'_>, last: Pass) -> Result<Pass, AllocError>
    requires task { MayBeReduced task.now.schema.now task.now.query.now }
    requires last { IsPass (asked_by task.now) last }
    ensures pass { IfOk result (IsPass (asked_by task.now)) }
    ensures fewer { IfOk result (λ p. IsFewer p.dropped last.kept.items p.kept.items) }
{
    let Pass {
        mut kept,
        fates: mut before,
        ..
    } = last;
    let mut fates = Vec::new(task.alloc);
    let mut dropped = false;
    for place in 0..kept.len() {
        let stayed = kept[place];
        let fate = try_policy(task, &mut kept, place, taken(&mut before, place))?;
        dropped |= fate.stays() != stayed;
        fates.push(fate)?;
    }
    Ok(Pass {
        kept,
        fates,
        dropped,
    })
}
