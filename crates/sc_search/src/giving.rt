//! Instances whose clauses imply a literal or are falsified: suggested ones, and those that were found to be broken.
ghost use Rattle.std.specs.Prelude.{◌≡◌, ◌<◌, length, map, IfOk, IfSome, IsTrue};
ghost use Rattle.sc_search.specs.Given.{IsGiven};
ghost use Rattle.sc_propagation.specs.Trails.{Agree};

use crate::source::Source;
use sc_clauses::{Assignment, Clause, Instance, falsifies};
use sc_decisions::{Order, Suggestions};
use sc_propagation::Trail;
use sc_refutations::codes_of;
use std::alloc::{AllocError, Global};

/// The most instances that are kept.
const MOST_KEPT: usize = 4096;

/// An instance that was found to be broken, with the numbers of its clause's literals.
#[derive(Drop)]
pub(crate) struct Kept {
    instance: Instance,
    codes: Vec<u32>,
}

/// An instance whose clause implies a literal or is falsified, with the clause.
#[derive(Drop)]
pub(crate) struct Given {
    pub instance: Instance,
    pub clause: Clause,
}

/// The instance with its clause, if the source has it and the clause implies a literal.
fn if_given<S: Source>(
    alloc: Global,
    trail: &Trail,
    source: &S,
    order: &Order,
    instance: Instance,
) -> Result<Option<Given>, AllocError>
    requires { Agree trail.now.cells.items trail.now.lits.items }
    ensures { IfOk result (λ o. IfSome o
        (IsGiven (S.has_instance source.now) (S.clause_of source.now) trail.now)) }
{
    let Some(clause) = source.told(&instance)? else {
        return Ok(None);
    };
    let codes = codes_of(alloc, clause.as_slice())?;
    if !trail.gives(order, &codes) {
        return Ok(None);
    }
    Ok(Some(Given { instance, clause }))
}

/// The next suggested instance whose clause implies a literal, if one is left.
fn next_given<S: Source>(
    alloc: Global,
    trail: &Trail,
    source: &S,
    order: &Order,
    suggestions: &mut Suggestions,
) -> Result<Option<Given>, AllocError>
    requires { Agree trail.now.cells.items trail.now.lits.items }
    ensures { IfOk result (λ o. IfSome o
        (IsGiven (S.has_instance source.now) (S.clause_of source.now) trail.now)) }
{
    if let Some(seen) = suggestions.first_new(trail.lits.len()) {
        suggestions.put(source.suggested(&trail.lits, seen)?, trail.lits.len());
    }
    for _left in 0..suggestions.len() {
        let Some(instance) = suggestions.take() else {
            return Ok(None);
        };
        if let Some(found) = if_given(alloc, trail, source, order, instance)? {
            return Ok(Some(found));
        }
    }
    Ok(None)
}

// ---- broken instances

/// Keeps the instances that an assignment breaks, in place of those that were kept before.
pub(crate) fn keep_broken<S: Source>(
    alloc: Global,
    source: &S,
    m: &Assignment,
    kept: &mut Vec<Kept>,
) -> Result<(), AllocError> {
    kept.clear();
    for instance in source.broken(m)? {
        if kept.len() == MOST_KEPT {
            break;
        }
        if let Some(clause) = source.told(&instance)? {
            if falsifies(m, &clause) {
                let codes = codes_of(alloc, clause.as_slice())?;
                kept.push(Kept { instance, codes })?;
            }
        }
    }
    Ok(())
}

/// The place of a kept instance whose clause implies a literal or is falsified.
fn due_place(trail: &Trail, kept: &[Kept]) -> Option<usize>
    requires { Agree trail.now.cells.items trail.now.lits.items }
    ensures { IfSome result (λ place. place < length kept.now) }
{
    for place in 0..kept.len() {
        if trail.is_due(&kept[place].codes) {
            return Some(place);
        }
    }
    None
}

/// The instance with its clause, if the source has it and the clause implies a literal or is falsified.
fn if_due<S: Source>(
    alloc: Global,
    trail: &Trail,
    source: &S,
    instance: Instance,
) -> Result<Option<Given>, AllocError>
    requires { Agree trail.now.cells.items trail.now.lits.items }
    ensures { IfOk result (λ o. IfSome o
        (IsGiven (S.has_instance source.now) (S.clause_of source.now) trail.now)) }
{
    let Some(clause) = source.told(&instance)? else {
        return Ok(None);
    };
    let codes = codes_of(alloc, clause.as_slice())?;
    if !trail.is_due(&codes) {
        return Ok(None);
    }
    Ok(Some(Given { instance, clause }))
}

/// The next kept instance whose clause implies a literal or is falsified, if there is one.
pub(crate) fn next_kept<S: Source>(
    alloc: Global,
    trail: &Trail,
    source: &S,
    kept: &mut Vec<Kept>,
) -> Result<Option<Given>, AllocError>
    requires { Agree trail.now.cells.items trail.now.lits.items }
    ensures { IfOk result (λ o. IfSome o
        (IsGiven (S.has_instance source.now) (S.clause_of source.now) trail.now)) }
{
    for _left in 0..kept.len() {
        let Some(place) = due_place(trail, kept.as_slice()) else {
            return Ok(None);
        };
        let Kept { instance, .. } = kept.swap_remove(place);
        if let Some(found) = if_due(alloc, trail, source, instance)? {
            return Ok(Some(found));
        }
    }
    Ok(None)
}

/// The next instance whose clause implies a literal or is falsified: one that is suggested where nothing is decided,
/// or a kept one.
pub(crate) fn next_due<S: Source>(
    alloc: Global,
    trail: &Trail,
    source: &S,
    order: &Order,
    suggestions: &mut Suggestions,
    kept: &mut Vec<Kept>,
) -> Result<Option<Given>, AllocError>
    requires { Agree trail.now.cells.items trail.now.lits.items }
    ensures { IfOk result (λ o. IfSome o
        (IsGiven (S.has_instance source.now) (S.clause_of source.now) trail.now)) }
{
    if trail.levels.is_empty() {
        if let Some(found) = next_given(alloc, trail, source, order, suggestions)? {
            return Ok(Some(found));
        }
    }
    next_kept(alloc, trail, source, kept)
}
