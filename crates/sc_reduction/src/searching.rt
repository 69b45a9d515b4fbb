//! Whether a policy matters to others.
ghost use Rattle.std.specs.Prelude.{◌≡◌, length, IfOk, IsTrue};
ghost use Rattle.sc_reduction.specs.Marked.{HasWorld, asked_by, first_open, trial_of};
ghost use Rattle.sc_reduction.specs.Reductions.{MayBeReduced};
ghost use Rattle.sc_reduction.specs.Trials.{Finds};

use crate::comparing::{Finding, Task, compare};
use crate::fate::Fate;
use crate::telling::tells_apart;
use sc_schema::environments;
use std::alloc::AllocError;

/// What is found of the first environments, where this is found of the next one, and no world in it.
fn first_open(found: Fate, next: Fate) -> Fate
    ensures { result ≡ first_open found next }
{
    match found {
        Fate::Dropped => next,
        open => open,
    }
}

/// Looks in each environment for a world in which those policies that `left` marks and those that `right` marks
/// decide otherwise. The first world decides; else the first environment that is open does.
fn search(task: &Task<'_>, left: &[bool], right: &[bool]) -> Result<Fate, AllocError>
    requires task { MayBeReduced task.now.schema.now task.now.query.now }
    requires lefts { length left.now ≡ length task.now.query.now.first }
    requires rights { length right.now ≡ length task.now.query.now.first }
    ensures { IfOk result (Finds (trial_of task.now left.now right.now)) }
{
    let mut found = Fate::Dropped;
    for (place, env) in environments(task.schema).iter().enumerate() {
        match compare(task, env, left, right)? {
            Finding::Alike => {}
            Finding::Differs(world) => return Ok(Fate::Kept(place, world)),
            Finding::Spent(log) => found = first_open(found, Fate::Unproved(place, log)),
            Finding::OverLimit => found = first_open(found, Fate::TooLarge(place)),
        }
    }
    Ok(found)
}

/// Whether a policy was kept before by a world that tells the two apart now.
fn still_kept(
    task: &Task<'_>,
    left: &[bool],
    right: &[bool],
    before: &Fate,
) -> Result<bool, AllocError>
    requires lefts { length left.now ≡ length task.now.query.now.first }
    requires rights { length right.now ≡ length task.now.query.now.first }
    requires world { HasWorld (asked_by task.now) before.now }
    ensures { IfOk result (λ b. IsTrue b → Finds (trial_of task.now left.now right.now) before.now) }
{
    match before {
        Fate::Kept(_, world) => tells_apart(task, left, right, world),
        _ => Ok(false),
    }
}

/// What is found of a policy: `left` marks those that stay, and `right` those without it. What was found of it
/// before is looked at first, since the world by which a policy was kept mostly keeps it again.
pub(crate) fn fate_of(
    task: &Task<'_>,
    left: &[bool],
    right: &[bool],
    before: Fate,
) -> Result<Fate, AllocError>
    requires task { MayBeReduced task.now.schema.now task.now.query.now }
    requires lefts { length left.now ≡ length task.now.query.now.first }
    requires rights { length right.now ≡ length task.now.query.now.first }
    requires world { HasWorld (asked_by task.now) before }
    ensures { IfOk result (Finds (trial_of task.now left.now right.now)) }
{
    if still_kept(task, left, right, &before)? {
        return Ok(before);
    }
    search(task, left, right)
}
