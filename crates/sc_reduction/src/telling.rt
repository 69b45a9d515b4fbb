//! Whether a world tells some of the policies of a set from others of them.
ghost use Rattle.std.specs.Prelude.{◌≡◌, List, length, map, not, IfOk};
ghost use Rattle.std.specs.List.{list_any};
ghost use Rattle.sc_auth.specs.Decisions.{allows, permits};
ghost use Rattle.sc_auth.specs.Standings.{is_satisfied, standing_of};
ghost use Rattle.sc_goal.specs.Selections.{selected};
ghost use Rattle.sc_world.specs.declared.world.World.{World as AnyWorld};
ghost use Rattle.sc_reduction.specs.Marked.{trial_of};
ghost use Rattle.sc_reduction.specs.Telling.{satisfied_with};
ghost use Rattle.sc_reduction.specs.Trials.{decide_alike};

use crate::comparing::Task;
use sc_ast::{Effect, Policy};
use sc_auth::{Standing, authorise};
use sc_world::World;
use std::alloc::AllocError;

fn permits(effect: Effect) -> bool
    ensures { result ≡ permits effect }
{
    match effect {
        Effect::Permit => true,
        Effect::Forbid => false,
    }
}

fn is_satisfied(standing: Standing) -> bool
    ensures { result ≡ is_satisfied standing }
{
    match standing {
        Standing::Satisfied => true,
        Standing::Unsatisfied => false,
        Standing::Errs(_) => false,
    }
}

/// Whether a policy that stands so is one of this effect that is satisfied.
fn is_satisfied_with(effect: Effect, policy: &Policy, standing: Standing) -> bool
    ensures { (w : AnyWorld) → standing ≡ standing_of w policy.now → result ≡ satisfied_with effect w policy.now }
{
    match effect {
        Effect::Permit => permits(policy.effect) && is_satisfied(standing),
        Effect::Forbid => !permits(policy.effect) && is_satisfied(standing),
    }
}

/// Whether a policy of this effect is satisfied among those that are marked, where all stand so.
fn some_satisfied(
    effect: Effect,
    policies: &[Policy],
    standings: &[Standing],
    marks: &[bool],
) -> bool
    requires stand { length standings.now ≡ length policies.now }
    requires marks { length marks.now ≡ length policies.now }
    ensures { (w : AnyWorld) → standings.now ≡ map (standing_of w) policies.now
        → result ≡ list_any (satisfied_with effect w) (selected marks.now policies.now) }
{
    for (place, marked) in marks.iter().enumerate() {
        if *marked && is_satisfied_with(effect, &policies[place], standings[place]) {
            return true;
        }
    }
    false
}

/// Whether the policies that are marked allow a world's request, where all stand so.
fn allow(policies: &[Policy], standings: &[Standing], marks: &[bool]) -> bool
    requires stand { length standings.now ≡ length policies.now }
    requires marks { length marks.now ≡ length policies.now }
    ensures { (w : AnyWorld) → standings.now ≡ map (standing_of w) policies.now
        → result ≡ allows w (selected marks.now policies.now) }
{
    some_satisfied(Effect::Permit, policies, standings, marks)
        && !some_satisfied(Effect::Forbid, policies, standings, marks)
}

/// Whether of the policies those that `left` marks and those that `right` marks decide otherwise in a world.
/// Each policy is evaluated once.
pub(crate) fn tells_apart(
    task: &Task<'_>,
    left: &[bool],
    right: &[bool],
    world: &World,
) -> Result<bool, AllocError>
    requires lefts { length left.now ≡ length task.now.query.now.first }
    requires rights { length right.now ≡ length task.now.query.now.first }
    ensures { IfOk result (λ b. b ≡ not (decide_alike (trial_of task.now left.now right.now) world.now)) }
{
    let policies = task.query.sets().0;
    let response = authorise(task.alloc, policies, world)?;
    let standings = response.standings.as_slice();
    let one = allow(policies.as_slice(), standings, left);
    let other = allow(policies.as_slice(), standings, right);
    Ok(one != other)
}
