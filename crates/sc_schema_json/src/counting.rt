//! How many environments actions have, without any being built: as many for each action as pairs
//! of a type of its principals and a type of its resources.
ghost use Rattle.std.specs.Prelude.{◌≡◌, ◌↔◌, ◌<◌, ◌≤◌, ◌-◌, ◌^◌, length, IsTrue, SomeIff};
ghost use Rattle.std.specs.List.{flat_map};
ghost use Rattle.sc_schema.specs.Declarations.{environments_for};

use sc_schema::Action;

/// Whether actions have more environments than this, counted without building any.
pub fn has_more_environments(actions: &[Action], most: u64) -> bool
    ensures { IsTrue result ↔ most < length (flat_map environments_for actions.now) }
{
    let mut left = most;
    for action in actions {
        match without_environments(left, action) {
            Some(rest) => left = rest,
            None => return true,
        }
    }
    false
}

/// What is left of a number where as many are taken away as an action has environments; none where
/// it has more.
fn without_environments(left: u64, action: &Action) -> Option<u64>
    ensures { SomeIff result (length (environments_for action.now) ≤ left)
        (left - length (environments_for action.now)) }
{
    left.checked_sub(environment_count(action)?)
}

/// How many environments an action has; none where a `u64` is too small for it.
#[tactic(auto, using(crate::proofs::CountLaws::environments_counted))]
fn environment_count(action: &Action) -> Option<u64>
    ensures { SomeIff result (length (environments_for action.now) < 2 ^ 64) (length (environments_for action.now)) }
{
    let principals = action.principals.len() as u64;
    principals.checked_mul(action.resources.len() as u64)
}
