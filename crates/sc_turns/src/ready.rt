//! Sets of places, of which the least is taken.
ghost use Rattle.std.specs.Prelude.{◌≡◌, ◌==◌, ◌≤◌, ◌||◌, ◌&&◌, ℕ, true, false, not, OnOk, MatchOption};
ghost use Rattle.sc_turns.specs.Turning.{among};

use std::alloc::AllocError;
use std::collections::BTreeSet;

pub(crate) fn put(ready: &mut BTreeSet<u64>, x: u64) -> Result<(), AllocError>
    ensures { OnOk result ((p : ℕ) → among ready.new p ≡ ((p == x) || among ready.old p)) }
{
    ready.insert(x)?;
    Ok(())
}

/// Takes the least place out.
pub(crate) fn take_least(ready: &mut BTreeSet<u64>) -> Option<u64>
    ensures { MatchOption result ((p : ℕ) → (among ready.old p ≡ false) × (among ready.new p ≡ false))
        (λ x. (among ready.old x ≡ true) × ((p : ℕ)
        → among ready.old p ≡ true → x ≤ p) × ((p : ℕ) → among ready.new p ≡ (not (p == x) && among ready.old p))) }
{
    ready.pop_first()
}
