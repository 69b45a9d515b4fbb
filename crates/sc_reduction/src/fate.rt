//! What becomes of a policy.
ghost use Rattle.std.specs.Prelude.{◌≡◌};
ghost use Rattle.sc_reduction.specs.Reductions.{stays};

use sc_checker::Log;
use sc_world::World;

/// What becomes of a policy of a set that is reduced. Environments are named by their places among those
/// of the schema, counted from 0.
#[derive(Drop)]
pub enum Fate {
    /// It leaves: those that stay decide alike without it.
    Dropped,
    /// It stays: in this world, which is well-formed for the environment, those that stay decide otherwise
    /// without it.
    Kept(usize, World),
    /// It stays, since in the environment the budget was spent before it was known whether it matters. The log
    /// has as many units.
    Unproved(usize, Log),
    /// It stays, since more atoms would be listed in the environment than may be.
    TooLarge(usize),
}

impl Fate {
    /// Whether the policy stays.
    pub fn stays(&self) -> bool
        ensures { result ≡ stays self.now }
    {
        match self {
            Fate::Dropped => false,
            Fate::Kept(_, _) => true,
            Fate::Unproved(_, _) => true,
            Fate::TooLarge(_) => true,
        }
    }
}
