//! Which policy has no type.
use sc_lists::Fault;
use sc_schema::Env;
use sc_typed::TypeFault;

/// A policy that has no type in an environment.
#[derive(Debug, PartialEq, Eq, Drop)]
pub struct IllTyped {
    /// Which policy it is, counted from 0.
    pub policy: usize,
    /// The environment.
    pub env: Env,
    /// The rule that the policy breaks there, and where.
    pub fault: TypeFault,
}

impl From<IllTyped> for Fault<IllTyped> {
    ghost use Rattle.std.specs.Prelude.{◌≡◌};
    ghost use Rattle.sc_lists.specs.declared.fault.Fault.TheVariants.{Told};

    ghost from_gives = { λ error fault. fault ≡ Told error };

    fn from(error: IllTyped) -> Fault<IllTyped> {
        Fault::Told(error)
    }
}
