//! Capabilities that are told to be one are one.
ghost use Rattle.std.specs.Prelude.{◌≡◌, true};
ghost use Rattle.sc_typed.specs.declared.capability.Capability.{Capability as AnyCapability};
ghost use Rattle.sc_typed.specs.Capabilities.{same};

/// Two capabilities that are told to be one are one, places and all.
#[tactic(auto, using(crate::proofs::SameLaws::same_is))]
pub fn same_laws()
    ensures { (c d : AnyCapability) → same c d ≡ true → c ≡ d }
{}
