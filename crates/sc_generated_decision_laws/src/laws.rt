//! What generated policies decide.
ghost use Rattle.std.specs.Prelude.{◌≡◌, ℕ, List, reverse};
ghost use Rattle.sc_auth.specs.Decisions.{allows};
ghost use Rattle.sc_generated_laws.specs.Texts.{policies_in};
ghost use Rattle.sc_world.specs.declared.world.World.{World};

/// What the policies of some numbers decide in a world depends neither on their order nor on how long the text is
/// behind which they stand, so on none of their places.
#[tactic(auto, using(crate::proofs::DecisionLaws::allows_reversed))]
pub fn generated_decision_laws()
    ensures { (w : World) (m n : ℕ) (xs : List ℕ)
        → allows w (policies_in m xs) ≡ allows w (policies_in n (reverse xs)) }
{}
