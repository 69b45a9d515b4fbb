//! What the definitions of decisions come to.
ghost use Rattle.std.specs.Prelude.{◌≡◌, ◌↔◌, ℕ, List, Bool, true, Ok, Err, IsTrue, IsErr, IsSomeAnd, Any, Contains, slice_get};
ghost use Rattle.std.specs.List.Sorted.{IsStrictlyIncreasing};
ghost use Rattle.sc_ast.specs.Conditions.{condition};
ghost use Rattle.sc_ast.specs.declared.policy.Effect.TheVariants.{Permit, Forbid};
ghost use Rattle.sc_ast.specs.declared.policy.Policy.{Policy as AnyPolicy};
ghost use Rattle.sc_values.specs.declared.value.Value.TheVariants as value;
ghost use Rattle.sc_world.specs.declared.world.World.{World as AnyWorld};
ghost use Rattle.sc_eval.specs.declared.error.EvalError.{EvalError as AnyError};
ghost use Rattle.sc_eval.specs.Eval.{eval};
ghost use Rattle.sc_auth.specs.declared.standing.Standing.TheVariants.{Satisfied, Errs};
ghost use Rattle.sc_auth.specs.Decisions.{satisfied, errs, allows, places};
ghost use Rattle.sc_auth.specs.Standings.{standing_of};

/// A policy is satisfied exactly where its condition is true, and errs exactly where its condition
/// has no value.
#[tactic(auto, using(crate::proofs::DecisionsLaws::satisfied_decides))]
pub fn policy_laws()
    ensures satisfied { (w : AnyWorld) (p : AnyPolicy) →
        IsTrue (satisfied w p) ↔ (eval (condition p) w ≡ Ok (value.Bool true)) }
    ensures errs { (w : AnyWorld) (p : AnyPolicy) →
        IsTrue (errs w p) ↔ IsErr (eval (condition p) w) }
{}

/// A policy stands as satisfied exactly where its condition is true, and stands as erring for a reason
/// exactly where its condition has no value for that reason.
pub fn standings_laws()
    ensures satisfied { (w : AnyWorld) (p : AnyPolicy) →
        (standing_of w p ≡ Satisfied) ↔ (eval (condition p) w ≡ Ok (value.Bool true)) }
    ensures errs { (w : AnyWorld) (p : AnyPolicy) (e : AnyError) →
        (standing_of w p ≡ Errs e) ↔ (eval (condition p) w ≡ Err e) }
{}

/// A set allows exactly where some permit is satisfied and no forbid is.
#[tactic(auto, using(crate::proofs::DecisionsLaws::allows_decides))]
pub fn decision_laws()
    ensures { (w : AnyWorld) (ps : List AnyPolicy) →
        IsTrue (allows w ps)
        ↔ Any (λ p. (p.effect ≡ Permit) × IsTrue (satisfied w p)) ps
        × ¬ Any (λ p. (p.effect ≡ Forbid) × IsTrue (satisfied w p)) ps }
{}

/// The places of the policies that pass a test are just those at which one stands that passes, in
/// ascending order.
#[tactic(auto, using(crate::proofs::DecisionsLaws::places_decides, crate::proofs::DecisionsLaws::places_rises))]
pub fn place_laws()
    ensures just { (test : AnyPolicy → Bool) (ps : List AnyPolicy) (n : ℕ) →
        Contains (places test ps) n ↔ IsSomeAnd (slice_get ps n) (λ p. IsTrue (test p)) }
    ensures ascending { (test : AnyPolicy → Bool) (ps : List AnyPolicy) →
        IsStrictlyIncreasing (places test ps) }
{}
