//! What is true of generated texts.
ghost use Rattle.std.specs.Prelude.{ℕ, ◌≤◌, length, reverse};
ghost use Rattle.sc_parser.specs.Spelling.{Spells};
ghost use Rattle.sc_generated.specs.Generated.{draws, forward, backward};
ghost use Rattle.sc_generated_laws.specs.Texts.{policies_in};

/// Each text spells the policies of its numbers, up to as many as a file may have.
#[tactic(auto, using(crate::proofs::TextLaws::forward_spelled, crate::proofs::TextLaws::backward_spelled))]
pub fn generated_laws()
    // In the order in which the numbers are drawn.
    ensures forward { (n : ℕ) → n ≤ 10000 → Spells (forward n) (policies_in (length (forward n)) (draws n n)) }
    // And in reverse.
    ensures backward { (n : ℕ) → n ≤ 10000 → Spells (backward n)
        (policies_in (length (backward n)) (reverse (draws n n))) }
{}
