//! What a cursor counts.
ghost use Rattle.std.specs.Prelude.{◌≡◌, ℕ, ◌+◌, ◌&&◌, nat_le};
ghost use Rattle.sc_lexemes.specs.declared.cursor.Cursor.{Cursor};
ghost use Rattle.sc_lexemes.specs.Depth.{Counts, fits, next, past, inside, back, deeper, outside};

/// A cursor counts the expressions that enclose its next token and the constructs that are open at
/// it, up from 0. The token fits where they are at most 100 and at most 1,000.
#[tactic(auto, using(crate::proofs::DepthLaws::none_outside, crate::proofs::DepthLaws::same_next, crate::proofs::DepthLaws::one_past, crate::proofs::DepthLaws::one_inside, crate::proofs::DepthLaws::as_before, crate::proofs::DepthLaws::one_deeper, crate::proofs::DepthLaws::limits))]
pub fn depth_laws()
    // Where a policy begins, nothing is open.
    ensures start { (i : ℕ) → Counts (outside i) 0 0 }
    // A token that doesn't count leaves both.
    ensures token { (s : Cursor) (e d : ℕ) → Counts s e d → Counts (next s) e d }
    // An operator, a prefix, an access or a part of `has` is one construct more.
    ensures operator { (s : Cursor) (e d : ℕ) → Counts s e d → Counts (past s) e (d + 1) }
    // An expression encloses what is in it, and is a construct.
    ensures expression { (s : Cursor) (e d : ℕ) → Counts s e d → Counts (inside s) (e + 1) (d + 1) }
    // Behind an expression the counts are those before it.
    ensures behind { (s t : Cursor) (e d : ℕ) → Counts s e d → Counts (back s t) e d }
    // An earlier clause of the policy is one construct more.
    ensures clause { (s : Cursor) (e d : ℕ) → Counts s e d → Counts (deeper s) e (d + 1) }
    // The limits are on these counts.
    ensures limits { (s : Cursor) (e d : ℕ) → Counts s e d → fits s ≡ (nat_le e 100 && nat_le d 1000) }
{}
