//! What an assignment tells of strings: which patterns they match.
ghost use Rattle.std.specs.Prelude.{◌≡◌, ℕ, ◌≤◌, ◌<◌, ◌+◌, Bool, true, false, Option, Some, None, List, length, get_or, slice_set, IsTrue, ◌↔◌, IfOk};
ghost use Rattle.sc_falsified.specs.Crowds.{IsWithin};

use std::alloc::{AllocError, Global};

/// Items that stand for strings, what is known of each item and each pattern, and how many texts have some signs.
pub trait Texts {
    /// The number of patterns.
    ghost patterns: { Self → ℕ };

    /// Whether an item matches a pattern, where that is known.
    ghost sign: { Self → ℕ → ℕ → Option Bool };

    /// Whether fewer than a number of texts have the signs that are asked.
    ghost few: { Self → List (Option Bool) → ℕ → Type 0 };

    /// The number of patterns.
    fn patterns(&self) -> usize
        ensures { result ≡ patterns self.now };

    /// Whether an item matches a pattern, where that is known.
    fn sign(&self, item: usize, pattern: usize) -> Option<bool>
        ensures { result ≡ sign self.now item pattern };

    /// Whether fewer than `count` texts have the signs that are asked. Want of memory is its one fault.
    fn few(&self, alloc: Global, signs: &[Option<bool>], count: usize) -> Result<bool, AllocError>
        requires { length signs.now ≡ patterns self.now }
        ensures { IfOk result (λ b. IsTrue b ↔ few self.now signs.now count) };

    /// There are never fewer than 0 texts.
    ghost none: { (texts : Self) (v : List (Option Bool)) → few texts v 0 → ⊥ };

    /// Where there are fewer texts than a number, there are fewer than any greater one.
    ghost greater: { (texts : Self) (v : List (Option Bool)) (k l : ℕ) → k ≤ l → few texts v k → few texts v l };

    /// Where more signs are asked, there are no more texts.
    ghost asked: { (texts : Self) (w v : List (Option Bool)) (k : ℕ) → IsWithin w v → few texts w k → few texts v k };

    /// Fewer than m + n texts have some signs, and no fewer than m of these match a further pattern: then fewer than
    /// n of them don't match it.
    ghost split: { (texts : Self) (v : List (Option Bool)) (p m n : ℕ) → length v ≡ patterns texts → p < length v
        → get_or v p None ≡ None → few texts v (m + n) → ¬ (few texts (slice_set v p (Some true)) m)
        → few texts (slice_set v p (Some false)) n };
}
