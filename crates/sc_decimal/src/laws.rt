//! The two ways to say which number a text stands for agree.
ghost use Rattle.std.specs.Prelude.{◌≡◌, ◌↔◌, ℕ, ℤ, List, Some};
ghost use Rattle.sc_decimal.specs.DecimalText.{IsDecimalText};
ghost use Rattle.sc_decimal.specs.DecimalValue.{decimal_of};

/// The number that `decimal_of` finds is the one that the text stands for.
pub fn decimal_laws()
    ensures { (text : List ℕ) (z : ℤ) → (decimal_of text ≡ Some z) ↔ IsDecimalText text z }
{}
