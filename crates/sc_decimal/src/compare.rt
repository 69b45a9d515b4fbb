//! The order of decimal numbers.
ghost use Rattle.std.specs.Prelude.{IsTrue, ◌↔◌, ◌<ℤ◌, ◌≤ℤ◌};

use crate::decimal::Decimal;

/// Whether one number is less than another.
pub fn lt(a: &Decimal, b: &Decimal) -> bool
    ensures { IsTrue result ↔ (a.now <ℤ b.now) }
{
    a.ten_thousandths() < b.ten_thousandths()
}

/// Whether one number is at most another.
pub fn le(a: &Decimal, b: &Decimal) -> bool
    ensures { IsTrue result ↔ (a.now ≤ℤ b.now) }
{
    a.ten_thousandths() <= b.ten_thousandths()
}
