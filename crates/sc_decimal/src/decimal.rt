//! The type of decimal numbers.
ghost use Rattle.std.specs.Prelude.{◌≡◌};

use std::marker::Model;

/// A decimal number, by how many ten-thousandths it is.
#[derive(Clone, Copy, Debug, PartialEq, Eq, PartialOrd, Ord)]
pub struct Decimal {
    ten_thousandths: i64,
}

impl Model for Decimal {
    ghost use Rattle.std.specs.Prelude.{ℤ};

    ghost Value = { ℤ };

    ghost view = { λ d. d.ten_thousandths };

    ghost inverse = { λ n. record { ten_thousandths = n } };
}

impl Decimal {
    /// The number of so many ten-thousandths.
    pub fn from_ten_thousandths(ten_thousandths: i64) -> Decimal
        ensures { result ≡ ten_thousandths }
    {
        Decimal { ten_thousandths }
    }

    /// How many ten-thousandths it is.
    pub fn ten_thousandths(self) -> i64
        ensures { result ≡ self }
    {
        self.ten_thousandths
    }
}
