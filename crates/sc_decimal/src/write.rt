//! Writes a decimal number as text.
ghost use Rattle.std.specs.Prelude.{◌≡◌, ◌++◌, IfOk, string_bytes};
ghost use Rattle.sc_decimal.specs.DecimalText.{IsDecimalText, decimal_text, magnitude_text};

use crate::decimal::Decimal;
use std::alloc::{AllocError, Global};

/// The text of a number, with exactly four digits behind the point. Reading it gives the number.
pub fn write_decimal(alloc: Global, d: &Decimal) -> Result<String, AllocError>
    ensures text { IfOk result (λ s. string_bytes s ≡ decimal_text d.now) }
    ensures reads_back { IfOk result (λ s. IsDecimalText (string_bytes s) d.now) }
{
    let n = d.ten_thousandths();
    if n < 0 {
        write_signed(alloc, "-", n.unsigned_abs())
    } else {
        write_signed(alloc, "", n.unsigned_abs())
    }
}

/// A sign, and so many ten-thousandths.
fn write_signed(alloc: Global, sign: &str, magnitude: u64) -> Result<String, AllocError>
    ensures { IfOk result (λ s. string_bytes s ≡ sign.now ++ magnitude_text magnitude) }
{
    let whole = magnitude / 10_000;
    let fraction = magnitude % 10_000;
    format!(in alloc; "{sign}{whole}.{fraction:04}")
}
