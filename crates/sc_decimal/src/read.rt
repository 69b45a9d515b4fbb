//! Reads a decimal number from its text.
ghost use Rattle.std.specs.Prelude.{◌≡◌, ℕ, ℤ, ◌<◌, ◌≤◌, ◌^◌, ◌*◌, ◌-◌, length, IfOk, OnErr, IfSome, IfNone};
ghost use Rattle.std.specs.Option.{SomeIff};
ghost use Rattle.std.specs.Result.{result_ok};
ghost use Rattle.std.specs.Str.Parse.{IsNumeral, digits_value};
ghost use Rattle.sc_decimal.specs.DecimalText.{IsMagnitude, IsDecimalText};
ghost use Rattle.sc_decimal.specs.DecimalValue.{decimal_of};

use crate::decimal::Decimal;
use thiserror::Error;

/// The text is no decimal number.
#[derive(Clone, Copy, Debug, PartialEq, Eq, Error)]
#[error("not a decimal number")]
pub struct BadDecimal;

/// Reads the number that a text stands for: an optional `-`, one or more digits, a point and one
/// to four digits, in range of 64 signed bits of ten-thousandths.
pub fn read_decimal(text: &str) -> Result<Decimal, BadDecimal>
    ensures ok { IfOk result (λ d. IsDecimalText text.now d) }
    ensures err { OnErr result ((d : ℤ) → IsDecimalText text.now d → ⊥) }
    ensures value { result_ok result ≡ decimal_of text.now }
    ensures only { (c d : ℤ) → IsDecimalText text.now c → IsDecimalText text.now d → c ≡ d }
{
    signed(text)
        .map(Decimal::from_ten_thousandths)
        .ok_or(BadDecimal)
}

/// How many ten-thousandths a text stands for.
fn signed(text: &str) -> Option<i64>
    ensures some { IfSome result (λ z. IsDecimalText text.now z) }
    ensures none { IfNone result ((z : ℤ) → IsDecimalText text.now z → ⊥) }
{
    match text.strip_prefix('-') {
        Some(rest) => 0_i64.checked_sub_unsigned(magnitude(rest)?),
        None => 0_i64.checked_add_unsigned(magnitude(text)?),
    }
}

/// How many ten-thousandths a text without a sign stands for.
fn magnitude(text: &str) -> Option<u64>
    ensures some { IfSome result (λ n. IsMagnitude text.now n) }
    ensures none { IfNone result ((n : ℕ) → n < 2 ^ 64 → IsMagnitude text.now n → ⊥) }
{
    let (whole, fraction) = text.split_once('.')?;
    let whole = number(whole)?.checked_mul(10_000)?;
    whole.checked_add(ten_thousandths(fraction)?)
}

/// How many ten-thousandths the digits behind a point stand for.
fn ten_thousandths(fraction: &str) -> Option<u64>
    ensures { SomeIff result (IsNumeral 10 fraction.now
        × (length fraction.now ≤ 4)) (digits_value 10 fraction.now * 10 ^ (4 - length fraction.now)) }
{
    if fraction.len() > 4 {
        return None;
    }
    Some(number(fraction)? * 10_u64.pow(4 - fraction.len() as u32))
}

/// The number that a text of digits alone stands for.
fn number(digits: &str) -> Option<u64>
    ensures { SomeIff result (IsNumeral 10 digits.now
        × (digits_value 10 digits.now < 2 ^ 64)) (digits_value 10 digits.now) }
{
    if digits.starts_with('+') {
        return None;
    }
    digits.parse().ok()
}
