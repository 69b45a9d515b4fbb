//! Reads a duration from its text, and writes it.
ghost use Rattle.std.specs.Prelude.{◌≡◌, ℕ, ℤ, ◌<◌, ◌^◌, IfOk, OnErr, IfSome, IfNone, IsTrue, ◌↔◌, length, string_bytes};
ghost use Rattle.sc_date_texts.specs.DurationText.{duration_text, IsParts, IsMagnitude, IsDurationText};
ghost use Rattle.std.specs.Result.{result_ok};
ghost use Rattle.sc_date_texts.specs.DurationValue.{duration_of};
ghost use Rattle.sc_date_texts.specs.Units.{word_of};
ghost use Rattle.sc_date_texts.specs.Apart.{AreApart};

use crate::front::{front, number};
use crate::unit::{Unit, milliseconds, word};
use sc_dates::Duration;
use std::alloc::{AllocError, Global};
use thiserror::Error;

/// The text stands for no duration.
#[derive(Clone, Copy, Debug, PartialEq, Eq, Error)]
#[error("not a duration")]
pub struct BadDuration;

/// The units that may stand in a text, in this order.
const UNITS: [Unit; 5] = [
    Unit::Day,
    Unit::Hour,
    Unit::Minute,
    Unit::Second,
    Unit::Millisecond,
];

/// Reads the duration that a text stands for, as Cedar's `duration` function does: perhaps a `-`, and then, in this
/// order, each at most once and at least one of them, digits with `d`, `h`, `m`, `s` and `ms`. There may be any number
/// of digits; only the sum has to be in range of 64 signed bits of milliseconds. A text that stands for none is
/// `BadDuration`.
pub fn read_duration(text: &str) -> Result<Duration, BadDuration>
    ensures ok { IfOk result (λ z. IsDurationText text.now z) }
    ensures err { OnErr result ((z : ℤ) → IsDurationText text.now z → ⊥) }
    ensures value { result_ok result ≡ duration_of text.now }
    ensures only { (y z : ℤ) → IsDurationText text.now y → IsDurationText text.now z → y ≡ z }
{
    signed(text)
        .map(Duration::from_milliseconds)
        .ok_or(BadDuration)
}

/// How many milliseconds a text stands for.
fn signed(text: &str) -> Option<i64>
    ensures some { IfSome result (λ z. IsDurationText text.now z) }
    ensures none { IfNone result ((z : ℤ) → IsDurationText text.now z → ⊥) }
{
    match text.strip_prefix('-') {
        Some(rest) => 0_i64.checked_sub_unsigned(magnitude(rest)?),
        None => 0_i64.checked_add_unsigned(magnitude(text)?),
    }
}

/// How many milliseconds a text without a sign stands for.
fn magnitude(text: &str) -> Option<u64>
    ensures some { IfSome result (λ n. IsMagnitude text.now n) }
    ensures none { IfNone result ((n : ℕ) → n < 2 ^ 64 → IsMagnitude text.now n → ⊥) }
{
    if text.is_empty() {
        return None;
    }
    parts(text.as_bytes(), &UNITS)
}

/// How many milliseconds the parts of a text are together.
#[tactic(auto, using(crate::proofs::StepLaws::no_units))]
fn parts(text: &[u8], units: &[Unit]) -> Option<u64>
    requires { AreApart units.now }
    ensures some { IfSome result (λ n. IsParts units.now text.now n) }
    ensures none { IfNone result ((n : ℕ) → n < 2 ^ 64 → IsParts units.now text.now n → ⊥) }
{
    let Some((unit, smaller)) = units.split_first() else {
        return if text.is_empty() { Some(0) } else { None };
    };
    let (digits, letters, rest) = front(text);
    if !is_part(digits, letters, *unit) {
        return parts(text, smaller);
    }
    let here = number(digits)?.checked_mul(milliseconds(*unit))?;
    here.checked_add(parts(rest, smaller)?)
}

/// Whether digits and the word behind them are a part of this unit.
fn is_part(digits: &[u8], letters: &[u8], unit: Unit) -> bool
    ensures { IsTrue result ↔ ((0 < length digits.now) × (letters.now ≡ word_of unit)) }
{
    !digits.is_empty() && letters == word(unit)
}

/// The text of a duration: its milliseconds and `ms`. Reading it gives the duration.
pub fn write_duration(alloc: Global, d: &Duration) -> Result<String, AllocError>
    ensures text { IfOk result (λ s. string_bytes s ≡ duration_text d.now) }
    ensures reads_back { IfOk result (λ s. IsDurationText (string_bytes s) d.now) }
{
    let milliseconds = d.milliseconds();
    format!(in alloc; "{milliseconds}ms")
}
