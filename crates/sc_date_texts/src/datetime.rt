//! Reads a datetime from its text.
ghost use Rattle.std.specs.Prelude.{◌≡◌, ℕ, ℤ, IfOk, OnErr, IfSome, IfNone};
ghost use Rattle.std.specs.Result.{result_ok};
ghost use Rattle.sc_date_texts.specs.DatetimeValue.{datetime_of};
ghost use Rattle.sc_date_texts.specs.Moments.{fraction_length};
ghost use Rattle.sc_date_texts.specs.DatetimeText.{IsDateText, IsClockText, IsFractionText, IsOffsetText, IsZoneText};
ghost use Rattle.sc_date_texts.specs.DatetimeText.{IsMomentText, IsDatetimeText};

use crate::form::{fits, four_at, three_at, two_at};
use jiff_core::civil::Date;
use sc_dates::Datetime;
use thiserror::Error;

/// The text stands for no datetime.
#[derive(Clone, Copy, Debug, PartialEq, Eq, Error)]
#[error("not a datetime")]
pub struct BadDatetime;

/// The milliseconds of a day.
const DAY: i64 = 86_400_000;

/// Reads the datetime that a text stands for, as Cedar's `datetime` function does: `YYYY-MM-DD`, which is the start of
/// that day in UTC, or that with `Thh:mm:ss`, perhaps `.SSS`, and then `Z`, `+hhmm` or `-hhmm`, by which the local time
/// is ahead of UTC. The years are 0000 to 9999, the date is one of the proleptic Gregorian calendar (RFC 3339), hours
/// are at most 23, minutes and seconds at most 59. A text that stands for none is `BadDatetime`.
pub fn read_datetime(text: &str) -> Result<Datetime, BadDatetime>
    ensures ok { IfOk result (λ z. IsDatetimeText text.now z) }
    ensures err { OnErr result ((z : ℤ) → IsDatetimeText text.now z → ⊥) }
    ensures value { result_ok result ≡ datetime_of text.now }
    ensures only { (y z : ℤ) → IsDatetimeText text.now y → IsDatetimeText text.now z → y ≡ z }
{
    datetime(text.as_bytes())
        .map(Datetime::from_milliseconds)
        .ok_or(BadDatetime)
}

/// How many milliseconds after 1970-01-01T00:00:00Z a text says.
fn datetime(text: &[u8]) -> Option<i64>
    ensures some { IfSome result (λ z. IsDatetimeText text.now z) }
    ensures none { IfNone result ((z : ℤ) → IsDatetimeText text.now z → ⊥) }
{
    if text.len() < 10 {
        return None;
    }
    let (day, clock) = text.split_at(10);
    let day = date(day)?;
    if clock.is_empty() {
        return Some(day * DAY);
    }
    Some(day * DAY + moment(clock)?)
}

/// The day number of a date.
fn date(text: &[u8]) -> Option<i64>
    ensures some { IfSome result (λ day. IsDateText text.now day) }
    ensures none { IfNone result ((day : ℤ) → IsDateText text.now day → ⊥) }
{
    if !fits(b"####-##-##", text) {
        return None;
    }
    let date = Date::new(
        four_at(text, 0) as i16,
        two_at(text, 5) as i8,
        two_at(text, 8) as i8,
    )
    .ok()?;
    Some(i64::from(date.to_unix_epoch_day()))
}

/// The time of the day in UTC, which may lie outside of the day.
fn moment(text: &[u8]) -> Option<i64>
    ensures some { IfSome result (λ time. IsMomentText text.now time) }
    ensures none { IfNone result ((time : ℤ) → IsMomentText text.now time → ⊥) }
{
    if text.len() < 9 {
        return None;
    }
    let (time, rest) = text.split_at(9);
    let time = clock(time)?;
    let (part, rest) = rest.split_at(fraction_length(rest));
    let milliseconds = fraction(part)?;
    Some(i64::from(time + milliseconds) - zone(rest)?)
}

/// The milliseconds of hours, minutes and seconds.
fn clock(text: &[u8]) -> Option<u32>
    ensures some { IfSome result (λ time. IsClockText text.now time) }
    ensures none { IfNone result ((time : ℕ) → IsClockText text.now time → ⊥) }
{
    if !fits(b"T##:##:##", text) {
        return None;
    }
    let hour = two_at(text, 1);
    let minute = two_at(text, 4);
    let second = two_at(text, 7);
    if hour < 24 && minute < 60 && second < 60 {
        Some(hour * 3_600_000 + minute * 60_000 + second * 1_000)
    } else {
        None
    }
}

/// How long the fraction is that a text begins with: one that has a point in front is as long as a fraction.
fn fraction_length(text: &[u8]) -> usize
    ensures { result ≡ fraction_length text.now }
{
    match text {
        [b'.', _, _, _, ..] => 4,
        _ => 0,
    }
}

/// The milliseconds of a fraction, or of none.
fn fraction(text: &[u8]) -> Option<u32>
    ensures some { IfSome result (λ time. IsFractionText text.now time) }
    ensures none { IfNone result ((time : ℕ) → IsFractionText text.now time → ⊥) }
{
    if text.is_empty() {
        Some(0)
    } else if fits(b".###", text) {
        Some(three_at(text, 1))
    } else {
        None
    }
}

/// How far the clock is ahead, in milliseconds.
fn zone(text: &[u8]) -> Option<i64>
    ensures some { IfSome result (λ ahead. IsZoneText text.now ahead) }
    ensures none { IfNone result ((ahead : ℤ) → IsZoneText text.now ahead → ⊥) }
{
    let (first, rest) = text.split_first()?;
    match *first {
        b'Z' if rest.is_empty() => Some(0),
        b'+' => Some(i64::from(offset(rest)?)),
        b'-' => Some(-i64::from(offset(rest)?)),
        _ => None,
    }
}

/// The milliseconds of hours and minutes.
fn offset(text: &[u8]) -> Option<u32>
    ensures some { IfSome result (λ time. IsOffsetText text.now time) }
    ensures none { IfNone result ((time : ℕ) → IsOffsetText text.now time → ⊥) }
{
    if !fits(b"####", text) {
        return None;
    }
    let hour = two_at(text, 0);
    let minute = two_at(text, 2);
    if hour < 24 && minute < 60 {
        Some(hour * 3_600_000 + minute * 60_000)
    } else {
        None
    }
}
