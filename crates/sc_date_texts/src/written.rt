//! Writes a datetime.
ghost use Rattle.std.specs.Prelude.{◌≡◌, ℕ, ◌<◌, ◌++◌, pos, ◌≤ℤ◌, unsigned_abs, IfOk, IfSome, IfNone, string_bytes};
ghost use Rattle.std.specs.Int.{int_rem_euclid};
ghost use Rattle.sc_date_texts.specs.DatetimeText.{IsDatetimeText};
ghost use Rattle.sc_date_texts.specs.Written.{date_text, moment_text, IsCivil, IsInYears, IsWritten};

use jiff_core::civil::Date;
use sc_dates::Datetime;
use std::alloc::{AllocError, Global};

/// The milliseconds of a day.
const DAY: i64 = 86_400_000;

/// The text of a datetime: `YYYY-MM-DDThh:mm:ss.SSSZ` in UTC in the years 0000 to 9999, else `ms:` and how many
/// milliseconds after 1970-01-01T00:00:00Z it is. Reading the first gives the datetime.
pub fn write_datetime(alloc: Global, t: &Datetime) -> Result<String, AllocError>
    ensures text { IfOk result (λ s. IsWritten t.now (string_bytes s)) }
    ensures reads_back { (year month day time : ℕ) → IsCivil t.now year month day time
        → IfOk result (λ s. IsDatetimeText (string_bytes s) t.now) }
    ensures in_years { IsInYears t.now → IfOk result (λ s. IsDatetimeText (string_bytes s) t.now) }
{
    write_milliseconds(alloc, t.milliseconds())
}

/// The text of the datetime that is so many milliseconds after 1970-01-01T00:00:00Z.
fn write_milliseconds(alloc: Global, milliseconds: i64) -> Result<String, AllocError>
    ensures text { IfOk result (λ s. IsWritten milliseconds (string_bytes s)) }
    ensures reads_back { (year month day time : ℕ) → IsCivil milliseconds year month day time
        → IfOk result (λ s. IsDatetimeText (string_bytes s) milliseconds) }
    ensures in_years { IsInYears milliseconds → IfOk result (λ s. IsDatetimeText (string_bytes s) milliseconds) }
{
    match civil_date(milliseconds) {
        Some(date) => write_civil(alloc, date, milliseconds.rem_euclid(DAY) as u32),
        None => format!(in alloc; "ms:{milliseconds}"),
    }
}

/// The date of a number of milliseconds, if it is in the years 0 to 9999.
fn civil_date(milliseconds: i64) -> Option<Date>
    ensures some { IfSome result (λ date. IsCivil milliseconds (unsigned_abs date.year) date.month date.day
        (unsigned_abs (int_rem_euclid milliseconds (pos 86400000)))) }
    ensures year { IfSome result (λ date. pos (unsigned_abs date.year) ≡ date.year) }
    ensures none { IfNone result ((year month day time : ℕ) → IsCivil milliseconds year month day time → ⊥) }
    ensures out { IfNone result (IsInYears milliseconds → ⊥) }
{
    let date = Date::from_unix_epoch_day(milliseconds.div_euclid(DAY)).ok()?;
    if date.year < 0 { None } else { Some(date) }
}

/// A date and a time of the day.
fn write_civil(alloc: Global, date: Date, time: u32) -> Result<String, AllocError>
    requires year { pos 0 ≤ℤ date.year }
    requires time { time < 86400000 }
    ensures { IfOk result (λ s. string_bytes s
        ≡ date_text (unsigned_abs date.year) date.month date.day ++ moment_text time) }
{
    let mut text = write_date(alloc, date)?;
    let moment = write_moment(alloc, time)?;
    text.push_str(&moment)?;
    Ok(text)
}

/// A date of the years 0 to 9999.
fn write_date(alloc: Global, date: Date) -> Result<String, AllocError>
    requires { pos 0 ≤ℤ date.year }
    ensures { IfOk result (λ s. string_bytes s ≡ date_text (unsigned_abs date.year) date.month date.day) }
{
    let year = date.year as u16;
    let month = date.month;
    let day = date.day;
    format!(in alloc; "{year:04}-{month:02}-{day:02}")
}

/// A time of the day, from `T` to `Z`.
fn write_moment(alloc: Global, time: u32) -> Result<String, AllocError>
    requires { time < 86400000 }
    ensures { IfOk result (λ s. string_bytes s ≡ moment_text time) }
{
    let hour = time / 3_600_000;
    let minute = time / 60_000 % 60;
    let second = time / 1_000 % 60;
    let millisecond = time % 1_000;
    format!(in alloc; "T{hour:02}:{minute:02}:{second:02}.{millisecond:03}Z")
}
