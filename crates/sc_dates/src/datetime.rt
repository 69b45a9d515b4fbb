//! The type of datetimes.
ghost use Rattle.std.specs.Prelude.{◌≡◌, ◌↔◌, IsTrue, FitsSigned, ◌+ℤ◌, ◌-ℤ◌, ◌<ℤ◌, ◌≤ℤ◌};
ghost use Rattle.std.specs.Int.{w64};
ghost use Rattle.std.specs.Option.{SomeIff};
ghost use Rattle.sc_dates.specs.Days.{start_of, time_of};

use crate::duration::Duration;
use std::marker::Model;

/// The milliseconds of a day.
const DAY: i64 = 86_400_000;

/// A moment, by how many milliseconds it is after 1970-01-01T00:00:00Z, or before it where the number is negative.
/// There are no leap seconds: each day has 86,400,000 milliseconds.
#[derive(Clone, Copy, Debug, PartialEq, Eq, PartialOrd, Ord)]
pub struct Datetime {
    milliseconds: i64,
}

impl Model for Datetime {
    ghost use Rattle.std.specs.Prelude.{ℤ};

    ghost Value = { ℤ };

    ghost view = { λ t. t.milliseconds };

    ghost inverse = { λ n. record { milliseconds = n } };
}

impl Datetime {
    /// The datetime of so many milliseconds.
    pub fn from_milliseconds(milliseconds: i64) -> Datetime
        ensures { result ≡ milliseconds }
    {
        Datetime { milliseconds }
    }

    /// How many milliseconds it is after 1970-01-01T00:00:00Z.
    pub fn milliseconds(self) -> i64
        ensures { result ≡ self }
    {
        self.milliseconds
    }

    /// The datetime that is later by a duration, or earlier where the duration is negative: Cedar's `offset`. None
    /// where that leaves 64 bits.
    pub fn offset(self, duration: Duration) -> Option<Datetime>
        ensures { SomeIff result (FitsSigned w64 (self +ℤ duration)) (self +ℤ duration) }
    {
        let later = self.milliseconds.checked_add(duration.milliseconds())?;
        Some(Datetime::from_milliseconds(later))
    }

    /// How much later it is than another, negative where it is earlier: Cedar's `durationSince`. None where that leaves
    /// 64 bits.
    pub fn duration_since(self, earlier: Datetime) -> Option<Duration>
        ensures { SomeIff result (FitsSigned w64 (self -ℤ earlier)) (self -ℤ earlier) }
    {
        let passed = self.milliseconds.checked_sub(earlier.milliseconds)?;
        Some(Duration::from_milliseconds(passed))
    }

    /// The start of its day in UTC: Cedar's `toDate`. None on the first day that 64 bits reach, which begins before
    /// their least number.
    pub fn to_date(self) -> Option<Datetime>
        ensures { SomeIff result (FitsSigned w64 (start_of self)) (start_of self) }
    {
        let start = self
            .milliseconds
            .checked_sub(self.milliseconds.rem_euclid(DAY))?;
        Some(Datetime::from_milliseconds(start))
    }

    /// How long after the start of its day in UTC it is, from 0 to 86,399,999: Cedar's `toTime`.
    pub fn to_time(self) -> Duration
        ensures { result ≡ time_of self }
    {
        Duration::from_milliseconds(self.milliseconds.rem_euclid(DAY))
    }

    /// Whether it is before another.
    pub fn is_before(self, other: Datetime) -> bool
        ensures { IsTrue result ↔ (self <ℤ other) }
    {
        self.milliseconds < other.milliseconds
    }

    /// Whether it is before another or the same.
    pub fn is_at_most(self, other: Datetime) -> bool
        ensures { IsTrue result ↔ (self ≤ℤ other) }
    {
        self.milliseconds <= other.milliseconds
    }
}
