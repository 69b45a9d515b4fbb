//! The type of durations.
ghost use Rattle.std.specs.Prelude.{◌≡◌, ◌↔◌, IsTrue, pos, int_div, ◌<ℤ◌, ◌≤ℤ◌};

use std::marker::Model;

/// A length of time in milliseconds, which may be negative.
#[derive(Clone, Copy, Debug, PartialEq, Eq, PartialOrd, Ord)]
pub struct Duration {
    milliseconds: i64,
}

impl Model for Duration {
    ghost use Rattle.std.specs.Prelude.{ℤ};

    ghost Value = { ℤ };

    ghost view = { λ d. d.milliseconds };

    ghost inverse = { λ n. record { milliseconds = n } };
}

impl Duration {
    /// The duration of so many milliseconds.
    pub fn from_milliseconds(milliseconds: i64) -> Duration
        ensures { result ≡ milliseconds }
    {
        Duration { milliseconds }
    }

    /// How many milliseconds it lasts: Cedar's `toMilliseconds`.
    pub fn milliseconds(self) -> i64
        ensures { result ≡ self }
    {
        self.milliseconds
    }

    /// How many whole seconds it lasts, rounded toward zero: Cedar's `toSeconds`.
    pub fn seconds(self) -> i64
        ensures { result ≡ int_div self (pos 1000) }
    {
        self.milliseconds / 1_000
    }

    /// How many whole minutes it lasts, rounded toward zero: Cedar's `toMinutes`.
    pub fn minutes(self) -> i64
        ensures { result ≡ int_div self (pos 60000) }
    {
        self.milliseconds / 60_000
    }

    /// How many whole hours it lasts, rounded toward zero: Cedar's `toHours`.
    pub fn hours(self) -> i64
        ensures { result ≡ int_div self (pos 3600000) }
    {
        self.milliseconds / 3_600_000
    }

    /// How many whole days it lasts, rounded toward zero: Cedar's `toDays`.
    pub fn days(self) -> i64
        ensures { result ≡ int_div self (pos 86400000) }
    {
        self.milliseconds / 86_400_000
    }

    /// Whether it is less than another.
    pub fn is_less(self, other: Duration) -> bool
        ensures { IsTrue result ↔ (self <ℤ other) }
    {
        self.milliseconds < other.milliseconds
    }

    /// Whether it is at most another.
    pub fn is_at_most(self, other: Duration) -> bool
        ensures { IsTrue result ↔ (self ≤ℤ other) }
    {
        self.milliseconds <= other.milliseconds
    }
}
