//! The units of a duration.
ghost use Rattle.std.specs.Prelude.{◌≡◌};
ghost use Rattle.sc_date_texts.specs.Units.{word_of, milliseconds_of};

/// A unit of time, from the largest on.
#[derive(Clone, Copy, Debug, PartialEq, Eq)]
pub enum Unit {
    Day,
    Hour,
    Minute,
    Second,
    Millisecond,
}

/// The letters behind the digits.
pub fn word(unit: Unit) -> &'static [u8]
    ensures { result.now ≡ word_of unit }
{
    match unit {
        Unit::Day => b"d",
        Unit::Hour => b"h",
        Unit::Minute => b"m",
        Unit::Second => b"s",
        Unit::Millisecond => b"ms",
    }
}

/// How many milliseconds one of it is.
pub fn milliseconds(unit: Unit) -> u64
    ensures { result ≡ milliseconds_of unit }
{
    match unit {
        Unit::Day => 86_400_000,
        Unit::Hour => 3_600_000,
        Unit::Minute => 60_000,
        Unit::Second => 1_000,
        Unit::Millisecond => 1,
    }
}
