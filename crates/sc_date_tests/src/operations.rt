//! What is computed of datetimes and durations, at both ends of 64 bits too.
use sc_dates::{Datetime, Duration};

/// The datetime of so many milliseconds.
fn at(milliseconds: i64) -> Datetime {
    Datetime::from_milliseconds(milliseconds)
}

/// The duration of so many milliseconds.
fn lasting(milliseconds: i64) -> Duration {
    Duration::from_milliseconds(milliseconds)
}

/// Whether a datetime is there, of so many milliseconds.
fn is_at(found: Option<Datetime>, milliseconds: i64) -> bool {
    match found {
        Some(datetime) => datetime.milliseconds() == milliseconds,
        None => false,
    }
}

/// Whether a duration is there, of so many milliseconds.
fn is_lasting(found: Option<Duration>, milliseconds: i64) -> bool {
    match found {
        Some(duration) => duration.milliseconds() == milliseconds,
        None => false,
    }
}

#[test]
fn offsets_stay_in_64_bits(rt: HostRuntime) {
    assert!(rt; is_at(at(5).offset(lasting(-7)), -2));
    assert!(rt; is_at(at(i64::MAX).offset(lasting(i64::MIN)), -1));
    assert!(rt; at(i64::MAX).offset(lasting(1)).is_none());
    assert!(rt; at(i64::MIN).offset(lasting(-1)).is_none());
}

#[test]
fn differences_stay_in_64_bits(rt: HostRuntime) {
    assert!(rt; is_lasting(at(5).duration_since(at(7)), -2));
    assert!(rt; is_lasting(at(-1).duration_since(at(i64::MIN)), i64::MAX));
    assert!(rt; at(0).duration_since(at(i64::MIN)).is_none());
    assert!(rt; at(i64::MIN).duration_since(at(1)).is_none());
}

#[test]
fn days_begin_at_midnight(rt: HostRuntime) {
    assert!(rt;
        is_at(at(-1).to_date(), -86_400_000) && at(-1).to_time().milliseconds() == 86_399_999
    );
    assert!(rt; is_at(at(0).to_date(), 0) && at(0).to_time().milliseconds() == 0);
    assert!(rt;
        is_at(at(86_400_001).to_date(), 86_400_000) && at(86_400_001).to_time().milliseconds() == 1
    );
    assert!(rt; is_at(at(i64::MAX).to_date(), 9_223_372_036_828_800_000));
}

#[test]
fn the_first_day_has_no_start(rt: HostRuntime) {
    assert!(rt; at(i64::MIN).to_date().is_none());
    assert!(rt; at(-9_223_372_036_828_800_001).to_date().is_none());
    assert!(rt;
        is_at(
            at(-9_223_372_036_828_800_000).to_date(),
            -9_223_372_036_828_800_000
        )
    );
    assert!(rt; at(i64::MIN).to_time().milliseconds() == 60_424_192);
}

#[test]
fn units_are_rounded_toward_zero(rt: HostRuntime) {
    let long = lasting(93_784_005);
    assert!(rt;
        long.days() == 1
            && long.hours() == 26
            && long.minutes() == 1_563
            && long.seconds() == 93_784
    );
    let back = lasting(-93_784_005);
    assert!(rt;
        back.days() == -1
            && back.hours() == -26
            && back.minutes() == -1_563
            && back.seconds() == -93_784
    );
    assert!(rt; lasting(i64::MIN).days() == -106_751_991_167);
}

#[test]
fn compares_by_milliseconds(rt: HostRuntime) {
    assert!(rt; at(-1).is_before(at(0)) && !at(0).is_before(at(0)) && at(0).is_at_most(at(0)));
    assert!(rt; lasting(-1).is_less(lasting(0)) && !lasting(0).is_less(lasting(0)));
    assert!(rt; lasting(0).is_at_most(lasting(0)) && !lasting(1).is_at_most(lasting(0)));
}
