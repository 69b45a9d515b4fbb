//! Which texts are read as which datetimes and durations.
use sc_date_texts::{read_datetime, read_duration};

/// Whether a text is a duration of so many milliseconds.
fn lasts(text: &str, milliseconds: i64) -> bool {
    match read_duration(text) {
        Ok(duration) => duration.milliseconds() == milliseconds,
        Err(_) => false,
    }
}

/// Whether a text is the datetime of so many milliseconds.
fn stands_for(text: &str, milliseconds: i64) -> bool {
    match read_datetime(text) {
        Ok(datetime) => datetime.milliseconds() == milliseconds,
        Err(_) => false,
    }
}

#[test]
fn reads_each_unit(rt: HostRuntime) {
    assert!(rt; lasts("1d2h3m4s5ms", 93_784_005));
    assert!(rt; lasts("5ms", 5) && lasts("5m", 300_000) && lasts("3s5ms", 3_005));
    assert!(rt; lasts("007h", 25_200_000) && lasts("-0d", 0) && lasts("-1d12h", -129_600_000));
}

#[test]
fn reads_durations_at_the_ends(rt: HostRuntime) {
    assert!(rt;
        lasts("-9223372036854775808ms", i64::MIN) && lasts("9223372036854775807ms", i64::MAX)
    );
    assert!(rt; lasts("-106751991167d7h12m55s808ms", i64::MIN));
    assert!(rt; read_duration("9223372036854775808ms").is_err());
    assert!(rt; read_duration("-9223372036854775809ms").is_err());
    assert!(rt; read_duration("106751991168d").is_err());
    assert!(rt; read_duration("99999999999999999999d").is_err());
    assert!(rt; lasts("0000000000000000000000001d", 86_400_000));
}

/// Texts that are no durations: units out of order or twice, none at all, signs, spaces, letters in upper case.
const NO_DURATIONS: &[&str] = &[
    "2h1d", "1d1d", "1ms1s", "", "-", "1", "d", "1d2", "+1d", "--1d", "-1d-1h", "1 d", " 1d", "1D",
    "5mss", "1.5h",
];

#[test]
fn reads_no_other_durations(rt: HostRuntime) {
    for &text in NO_DURATIONS {
        assert!(rt; read_duration(text).is_err(), "{text}");
    }
}

#[test]
fn reads_dates(rt: HostRuntime) {
    assert!(rt; stands_for("1970-01-02", 86_400_000));
    assert!(rt; stands_for("1970-01-01T00:00:00Z", 0));
    assert!(rt; stands_for("1969-12-31T23:59:59.999Z", -1));
}

#[test]
fn reads_leap_days(rt: HostRuntime) {
    assert!(rt;
        stands_for("2024-02-29", 1_709_164_800_000) && stands_for("2000-02-29", 951_782_400_000)
    );
    assert!(rt; stands_for("0000-02-29", -62_162_121_600_000));
    assert!(rt; read_datetime("2024-02-30").is_err() && read_datetime("2023-02-29").is_err());
    assert!(rt; read_datetime("1900-02-29").is_err() && read_datetime("2100-02-29").is_err());
}

#[test]
fn reads_the_first_and_the_last_year(rt: HostRuntime) {
    assert!(rt; stands_for("0000-01-01", -62_167_219_200_000));
    assert!(rt; stands_for("9999-12-31T23:59:59.999Z", 253_402_300_799_999));
}

#[test]
fn takes_offsets_over_midnight(rt: HostRuntime) {
    assert!(rt; stands_for("1970-01-01T00:00:00+0100", -3_600_000));
    assert!(rt; stands_for("1970-01-01T23:30:00-0100", 88_200_000));
    assert!(rt; stands_for("2024-02-29T12:34:56.789+2359", 1_709_123_756_789));
    assert!(rt;
        stands_for("1970-01-01T00:00:00-0000", 0) && stands_for("1970-01-01T00:00:00+0000", 0)
    );
    assert!(rt; stands_for("0000-01-01T00:00:00.000+2359", -62_167_305_540_000));
    assert!(rt; stands_for("9999-12-31T23:59:59.999-2359", 253_402_387_139_999));
}

/// Texts that are no datetimes: parts that are missing, too short or too long, numbers out of range, other letters.
const NO_DATETIMES: &[&str] = &[
    "",
    "1970",
    "1970-1-1",
    "-001-01-01",
    "10000-01-01",
    "1970-00-01",
    "1970-13-01",
    "1970-01-00",
    "1970-04-31",
    "1970/01/01",
    "1970-01-01T",
    "1970-01-01 00:00:00Z",
    "1970-01-01t00:00:00Z",
    "1970-01-01T00:00Z",
    "1970-01-01T00:00:00",
    "1970-01-01T24:00:00Z",
    "1970-01-01T00:60:00Z",
    "1970-01-01T00:00:60Z",
    "1970-01-01T00:00:00.1Z",
    "1970-01-01T00:00:00.1234Z",
    "1970-01-01T00:00:00,123Z",
    "1970-01-01T00:00:00z",
    "1970-01-01T00:00:00ZZ",
    "1970-01-01T00:00:00+01",
    "1970-01-01T00:00:00+01:00",
    "1970-01-01T00:00:00+2400",
    "1970-01-01T00:00:00-0060",
    "1970-01-01Z",
    "1970-01-01+0100",
    " 1970-01-01",
    "1970-01-01 ",
    "ms:0",
];

#[test]
fn reads_no_other_datetimes(rt: HostRuntime) {
    for &text in NO_DATETIMES {
        assert!(rt; read_datetime(text).is_err(), "{text}");
    }
}
