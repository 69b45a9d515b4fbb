//! What is written of datetimes and durations, and that it reads back.
use sc_date_texts::{read_datetime, read_duration, write_datetime, write_duration};
use sc_dates::{Datetime, Duration};
use std::alloc::{AllocError, Global};
use std::test::Fail;

/// Whether this text is written of the datetime of so many milliseconds.
fn is_written(alloc: Global, milliseconds: i64, text: &str) -> Result<bool, AllocError> {
    let datetime = Datetime::from_milliseconds(milliseconds);
    Ok(write_datetime(alloc, &datetime)?.as_str() == text)
}

/// Whether what is written of a datetime reads as it.
fn reads_back(alloc: Global, milliseconds: i64) -> Result<bool, AllocError> {
    let text = write_datetime(alloc, &Datetime::from_milliseconds(milliseconds))?;
    Ok(match read_datetime(&text) {
        Ok(datetime) => datetime.milliseconds() == milliseconds,
        Err(_) => false,
    })
}

/// Whether what is written of a duration reads as it.
fn lasts_as_long(alloc: Global, milliseconds: i64) -> Result<bool, AllocError> {
    let text = write_duration(alloc, &Duration::from_milliseconds(milliseconds))?;
    Ok(match read_duration(&text) {
        Ok(duration) => duration.milliseconds() == milliseconds,
        Err(_) => false,
    })
}

#[test]
fn writes_all_parts_of_a_datetime(rt: HostRuntime) -> Result<(), Fail> {
    assert!(rt; is_written(rt.alloc(), 0, "1970-01-01T00:00:00.000Z")?);
    assert!(rt; is_written(rt.alloc(), -1, "1969-12-31T23:59:59.999Z")?);
    assert!(rt; is_written(rt.alloc(), 1_709_210_096_789, "2024-02-29T12:34:56.789Z")?);
    Ok(())
}

#[test]
fn writes_the_first_and_the_last_year(rt: HostRuntime) -> Result<(), Fail> {
    assert!(rt; is_written(rt.alloc(), -62_167_219_200_000, "0000-01-01T00:00:00.000Z")?);
    assert!(rt; is_written(rt.alloc(), 253_402_300_799_999, "9999-12-31T23:59:59.999Z")?);
    assert!(rt; reads_back(rt.alloc(), -62_167_219_200_000)?);
    assert!(rt; reads_back(rt.alloc(), 253_402_300_799_999)?);
    Ok(())
}

#[test]
fn writes_other_years_as_milliseconds(rt: HostRuntime) -> Result<(), Fail> {
    assert!(rt; is_written(rt.alloc(), -62_167_219_200_001, "ms:-62167219200001")?);
    assert!(rt; is_written(rt.alloc(), 253_402_300_800_000, "ms:253402300800000")?);
    assert!(rt; is_written(rt.alloc(), i64::MIN, "ms:-9223372036854775808")?);
    assert!(rt; is_written(rt.alloc(), i64::MAX, "ms:9223372036854775807")?);
    assert!(rt; !reads_back(rt.alloc(), i64::MAX)?);
    Ok(())
}

#[test]
fn durations_read_back(rt: HostRuntime) -> Result<(), Fail> {
    assert_eq!(rt;
        write_duration(rt.alloc(), &Duration::from_milliseconds(-5))?.as_str(),
        "-5ms"
    );
    assert!(rt; lasts_as_long(rt.alloc(), i64::MIN)? && lasts_as_long(rt.alloc(), i64::MAX)?);
    assert!(rt; lasts_as_long(rt.alloc(), 0)?);
    Ok(())
}
