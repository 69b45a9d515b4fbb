//! Tests of decimal numbers: texts that are read and written, and their order.
use sc_decimal::{Decimal, le, lt, read_decimal, write_decimal};
use std::alloc::{AllocError, Global};
use std::test::Fail;

/// Whether a text stands for so many ten thousandths.
fn stands_for(text: &str, ten_thousandths: i64) -> bool {
    match read_decimal(text) {
        Ok(number) => number.ten_thousandths() == ten_thousandths,
        Err(_) => false,
    }
}

#[test]
fn reads_each_part(rt: HostRuntime) {
    assert!(rt; stands_for("1.23", 12_300));
    assert!(rt; stands_for("-0012.0005", -120_005));
    assert!(rt; stands_for("-0.0", 0));
}

#[test]
fn reads_the_least_and_the_greatest(rt: HostRuntime) {
    assert!(rt; stands_for("-922337203685477.5808", i64::MIN));
    assert!(rt; stands_for("922337203685477.5807", i64::MAX));
    assert!(rt; read_decimal("-922337203685477.5809").is_err());
    assert!(rt; read_decimal("922337203685477.5808").is_err());
    assert!(rt; read_decimal("99999999999999999999.0").is_err());
}

/// Texts that are no decimal numbers.
const NO_DECIMALS: &[&str] = &[
    "1.", "1.00000", "1", ".5", "+1.5", "1.+5", "--1.5", "1.5.5", "",
];

#[test]
fn reads_nothing_else(rt: HostRuntime) {
    for &text in NO_DECIMALS {
        assert!(rt; read_decimal(text).is_err(), "{text}");
    }
}

/// Whether this is what is written of so many ten thousandths.
fn is_written(alloc: Global, ten_thousandths: i64, text: &str) -> Result<bool, AllocError> {
    let number = Decimal::from_ten_thousandths(ten_thousandths);
    Ok(write_decimal(alloc, &number)?.as_str() == text)
}

#[test]
fn writes_four_digits(rt: HostRuntime) -> Result<(), Fail> {
    assert!(rt; is_written(rt.alloc(), 12_300, "1.2300")?);
    assert!(rt; is_written(rt.alloc(), -5, "-0.0005")?);
    assert!(rt; is_written(rt.alloc(), i64::MIN, "-922337203685477.5808")?);
    Ok(())
}

#[test]
fn compares_by_size(rt: HostRuntime) {
    let less = Decimal::from_ten_thousandths(-1);
    let more = Decimal::from_ten_thousandths(1);
    assert!(rt; lt(&less, &more));
    assert!(rt; !lt(&more, &more));
    assert!(rt; le(&more, &more));
    assert!(rt; !le(&more, &less));
}
