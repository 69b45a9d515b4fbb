//! Questions about decimal numbers.
use crate::questions::{all_fail, all_hold};
use sc_test_runs::schemas::{FULL, PRICED};
use std::test::Fail;

/// Questions that hold, where there are values of many kinds: the question, and its conditions.
const HOLD_FULL: &str = r#"
always-allows; decimal("1.10") == decimal("1.1")
"#;

/// Questions that hold, where there are two numbers: the question, and its conditions.
const HOLD_PRICED: &str = r#"
equivalent --against a; context.price.lessThan(decimal("1.0")); context.price.lessThanOrEqual(decimal("0.9999"))
always-denies; context.price.greaterThan(context.limit) && context.limit.greaterThanOrEqual(context.price)
always-denies; context.price.lessThan(context.limit) && context.limit.lessThan(context.price)
implies --against a; context.price == context.limit; context.price.lessThanOrEqual(context.limit)
always-denies; decimal("0.0").lessThan(context.price) && context.price.lessThan(context.limit) && context.limit.lessThan(decimal("0.0002"))
"#;

#[test]
fn what_holds_of_decimals(rt: HostRuntime) -> Result<(), Fail> {
    all_hold(&rt, rt.alloc(), FULL, HOLD_FULL)?;
    all_hold(&rt, rt.alloc(), PRICED, HOLD_PRICED)
}

/// Questions that don't hold: the question, its conditions, and words of the counterexample.
const FAIL: &str = r#"
always-allows; context.price.lessThanOrEqual(decimal("922337203685477.5806"));; "price":{"__extn":{"arg":"922337203685477.5807","fn":"decimal"}}
always-denies; context.price == decimal("-0.5");; "price":{"__extn":{"arg":"-0.5000","fn":"decimal"}}
implies --against a; context.price.lessThanOrEqual(context.limit); context.price.lessThan(context.limit)
"#;

#[test]
fn what_fails_of_decimals(rt: HostRuntime) -> Result<(), Fail> {
    all_fail(&rt, rt.alloc(), PRICED, FAIL)
}
