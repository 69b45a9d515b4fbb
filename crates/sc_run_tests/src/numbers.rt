//! Questions about numbers of 64 bits, overflow included.
use crate::questions::{all_fail, all_hold};
use sc_test_runs::schemas::FULL;
use std::test::Fail;

/// Questions that hold: the question, and its conditions.
const HOLD: &str = r#"
never-errors; false && context.n + 1 == 0
never-errors; context.n < 100 && -100 < context.n && context.n + context.n < 1000
always-denies; principal.age < context.n && context.n < principal.age
equivalent --against a; context.n + 1 == 5; context.n == 4
equivalent --against a; -context.n == 5; context.n == -5
equivalent --against a; 5 < context.n; 6 <= context.n
equivalent --against a; context.n > 5; !(context.n <= 5)
implies --against a; context.n - 1 == principal.age; principal.age < context.n
"#;

#[test]
fn what_holds_of_numbers(rt: HostRuntime) -> Result<(), Fail> {
    all_hold(&rt, rt.alloc(), FULL, HOLD)
}

/// Questions that don't hold: the question, its conditions, and words of the counterexample.
const FAIL: &str = r#"
never-errors; -context.n < 0 || true;; "n":-9223372036854775808,
always-allows; context.n + 1 > context.n;; "n":9223372036854775807,
always-allows; context.n - 1 < context.n;; "n":-9223372036854775808,
always-allows; context.n != 42;; "n":42,
never-errors; principal.age + 1 > 0;; "age":9223372036854775807,
disjoint --against a; context.n < 5; 3 < context.n; "n":4,
implies --against a; principal.age <= context.n; principal.age < context.n
"#;

#[test]
fn what_fails_of_numbers(rt: HostRuntime) -> Result<(), Fail> {
    all_fail(&rt, rt.alloc(), FULL, FAIL)
}

/// Questions about products that hold: the question, and its conditions.
const PRODUCTS_HOLD: &str = r#"
always-denies; context.n * 2 == 7
never-errors; context.n * 0 == 0
"#;

#[test]
fn what_holds_of_products(rt: HostRuntime) -> Result<(), Fail> {
    all_hold(&rt, rt.alloc(), FULL, PRODUCTS_HOLD)
}

/// Questions about products that don't hold: the question, its conditions, and words of the counterexample.
const PRODUCTS_FAIL: &str = r#"
never-errors; context.n * 2 < 10
always-denies; context.n * 2 == 14;; "n":7,
always-denies; context.n * 3 == 9;; "n":3,
"#;

#[test]
fn what_fails_of_products(rt: HostRuntime) -> Result<(), Fail> {
    all_fail(&rt, rt.alloc(), FULL, PRODUCTS_FAIL)
}
