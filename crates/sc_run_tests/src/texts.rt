//! Questions about texts and patterns.
use crate::questions::{all_fail, all_hold};
use sc_test_runs::schemas::{FULL, NAMED};
use std::test::Fail;

/// Questions that hold: the question, and its conditions.
const HOLD: &str = r#"
always-denies; context.name like "ab*" && context.name like "a*b" && !(context.name like "*b*b") && context.name != "ab"
equivalent --against a; context.name like "a"; context.name == "a"
equivalent --against a; context.name like "a\*"; context.name == "a*"
always-allows; context.name like "*"
implies --against a; context.name like "a*c"; context.name like "*c"
always-denies; context.name like "*a*" && context.name like "*b*" && !(context.name like "*a*b*" || context.name like "*b*a*")
always-denies; principal has nick && principal.nick == context.name && context.name == "a" && principal.nick like "b*"
"#;

#[test]
fn what_holds_of_texts(rt: HostRuntime) -> Result<(), Fail> {
    all_hold(&rt, rt.alloc(), FULL, HOLD)
}

/// Questions that don't hold, where there are values of many kinds: the question, its conditions, and words of the
/// counterexample.
const FAIL_FULL: &str = r#"
implies --against a; context.name like "*c"; context.name like "a*c"; c",
always-denies; context.name == "xy";; "name":"xy",
always-denies; context.name like "ab*" && context.name like "*yz";; "name":"ab yz",
always-denies; principal has nick && principal.nick != context.name && principal.nick like "q*" && context.name like "q*";; "name":"q "nick":"q
"#;

/// Questions that don't hold, where there is one text: the question, its conditions, and words of the counterexample.
const FAIL_NAMED: &str = r#"
always-denies; context.name like "a*";; "context":{"name":"a
"#;

#[test]
fn what_fails_of_texts(rt: HostRuntime) -> Result<(), Fail> {
    all_fail(&rt, rt.alloc(), FULL, FAIL_FULL)?;
    all_fail(&rt, rt.alloc(), NAMED, FAIL_NAMED)
}
