//! Questions about entities, attributes and records.
use crate::questions::{all_fail, all_hold};
use sc_test_runs::schemas::{FULL, NAMED, TRUTH};
use std::test::Fail;

/// Questions that hold, where there is one text: the question, and its conditions.
const HOLD_NAMED: &str = r#"
always-denies; principal.boss == principal && principal.boss.boss != principal
never-errors; principal has nick && principal.nick == "x"
"#;

/// Questions that hold, where there are values of many kinds: the question, and its conditions.
const HOLD_FULL: &str = r#"
always-denies; principal.boss == principal && principal.boss.boss != principal
never-errors; principal has nick && principal.nick == "x"
never-errors; principal has boss.nick && principal.boss.nick == "x"
always-denies; resource.owner == principal && resource.owner.age != principal.age
always-denies; principal == User::"a" && principal == User::"b"
always-allows; principal has boss
always-allows; principal is User
equivalent --against a; if principal.age < 18 then resource.owner == principal else true; 18 <= principal.age || resource.owner == principal
equivalent --against a; {a: context.n, b: context.name} == {a: 1, b: "x"}; context.n == 1 && context.name == "x"
"#;

/// Questions that hold, where there is one truth value: the question, and its conditions.
const HOLD_TRUTH: &str = r#"
always-allows; true || 1 + "a" < 2
"#;

#[test]
fn what_holds_of_attributes(rt: HostRuntime) -> Result<(), Fail> {
    all_hold(&rt, rt.alloc(), NAMED, HOLD_NAMED)?;
    all_hold(&rt, rt.alloc(), FULL, HOLD_FULL)?;
    all_hold(&rt, rt.alloc(), TRUTH, HOLD_TRUTH)
}

/// Questions that don't hold, where there is one text: the question, its conditions, and words of the counterexample.
const FAIL_NAMED: &str = r#"
always-denies; principal has nick && principal.nick == "x";; "nick":"x"
"#;

/// Questions that don't hold, where there are values of many kinds: the question, its conditions, and words of the
/// counterexample.
const FAIL_FULL: &str = r#"
equivalent --against a; if principal has nick then principal.nick == "x" else false; false; "nick":"x"
always-allows; principal has nick
always-denies; resource.owner == User::"a";; "owner":{"__entity":{"id":"a","type":"User"}} "uid":{"id":"a","type":"User"}
implies --against a; principal.boss == principal.boss.boss; principal.boss == principal
"#;

#[test]
fn what_fails_of_attributes(rt: HostRuntime) -> Result<(), Fail> {
    all_fail(&rt, rt.alloc(), NAMED, FAIL_NAMED)?;
    all_fail(&rt, rt.alloc(), FULL, FAIL_FULL)
}
