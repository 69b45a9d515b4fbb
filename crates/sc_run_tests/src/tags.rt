//! Questions about tags.
use crate::questions::{all_fail, all_hold};
use sc_test_runs::questions::is_told;
use sc_test_runs::schemas::{FULL, TAGGED};
use std::test::Fail;

/// Questions that hold, where documents have tags: the question, and its conditions.
const HOLD_TAGGED: &str = r#"
never-errors; resource.hasTag("k") && resource.getTag("k") == "v"
always-denies; resource.hasTag("k") && resource.getTag("k") == "v" && context.name == "k" && resource.hasTag(context.name) && resource.getTag(context.name) != "v"
always-denies; context.name == "k" && resource.hasTag("k") && !resource.hasTag(context.name)
"#;

/// Questions that hold, where there are values of many kinds: the question, and its conditions.
const HOLD_FULL: &str = r#"
always-denies; principal.hasTag("k")
"#;

#[test]
fn what_holds_of_tags(rt: HostRuntime) -> Result<(), Fail> {
    all_hold(&rt, rt.alloc(), TAGGED, HOLD_TAGGED)?;
    all_hold(&rt, rt.alloc(), FULL, HOLD_FULL)
}

/// Questions that don't hold: the question, its conditions, and words of the counterexample.
const FAIL: &str = r#"
always-denies; resource.hasTag("k") && resource.getTag("k") == "v";; "tags":{"k":"v"}
implies --against a; resource.hasTag("a"); resource.hasTag("b"); "tags":{"a":"
always-denies; resource.hasTag("k") && resource.hasTag("l") && resource.getTag("k") != resource.getTag("l");; "tags":{"k":
"#;

#[test]
fn what_fails_of_tags(rt: HostRuntime) -> Result<(), Fail> {
    all_fail(&rt, rt.alloc(), TAGGED, FAIL)
}

const MAYBE_ABSENT: &str =
    "error 13 policies policy0 env User Action::\"view\" Doc TagMaybeAbsent at 51";

#[test]
fn a_tag_has_to_be_there(rt: HostRuntime) -> Result<(), Fail> {
    let conditions = (r#"resource.getTag("k") == "v""#, "");
    let told = (13, MAYBE_ABSENT);
    assert!(rt; is_told(rt.alloc(), TAGGED, "never-errors", conditions, told)?);
    Ok(())
}
