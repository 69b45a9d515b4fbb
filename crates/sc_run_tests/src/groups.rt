//! Questions about groups and scopes.
use crate::questions::{all_fail, all_hold};
use sc_test_runs::questions::is_answered;
use sc_test_runs::samples::HOLDS;
use sc_test_runs::schemas::FULL;
use std::test::Fail;

/// Questions that hold: the question, and its conditions.
const HOLD: &str = r#"
implies --against a; principal in Group::"a" && Group::"a" in Group::"b"; principal in Group::"b"
implies --against a; principal in Group::"a" && Group::"a" in Group::"b" && Group::"b" in Group::"c"; principal in Group::"c"
always-denies; Group::"a" in Group::"b" && Group::"b" in Group::"a"
equivalent --against a; principal in [Group::"a", Group::"b"]; principal in Group::"a" || principal in Group::"b"
equivalent --against a; principal in resource.owner; principal == resource.owner
always-allows; Group::"a" in Group::"a"
always-denies; resource.owner == principal && principal in Group::"a" && !(resource.owner in Group::"a")
always-denies; principal == User::"a" && User::"a" in Group::"a" && !(principal in Group::"a")
"#;

#[test]
fn what_holds_of_groups(rt: HostRuntime) -> Result<(), Fail> {
    all_hold(&rt, rt.alloc(), FULL, HOLD)
}

/// Questions that don't hold: the question, its conditions, and words of the counterexample.
const FAIL: &str = r#"
always-denies; principal in Group::"a";; "uid":{"id":"a","type":"Group"} "parents":[{"id":"a","type":"Group"}],"tags":{},"uid":{"id":"0","type":"User"} "principal":{"id":"0","type":"User"}
always-denies; principal in Group::"a" && Group::"a" in Group::"b";; "parents":[{"id":"a","type":"Group"},{"id":"b","type":"Group"}] "parents":[{"id":"b","type":"Group"}]
implies --against a; principal in Group::"b"; principal in Group::"a"; "parents":[{"id":"b","type":"Group"}]
disjoint --against a; principal in Group::"a"; principal in Group::"b"; {"id":"a","type":"Group"} {"id":"b","type":"Group"}
"#;

#[test]
fn what_fails_of_groups(rt: HostRuntime) -> Result<(), Fail> {
    all_fail(&rt, rt.alloc(), FULL, FAIL)
}

/// Questions of policies with scopes, that hold.
const SCOPES: &[(&str, &str, &str)] = &[
    (
        "implies --against a",
        r#"permit(principal in Group::"a", action, resource); forbid(principal in Group::"b", action, resource);"#,
        r#"permit(principal in Group::"a", action, resource);"#,
    ),
    (
        "equivalent --against a",
        r#"permit(principal is User in Group::"a", action, resource is Doc);"#,
        r#"permit(principal, action, resource) when { principal in Group::"a" };"#,
    ),
    (
        "always-allows",
        r#"permit(principal, action in [Action::"view"], resource);"#,
        "",
    ),
    (
        "always-denies",
        r#"permit(principal, action, resource); forbid(principal, action == Action::"view", resource);"#,
        "",
    ),
];

#[test]
fn what_holds_of_scopes(rt: HostRuntime) -> Result<(), Fail> {
    for &(question, first, second) in SCOPES {
        assert!(rt;
            is_answered(rt.alloc(), FULL, question, (first, second), (0, HOLDS))?,
            "{question} {first}"
        );
    }
    Ok(())
}
