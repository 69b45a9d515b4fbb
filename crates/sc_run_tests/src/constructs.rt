//! Policies of many scopes and under conditions of many constructs, with the bytes of each answer.
use crate::reports::are_reported;
use sc_test_runs::questions::{part, policy_under};
use sc_test_runs::reports::reports;
use sc_test_runs::samples::{HOLDS, OF_USER, OF_USER_BY_DEFAULT};
use sc_test_runs::schemas::{FULL, TRUTH, VIEWED_GROUPS};
use std::alloc::{AllocError, Global};
use std::test::Fail;

/// The user is the one that is written.
const OF_USER_A: &str =
    r#"env User Action::"view" Doc: counterexample {"entities":[{"attrs":{},"parents":[],"tags":{},"uid":{"id":"view","type":"Action"}},{"attrs":{},"parents":[],"tags":{},"uid":{"id":"0","type":"Doc"}},{"attrs":{},"parents":[],"tags":{},"uid":{"id":"a","type":"User"}}],"request":{"action":{"id":"view","type":"Action"},"context":{"mfa":false},"principal":{"id":"a","type":"User"},"resource":{"id":"0","type":"Doc"}}}"#;

/// The user is another than the one that is written.
const OF_TWO_USERS: &str =
    r#"env User Action::"view" Doc: counterexample {"entities":[{"attrs":{},"parents":[],"tags":{},"uid":{"id":"view","type":"Action"}},{"attrs":{},"parents":[],"tags":{},"uid":{"id":"0","type":"Doc"}},{"attrs":{},"parents":[],"tags":{},"uid":{"id":"0","type":"User"}},{"attrs":{},"parents":[],"tags":{},"uid":{"id":"a","type":"User"}}],"request":{"action":{"id":"view","type":"Action"},"context":{"mfa":false},"principal":{"id":"0","type":"User"},"resource":{"id":"0","type":"Doc"}}}"#;

/// Policies of many scopes, with the status and the line for them.
const SCOPES: &[(&str, u8, &str)] = &[
    (
        "permit(principal == User::\"a\", action, resource);",
        1,
        OF_USER_A,
    ),
    ("permit(principal, action in [], resource);", 0, HOLDS),
    (
        "permit(principal, action, resource);\nforbid(principal is User, action, resource);",
        0,
        HOLDS,
    ),
];

#[test]
fn scopes_are_decided(rt: HostRuntime) -> Result<(), Fail> {
    are_reported(&rt, rt.alloc(), TRUTH, SCOPES)
}

/// Conditions of many constructs, with the status and the line for a policy under them.
const CONDITIONS: &[(&str, u8, &str)] = &[
    ("context.mfa == true", 1, OF_USER),
    ("context.mfa != true", 1, OF_USER_BY_DEFAULT),
    ("1 + 2 < 3", 0, HOLDS),
    ("\"a\" like \"a*\"", 1, OF_USER_BY_DEFAULT),
    ("if context.mfa then true else false", 1, OF_USER),
    ("principal == User::\"a\"", 1, OF_USER_A),
    ("User::\"a\" == User::\"a\"", 1, OF_TWO_USERS),
    ("context has mfa", 1, OF_USER_BY_DEFAULT),
    ("[1].contains(2)", 0, HOLDS),
    ("{a: 1}.a == 1", 1, OF_USER_BY_DEFAULT),
];

/// Whether the report on a policy under this condition ends with this status and this line.
fn decides(
    alloc: Global,
    schema: &str,
    condition: &str,
    told: (u8, &str),
) -> Result<bool, AllocError> {
    let policy = policy_under(alloc, condition)?;
    reports(alloc, schema, &policy, told)
}

#[test]
fn conditions_are_decided(rt: HostRuntime) -> Result<(), Fail> {
    for &(condition, code, line) in CONDITIONS {
        assert!(rt;
            decides(rt.alloc(), TRUTH, condition, (code, line))?,
            "{condition}"
        );
    }
    Ok(())
}

/// Conditions on values of many kinds that no world meets.
const CONTRADICTIONS: &[&str] = &[
    "context.n < 1 && 2 < context.n",
    "context.name like \"a*\" && context.name like \"b*\"",
    "context.s == context.t && context.s.contains(true) && !context.t.contains(true)",
    "principal.boss == principal && principal.boss.age < principal.age",
];

#[test]
fn contradictions_never_allow(rt: HostRuntime) -> Result<(), Fail> {
    for &condition in CONTRADICTIONS {
        assert!(rt;
            decides(rt.alloc(), FULL, condition, (0, HOLDS))?,
            "{condition}"
        );
    }
    Ok(())
}

/// Whether the counterexample for a policy under the condition of a line, before a semicolon, has what stands
/// behind that, between these two texts.
fn is_found(
    alloc: Global,
    schema: &str,
    line: &str,
    before: &str,
    behind: &str,
) -> Result<bool, AllocError> {
    let found = part(line, 1);
    let told = format!(in alloc; "{before}{found}{behind}")?;
    decides(alloc, schema, part(line, 0), (1, &told))
}

/// What is said of a user who views a document, before the context.
const BEFORE: &str =
    r#"env User Action::"view" Doc: counterexample {"entities":[{"attrs":{},"parents":[],"tags":{},"uid":{"id":"view","type":"Action"}},{"attrs":{"owner":{"__entity":{"id":"","type":"User"}}},"parents":[],"tags":{},"uid":{"id":"0","type":"Doc"}},{"attrs":{"age":0,"boss":{"__entity":{"id":"","type":"User"}}},"parents":[],"tags":{},"uid":{"id":"","type":"User"}},{"attrs":{"age":0,"boss":{"__entity":{"id":"","type":"User"}}},"parents":[],"tags":{},"uid":{"id":"0","type":"User"}}],"request":{"action":{"id":"view","type":"Action"},"context":{"addr":{"__extn":{"arg":"0.0.0.0/0","fn":"ip"}},"#;

/// What is said behind the context.
const BEHIND: &str =
    r#"},"principal":{"id":"0","type":"User"},"resource":{"id":"0","type":"Doc"}}}"#;

/// Conditions on values of many kinds, each with what the context of a counterexample holds behind its address.
const CONTEXTS: &str = r#"
context.n < 1; "n":0,"name":"","q":[],"s":[],"t":[]
1 < context.n && context.n < 3; "n":2,"name":"","q":[],"s":[],"t":[]
context.name like "a*"; "n":0,"name":"a","q":[],"s":[],"t":[]
context.name like "a*b"; "n":0,"name":"ab","q":[],"s":[],"t":[]
context.s.contains(true) && !context.s.contains(false); "n":0,"name":"","q":[],"s":[true],"t":[]
context.q.containsAll([1, 2]); "n":0,"name":"","q":[1,2],"s":[],"t":[]
"#;

#[test]
fn contexts_are_found(rt: HostRuntime) -> Result<(), Fail> {
    for line in CONTEXTS.trim().lines() {
        assert!(rt; is_found(rt.alloc(), FULL, line, BEFORE, BEHIND)?, "{line}");
    }
    Ok(())
}

/// What is said of a user who views a group, before what is stored of the user.
const BEFORE_USER: &str =
    r#"env User Action::"view" Group: counterexample {"entities":[{"attrs":{},"parents":[],"tags":{},"uid":{"id":"view","type":"Action"}},{"attrs":{},"parents":[],"tags":{},"uid":{"id":"0","type":"Group"}},{"#;

/// What is said behind it.
const BEHIND_USER: &str =
    r#","uid":{"id":"0","type":"User"}}],"request":{"action":{"id":"view","type":"Action"},"context":{},"principal":{"id":"0","type":"User"},"resource":{"id":"0","type":"Group"}}}"#;

/// Conditions on a user, each with what is stored of the user in a counterexample.
const USERS: &str = r#"
principal.vip; "attrs":{"vip":true},"parents":[],"tags":{}
principal in resource; "attrs":{"vip":false},"parents":[{"id":"0","type":"Group"}],"tags":{}
principal.hasTag("k"); "attrs":{"vip":false},"parents":[],"tags":{"k":""}
principal.hasTag("k") && principal.getTag("k") == "v"; "attrs":{"vip":false},"parents":[],"tags":{"k":"v"}
principal.vip && principal in resource && principal.hasTag("k") && principal.getTag("k") like "a*"; "attrs":{"vip":true},"parents":[{"id":"0","type":"Group"}],"tags":{"k":"a"}
"#;

#[test]
fn users_are_found(rt: HostRuntime) -> Result<(), Fail> {
    for line in USERS.trim().lines() {
        assert!(rt;
            is_found(rt.alloc(), VIEWED_GROUPS, line, BEFORE_USER, BEHIND_USER)?,
            "{line}"
        );
    }
    Ok(())
}
