//! Schemas and policies that are refused.
use crate::reports::are_reported;
use sc_test_runs::questions::{is_told, policy_under};
use sc_test_runs::reports::reports;
use sc_test_runs::samples::HOLDS;
use sc_test_runs::schemas::{FULL, TRUTH};
use std::alloc::{AllocError, Global};
use std::test::Fail;

/// Schema files that spell nothing, and their lines.
const SCHEMAS: &[(&str, &str)] = &[
    ("{", "error 12 NotJson"),
    ("[]", "error 12 BadShape at "),
    (
        r#"{"":{"entityTypes":{"U":{"shape":{"type":"Record","attributes":{},"additionalAttributes":true}}}}}"#,
        "error 12 BadShape at //entityTypes/U/shape/additionalAttributes",
    ),
    (
        r#"{"":{"entityTypes":{"a/~\"\n\u0001":{}}}}"#,
        r#"error 12 BadName at //entityTypes/a~1~0\"\n\u{1}"#,
    ),
    (
        r#"{"":{"entityTypes":{"User":{"memberOfTypes":["Team"]}}}}"#,
        "error 12 UnknownType at //entityTypes/User/memberOfTypes/0",
    ),
    (
        r#"{"":{"actions":{"a":{"memberOf":[{"id":"b"}]}}}}"#,
        "error 12 UnknownAction at //actions/a/memberOf/0",
    ),
    (
        r#"{"":{"commonTypes":{"A":{"type":"A"}}}}"#,
        "error 12 TypeCycle at A",
    ),
    (
        r#"{"":{"actions":{"a":{"memberOf":[{"id":"b"}]},"b":{"memberOf":[{"id":"a"}]}}}}"#,
        "error 12 ActionCycle at Action::\"a\"",
    ),
    (
        r#"{"":{"entityTypes":{"U":{"shape":{"type":"Long"}}}}}"#,
        "error 12 NotRecord at //entityTypes/U/shape",
    ),
];

#[test]
fn schemas_are_refused(rt: HostRuntime) -> Result<(), Fail> {
    for &(schema, line) in SCHEMAS {
        assert!(rt; reports(rt.alloc(), schema, "x", (12, line))?, "{schema}");
    }
    Ok(())
}

/// A schema of one action over this many types of principals and of resources.
fn squared(alloc: Global, count: u32) -> Result<String, AllocError> {
    let mut types = String::from_str(alloc, "\"T\":{}")?;
    let mut names = String::from_str(alloc, "\"T\"")?;
    for i in 1..count {
        types.push_str(format!(in alloc; ",\"T{i}\":{{}}")?.as_str())?;
        names.push_str(format!(in alloc; ",\"T{i}\"")?.as_str())?;
    }
    format!(in alloc;
        "{{\"\":{{\"entityTypes\":{{{types}}},\"actions\":{{\"a\":{{\"appliesTo\":{{\"principalTypes\":[{names}],\"resourceTypes\":[{names}]}}}}}}}}}}"
    )
}

/// Whether a schema of one action over this many types of principals and of resources is refused.
fn has_too_many(alloc: Global, count: u32) -> Result<bool, AllocError> {
    let schema = squared(alloc, count)?;
    reports(alloc, &schema, "", (12, "error 12 TooManyEnvironments"))
}

#[test]
fn schemas_have_at_most_ten_thousand_environments(rt: HostRuntime) -> Result<(), Fail> {
    assert!(rt; has_too_many(rt.alloc(), 101)?);
    Ok(())
}

/// Policy files that are refused, with their statuses and lines.
const POLICIES: &[(&str, u8, &str)] = &[
    ("x", 11, "error 11 policies Unexpected at 0"),
    (
        "permit(principal, action, resource) when { context.mfa",
        11,
        "error 11 policies UnexpectedEnd",
    ),
    (
        "permit(principal, action, resource) when { context.mfa < 1 < 2 };",
        11,
        "error 11 policies Unexpected at 59",
    ),
    (
        "forbid(principal == ?principal, action, resource);",
        11,
        "error 11 policies Template at 20",
    ),
    (
        "permit(principal, action == Action::\"edit\", resource);",
        13,
        "error 13 policies policy0 UnknownAction at 28",
    ),
    (
        "permit(principal, action, resource) when { false && principal == Robot::\"r\" };",
        13,
        "error 13 policies policy0 UnknownEntityType at 65",
    ),
];

#[test]
fn policies_are_refused(rt: HostRuntime) -> Result<(), Fail> {
    are_reported(&rt, rt.alloc(), TRUTH, POLICIES)
}

/// Conditions of policies without a type, and the rules that these break in the one environment.
const ILL_TYPED: &[(&str, &str, &str)] = &[
    (TRUTH, "context.x", "NoAttribute at 50"),
    (TRUTH, "if context.mfa then 1 else \"a\"", "NoJoin at 43"),
    (TRUTH, "context.mfa && 1", "NotBoolean at 58"),
    (FULL, "context.n", "NotBoolean at 50"),
    (FULL, "principal.nick == \"x\"", "MaybeAbsent at 52"),
];

/// Whether a policy under this condition is refused with this line.
fn refuses(alloc: Global, schema: &str, condition: &str, fault: &str) -> Result<bool, AllocError> {
    let policy = policy_under(alloc, condition)?;
    let front = "error 13 policies policy0 env User Action::\"view\" Doc";
    let line = format!(in alloc; "{front} {fault}")?;
    reports(alloc, schema, &policy, (13, &line))
}

#[test]
fn conditions_without_a_type_are_refused(rt: HostRuntime) -> Result<(), Fail> {
    for &(schema, condition, fault) in ILL_TYPED {
        assert!(rt;
            refuses(rt.alloc(), schema, condition, fault)?,
            "{condition}"
        );
    }
    Ok(())
}

/// Numbers of pairs of parentheses, with the status and the line for a condition within so many.
const NESTED: &[(usize, u8, &str)] = &[
    (99, 0, HOLDS),
    (100, 11, "error 11 policies TooDeep at 143"),
];

/// What is true, in so many pairs of parentheses.
fn nested(alloc: Global, count: usize) -> Result<String, AllocError> {
    let mut text = String::from_str(alloc, "")?;
    for _ in 0..count {
        text.push_str("(")?;
    }
    text.push_str("true")?;
    for _ in 0..count {
        text.push_str(")")?;
    }
    Ok(text)
}

fn nested_ends(alloc: Global, count: usize, told: (u8, &str)) -> Result<bool, AllocError> {
    let condition = nested(alloc, count)?;
    is_told(alloc, TRUTH, "always-allows", (&condition, ""), told)
}

#[test]
fn conditions_in_parentheses(rt: HostRuntime) -> Result<(), Fail> {
    for &(count, code, line) in NESTED {
        assert!(rt; nested_ends(rt.alloc(), count, (code, line))?, "{count}");
    }
    Ok(())
}
