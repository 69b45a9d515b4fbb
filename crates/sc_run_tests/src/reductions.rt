//! Reductions: which policies of a set do nothing, and what is said of each.
use sc_test_runs::runs::{Failing, ends_so, text_in, written};
use sc_test_runs::samples::{CONTRADICTION, PERMIT};
use sc_test_runs::schemas::{NO_TYPES, TRUTH, TWO_TRUTHS};
use std::alloc::{AllocError, Global};
use std::test::Fail;

const REDUCES: &str = "reduce --schema s --policies p --budget 10000";

/// Two policies of which either alone would do: the first is looked at first.
const TWICE: &str = r#"permit(principal, action, resource) when { context.mfa };
permit(principal, action, resource) when { context.mfa && true };"#;

const KEPT_TWICE: &str = r#"policy0 dropped
policy1 kept env User Action::"view" Doc {"entities":[{"attrs":{},"parents":[],"tags":{},"uid":{"id":"view","type":"Action"}},{"attrs":{},"parents":[],"tags":{},"uid":{"id":"0","type":"Doc"}},{"attrs":{},"parents":[],"tags":{},"uid":{"id":"0","type":"User"}}],"request":{"action":{"id":"view","type":"Action"},"context":{"mfa":true},"principal":{"id":"0","type":"User"},"resource":{"id":"0","type":"Doc"}}}"#;

/// The first does something as long as the second stays, and the second does nothing: the first goes in the second
/// pass.
const IN_TURN: &str = "forbid(principal, action, resource);\npermit(principal, action, resource);";

const BOTH_DROPPED: &str = "policy0 dropped\npolicy1 dropped";

/// Schemas and policies, with the lines for them, where of each policy it is known whether it matters.
const REDUCTIONS: &[(&str, &str, &str)] = &[
    (TRUTH, TWICE, KEPT_TWICE),
    (TRUTH, IN_TURN, BOTH_DROPPED),
    (NO_TYPES, IN_TURN, BOTH_DROPPED),
    (NO_TYPES, PERMIT, "policy0 dropped"),
    (TWO_TRUTHS, CONTRADICTION, "policy0 dropped"),
];

/// Whether a reduction ends with this status and these lines, and keeps so many logs.
fn is_reduced(
    alloc: Global,
    line: &str,
    files: (&str, &str),
    told: (u8, &str),
    logs: usize,
) -> Result<bool, AllocError> {
    let held = [("s", files.0.as_bytes()), ("p", files.1.as_bytes())];
    ends_so(alloc, line, &held, Failing::Nothing, told, logs)
}

#[test]
fn each_policy_has_its_line(rt: HostRuntime) -> Result<(), Fail> {
    for &(schema, policies, lines) in REDUCTIONS {
        assert!(rt;
            is_reduced(rt.alloc(), REDUCES, (schema, policies), (0, lines), 0)?,
            "{policies}"
        );
    }
    Ok(())
}

#[test]
fn an_empty_file_has_no_line(rt: HostRuntime) -> Result<(), Fail> {
    let held = [("s", TRUTH.as_bytes()), ("p", "// none\n".as_bytes())];
    let text = written(rt.alloc(), REDUCES, &held, 0)?;
    assert!(rt; text_in(&text).is_empty());
    Ok(())
}

/// Whether the last policy matters takes more units than one.
#[test]
fn a_budget_that_is_spent_keeps_a_policy(rt: HostRuntime) -> Result<(), Fail> {
    let line = "reduce --schema s --policies p --budget 1";
    let lines = "policy0 unproved env User Action::\"view\" Doc after 1 units";
    assert!(rt; is_reduced(rt.alloc(), line, (TWO_TRUTHS, CONTRADICTION), (2, lines), 1)?);
    Ok(())
}

/// Policies that are refused, with the status and the line.
const REFUSED: &[(&str, u8, &str)] = &[
    (
        "permit(principal, action resource);",
        11,
        "error 11 policies Unexpected at 25",
    ),
    (
        "permit(principal, action == Action::\"go\", resource);",
        13,
        "error 13 policies policy0 UnknownAction at 28",
    ),
    (
        "permit(principal, action, resource) when { 1 };",
        13,
        "error 13 policies policy0 env User Action::\"view\" Doc NotBoolean at 43",
    ),
];

#[test]
fn policies_are_refused_as_elsewhere(rt: HostRuntime) -> Result<(), Fail> {
    for &(policies, code, line) in REFUSED {
        assert!(rt;
            is_reduced(rt.alloc(), REDUCES, (TRUTH, policies), (code, line), 0)?,
            "{policies}"
        );
    }
    Ok(())
}
