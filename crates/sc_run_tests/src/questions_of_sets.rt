//! Questions of one policy set or of two, with the bytes of each answer.
use sc_test_runs::questions::is_answered;
use sc_test_runs::samples::{HOLDS, OF_USER, OF_USER_BY_DEFAULT, PERMIT, PERMIT_ALL};
use sc_test_runs::schemas::TRUTH;
use std::alloc::Global;
use std::process::Abort;
use std::test::Fail;

/// Forbids what `PERMIT` doesn't allow.
const FORBIDDING: &str =
    "permit(principal, action, resource);\nforbid(principal, action, resource) when { !context.mfa };";

const UNTYPED: &str = "permit(principal, action, resource) when { context.x };";

const EQUAL: &str = "permit(principal, action, resource) when { context.mfa == true };";

const UNTYPED_IS_TOLD: &str =
    "error 13 against policy0 env User Action::\"view\" Doc NoAttribute at 50";

/// Asserts of questions of these two sets that each ends with the status and the line beside it.
fn are_answered(
    rt: &impl Abort,
    alloc: Global,
    rows: &[(&str, &str, &str, u8, &str)],
) -> Result<(), Fail> {
    for &(question, first, second, code, line) in rows {
        assert!(rt;
            is_answered(alloc, TRUTH, question, (first, second), (code, line))?,
            "{question} {first} {second}"
        );
    }
    Ok(())
}

/// Questions of one set or of two, with the status and the line for them.
const ANSWERS: &[(&str, &str, &str, u8, &str)] = &[
    ("never-errors", PERMIT, "", 0, HOLDS),
    ("always-allows", PERMIT_ALL, "", 0, HOLDS),
    ("always-allows", "", "", 1, OF_USER_BY_DEFAULT),
    ("always-allows", PERMIT, "", 1, OF_USER_BY_DEFAULT),
    ("always-denies", FORBIDDING, "", 1, OF_USER),
    ("implies --against a", PERMIT, PERMIT_ALL, 0, HOLDS),
    (
        "implies --against a",
        PERMIT_ALL,
        PERMIT,
        1,
        OF_USER_BY_DEFAULT,
    ),
    ("equivalent --against a", PERMIT, PERMIT, 0, HOLDS),
    ("equivalent --against a", PERMIT, "", 1, OF_USER),
    ("disjoint --against a", PERMIT, "", 0, HOLDS),
    ("disjoint --against a", PERMIT, PERMIT_ALL, 1, OF_USER),
    ("implies --against a", PERMIT, EQUAL, 0, HOLDS),
    ("equivalent --against a", EQUAL, PERMIT, 0, HOLDS),
];

#[test]
fn questions_are_answered(rt: HostRuntime) -> Result<(), Fail> {
    are_answered(&rt, rt.alloc(), ANSWERS)
}

/// Questions of two sets that are refused: both sets are read and typed before anything is decided.
const REFUSALS: &[(&str, &str, &str, u8, &str)] = &[
    (
        "implies --against a",
        PERMIT,
        "x",
        11,
        "error 11 against Unexpected at 0",
    ),
    ("implies --against a", PERMIT, UNTYPED, 13, UNTYPED_IS_TOLD),
    ("implies --against a", EQUAL, UNTYPED, 13, UNTYPED_IS_TOLD),
];

#[test]
fn second_sets_are_refused(rt: HostRuntime) -> Result<(), Fail> {
    are_answered(&rt, rt.alloc(), REFUSALS)
}
