//! The lines of a report, one an environment.
use sc_test_runs::reports::reports;
use sc_test_runs::samples::{HOLDS, OF_AGE, OF_USER, OF_USER_BY_DEFAULT, PERMIT, PERMIT_ALL};
use sc_test_runs::schemas::{
    BOSSES, FULL, NO_TYPES, TRUTH, TWO_ACTIONS, TWO_ATTRIBUTES, TWO_TYPES,
};
use std::alloc::Global;
use std::process::Abort;
use std::test::Fail;

/// Asserts of policies that the report on them ends with the status and the lines beside them.
pub(crate) fn are_reported(
    rt: &impl Abort,
    alloc: Global,
    schema: &str,
    rows: &[(&str, u8, &str)],
) -> Result<(), Fail> {
    for &(policies, code, lines) in rows {
        assert!(rt;
            reports(alloc, schema, policies, (code, lines))?,
            "{policies}"
        );
    }
    Ok(())
}

const SCOPED: &str =
    "permit(principal, action == Action::\"view\", resource) when { context.mfa };\n\n";

const EDIT: &str = "permit(principal, action == Action::\"edit\", resource) when { context.mfa };";

/// What is skipped has no type.
const SKIPPED: &str =
    "permit(principal, action, resource) when { context.mfa && (true || 1 + \"a\" < 2) };";

const BOTH_HOLD: &str = "env Doc Action::\"view\" Doc: holds\nenv User Action::\"view\" Doc: holds";

const OF_TWO_ATTRIBUTES: &str =
    r#"env B Action::"a b" A: counterexample {"entities":[{"attrs":{},"parents":[],"tags":{},"uid":{"id":"0","type":"A"}},{"attrs":{},"parents":[],"tags":{},"uid":{"id":"a b","type":"Action"}},{"attrs":{},"parents":[],"tags":{},"uid":{"id":"0","type":"B"}}],"request":{"action":{"id":"a b","type":"Action"},"context":{"age":true,"mfa":false},"principal":{"id":"0","type":"B"},"resource":{"id":"0","type":"A"}}}"#;

/// Users edit, and don't view.
const OF_EDITOR: &str =
    r#"env User Action::"edit" Doc: counterexample {"entities":[{"attrs":{},"parents":[],"tags":{},"uid":{"id":"edit","type":"Action"}},{"attrs":{},"parents":[],"tags":{},"uid":{"id":"view","type":"Action"}},{"attrs":{},"parents":[],"tags":{},"uid":{"id":"0","type":"Doc"}},{"attrs":{},"parents":[],"tags":{},"uid":{"id":"0","type":"User"}}],"request":{"action":{"id":"edit","type":"Action"},"context":{"mfa":true},"principal":{"id":"0","type":"User"},"resource":{"id":"0","type":"Doc"}}}
env User Action::"view" Doc: holds"#;

const OF_GROUPS: &str =
    r#"env User Action::"view" Doc: counterexample {"entities":[{"attrs":{},"parents":[],"tags":{},"uid":{"id":"all","type":"Action"}},{"attrs":{},"parents":[{"id":"all","type":"Action"}],"tags":{},"uid":{"id":"view","type":"Action"}},{"attrs":{},"parents":[],"tags":{},"uid":{"id":"0","type":"Doc"}},{"attrs":{"boss":{"__entity":{"id":"","type":"User"}}},"parents":[],"tags":{},"uid":{"id":"","type":"User"}},{"attrs":{"boss":{"__entity":{"id":"","type":"User"}}},"parents":[],"tags":{},"uid":{"id":"0","type":"User"}}],"request":{"action":{"id":"view","type":"Action"},"context":{"mfa":true},"principal":{"id":"0","type":"User"},"resource":{"id":"0","type":"Doc"}}}"#;

/// Schemas and policies, with the status and the lines for them.
const REPORTS: &[(&str, &str, u8, &str)] = &[
    (TRUTH, "", 0, HOLDS),
    (TRUTH, PERMIT, 1, OF_USER),
    (TRUTH, SCOPED, 1, OF_USER),
    (TRUTH, PERMIT_ALL, 1, OF_USER_BY_DEFAULT),
    (TRUTH, SKIPPED, 1, OF_USER),
    (TWO_ATTRIBUTES, OF_AGE, 1, OF_TWO_ATTRIBUTES),
    (TWO_TYPES, "", 0, BOTH_HOLD),
    (TWO_ACTIONS, EDIT, 1, OF_EDITOR),
    (FULL, "", 0, HOLDS),
    (BOSSES, PERMIT, 1, OF_GROUPS),
    (NO_TYPES, "", 0, "no environments"),
    ("{}", PERMIT, 0, "no environments"),
];

#[test]
fn each_environment_has_its_line(rt: HostRuntime) -> Result<(), Fail> {
    for &(schema, policies, code, lines) in REPORTS {
        assert!(rt;
            reports(rt.alloc(), schema, policies, (code, lines))?,
            "{policies}"
        );
    }
    Ok(())
}
