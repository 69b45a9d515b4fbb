//! What policies do in worlds.
use sc_test_runs::runs::ends;
use sc_test_runs::samples::{OF_AGE, OF_USER, PERMIT, REPLAYS};
use sc_test_runs::schemas::TRUTH;
use std::alloc::{AllocError, Global};
use std::process::Abort;
use std::test::Fail;

/// The user views the document, with the one truth value of the context being true.
pub(crate) const WORLD: &str =
    r#"{"entities":[{"attrs":{},"parents":[],"tags":{},"uid":{"id":"view","type":"Action"}},{"attrs":{},"parents":[],"tags":{},"uid":{"id":"0","type":"Doc"}},{"attrs":{},"parents":[],"tags":{},"uid":{"id":"0","type":"User"}}],"request":{"action":{"id":"view","type":"Action"},"context":{"mfa":true},"principal":{"id":"0","type":"User"},"resource":{"id":"0","type":"Doc"}}}"#;

/// The same, where nothing is stored of the document.
const NO_DOCUMENT: &str =
    r#"{"entities":[{"attrs":{},"parents":[],"tags":{},"uid":{"id":"view","type":"Action"}},{"attrs":{},"parents":[],"tags":{},"uid":{"id":"0","type":"User"}}],"request":{"action":{"id":"view","type":"Action"},"context":{"mfa":true},"principal":{"id":"0","type":"User"},"resource":{"id":"0","type":"Doc"}}}"#;

const QUOTED: &str =
    r#"{"entities":[{"attrs":{"a\"":null},"parents":[],"tags":{},"uid":{"id":"0","type":"Doc"}}],"request":0}"#;

const FORBIDDEN: &str =
    "permit(principal, action, resource); forbid(principal, action, resource) unless { !context.mfa };";

const OF_A_TEAM: &str = "permit(principal == Team::\"a\", action, resource);";

const OF_EDITING: &str = "permit(principal, action == Action::\"edit\", resource);";

const ALLOWED: &str = "world well-formed\npolicy0 satisfied\ndecision Allow";

const DENIED: &str = "world well-formed\npolicy0 satisfied\npolicy1 satisfied\ndecision Deny";

const ERRING: &str = "world well-formed\npolicy0 errs AttrMissing\ndecision Deny";

const LACKING: &str =
    "world not well-formed: missing Doc::\"0\"\npolicy0 satisfied\ndecision Allow";

/// Policies and worlds, with the status and the lines for them.
const REPORTS: &[(&str, &str, u8, &str)] = &[
    (PERMIT, WORLD, 0, ALLOWED),
    ("", WORLD, 0, "world well-formed\ndecision Deny"),
    (FORBIDDEN, WORLD, 0, DENIED),
    (OF_AGE, WORLD, 0, ERRING),
    (PERMIT, NO_DOCUMENT, 3, LACKING),
];

/// Policies and worlds that are refused: policies before the world, and the world before names.
const REFUSALS: &[(&str, &str, u8, &str)] = &[
    ("x", "[]", 11, "error 11 policies Unexpected at 0"),
    (PERMIT, "{", 17, "error 17 NotJson"),
    (PERMIT, "[]", 17, "error 17 BadWorld at "),
    (
        PERMIT,
        r#"{"entities":0,"request":0}"#,
        17,
        "error 17 BadWorld at /entities",
    ),
    (
        PERMIT,
        QUOTED,
        17,
        r#"error 17 BadWorld at /entities/0/attrs/a\""#,
    ),
    (OF_A_TEAM, "[]", 17, "error 17 BadWorld at "),
    (
        OF_A_TEAM,
        WORLD,
        13,
        "error 13 policies policy0 UnknownEntityType at 20",
    ),
    (
        OF_EDITING,
        WORLD,
        13,
        "error 13 policies policy0 UnknownAction at 28",
    ),
];

/// Whether the replay of a world ends with this status and these lines.
fn is_replayed<'t>(
    alloc: Global,
    policies: &'t str,
    world: &'t str,
    told: (u8, &str),
) -> Result<bool, AllocError> {
    let held = [
        ("s", TRUTH.as_bytes()),
        ("p", policies.as_bytes()),
        ("w", world.as_bytes()),
    ];
    ends(alloc, REPLAYS, &held, told)
}

/// Asserts of these policies and worlds that each replay ends with the status and the lines beside them.
fn are_replayed(
    rt: &impl Abort,
    alloc: Global,
    rows: &[(&str, &str, u8, &str)],
) -> Result<(), Fail> {
    for &(policies, world, code, lines) in rows {
        assert!(rt;
            is_replayed(alloc, policies, world, (code, lines))?,
            "{policies} {lines}"
        );
    }
    Ok(())
}

#[test]
fn worlds_that_are_printed_are_replayed(rt: HostRuntime) -> Result<(), Fail> {
    assert!(rt; OF_USER.ends_with(WORLD));
    are_replayed(&rt, rt.alloc(), REPORTS)
}

#[test]
fn replays_are_refused(rt: HostRuntime) -> Result<(), Fail> {
    are_replayed(&rt, rt.alloc(), REFUSALS)
}
