//! Logs that are written are accepted, and others aren't.
use sc_test_runs::runs::{Failing, ends, ends_so, is_cut, text_in, written};
use sc_test_runs::samples::{CONTRADICTION, OF_USER, PERMIT};
use sc_test_runs::schemas::{FULL, NO_TYPES, TRUTH, TWO_TRUTHS, TWO_TYPES};
use std::alloc::{AllocError, Global};
use std::test::Fail;

const LOGS: &str = "log --schema s --policies p --query always-denies --budget 10000 --env 0";

pub(crate) const CHECKS: &str =
    "check --schema s --policies p --query always-denies --env 0 --log l";

/// A log of the goal `false`, whose clauses 1 and 2 are the atom `true` and its negation.
pub(crate) const REFUTES: &str = "log 1\nl 0 1 2 0\n";

/// Whether a check of a log over this schema and these policies ends so, where a call fails.
fn check_ends<'t>(
    alloc: Global,
    files: (&'t str, &'t str, &'t [u8]),
    failing: Failing,
    told: (u8, &str),
) -> Result<bool, AllocError> {
    let held = [
        ("s", files.0.as_bytes()),
        ("p", files.1.as_bytes()),
        ("l", files.2),
    ];
    ends_so(alloc, CHECKS, &held, failing, told, 0)
}

/// The same where none fails.
fn checks<'t>(
    alloc: Global,
    schema: &'t str,
    policies: &'t str,
    log: &'t [u8],
    told: (u8, &str),
) -> Result<bool, AllocError> {
    check_ends(alloc, (schema, policies, log), Failing::Nothing, told)
}

/// Logs that were made up, and the step at fault with its reason.
const FORGED: &[(&str, &str)] = &[
    ("", "0 NotEmpty"),
    ("log 1\n", "0 NotEmpty"),
    ("log 1", "0 Malformed"),
    ("log 2\nl 0 1 2 0\n", "0 Malformed"),
    ("log 1\nl 0 1 2 0", "1 Malformed"),
    ("log 1\nl 0 0\n", "1 Malformed"),
    ("log 1\nl 0  1 2 0\n", "1 Malformed"),
    ("log 1\nl 0 2 0\n", "1 NotRefuted"),
    ("log 1\nl 0 1 3 0\n", "1 NotRefuted"),
    ("log 1\nl 1 0 1 0\n", "1 NotEmpty"),
    ("log 1\nl 2 0 1 2 0\n", "1 NotRefuted"),
    ("log 1\nt EQ99 1\n", "1 NoInstance"),
    ("log 1\nl 0 1 2 0\nl 0 9 0\n", "2 NotRefuted"),
    ("\u{0}\u{0}", "0 Malformed"),
];

/// Whether a log of the goal `false` is rejected at this step for this reason.
fn is_rejected(alloc: Global, log: &str, fault: &str) -> Result<bool, AllocError> {
    let line = format!(in alloc; "error 14 step {fault}")?;
    checks(alloc, TRUTH, "", log.as_bytes(), (14, &line))
}

#[test]
fn forged_logs_are_rejected(rt: HostRuntime) -> Result<(), Fail> {
    for &(log, fault) in FORGED {
        assert!(rt; is_rejected(rt.alloc(), log, fault)?, "{log}");
    }
    Ok(())
}

#[test]
fn a_log_that_refutes_the_goal_is_accepted(rt: HostRuntime) -> Result<(), Fail> {
    let told = (0, "accepted");
    assert!(rt; checks(rt.alloc(), TRUTH, "", REFUTES.as_bytes(), told)?);
    Ok(())
}

/// The log that is written of these policies.
fn log_of<'t>(alloc: Global, schema: &'t str, policies: &'t str) -> Result<Vec<u8>, AllocError> {
    let held = [("s", schema.as_bytes()), ("p", policies.as_bytes())];
    written(alloc, LOGS, &held, 0)
}

/// Whether the log that is written is accepted.
fn is_shown(alloc: Global, schema: &str, policies: &str) -> Result<bool, AllocError> {
    let log = log_of(alloc, schema, policies)?;
    checks(alloc, schema, policies, &log, (0, "accepted"))
}

const OF_A_CYCLE: &str =
    r#"permit(principal, action, resource) when { Group::"a" in Group::"b" && Group::"b" in Group::"a" };"#;

/// Schemas, each with policies that never allow: none, by truth values, groups, patterns, sets and numbers.
const NEVER: &[(&str, &str)] = &[
    (TRUTH, ""),
    (TWO_TYPES, ""),
    (TWO_TRUTHS, CONTRADICTION),
    (FULL, OF_A_CYCLE),
    (
        FULL,
        r#"permit(principal, action, resource) when { context.name like "a*" && context.name like "b*" };"#,
    ),
    (
        FULL,
        "permit(principal, action, resource) when { context.q.containsAll([1, 2]) && !context.q.contains(1) };",
    ),
    (
        FULL,
        "permit(principal, action, resource) when { context.n + 1 == 0 && 0 < context.n };",
    ),
];

#[test]
fn logs_that_are_written_are_accepted(rt: HostRuntime) -> Result<(), Fail> {
    for &(schema, policies) in NEVER {
        assert!(rt; is_shown(rt.alloc(), schema, policies)?, "{policies}");
    }
    Ok(())
}

/// Whether a log is rejected at its last line, where that was made `l 0 1 0`.
fn is_forged(alloc: Global, schema: &str, policies: &str, log: &[u8]) -> Result<bool, AllocError> {
    let Some((front, _)) = text_in(log).trim_end().rsplit_once('\n') else {
        return Ok(false);
    };
    let forged = format!(in alloc; "{front}\nl 0 1 0\n")?;
    is_rejected_at(alloc, schema, policies, &forged, front.lines().count())
}

/// Whether a log is rejected at this step, where its hints don't show its clause.
fn is_rejected_at(
    alloc: Global,
    schema: &str,
    policies: &str,
    log: &str,
    step: usize,
) -> Result<bool, AllocError> {
    let line = format!(in alloc; "error 14 step {step} NotRefuted")?;
    checks(alloc, schema, policies, log.as_bytes(), (14, &line))
}

/// Whether the log that is written is rejected with another last line.
fn is_forged_of(alloc: Global, schema: &str, policies: &str) -> Result<bool, AllocError> {
    let log = log_of(alloc, schema, policies)?;
    is_forged(alloc, schema, policies, &log)
}

#[test]
fn logs_with_another_last_line_are_rejected(rt: HostRuntime) -> Result<(), Fail> {
    assert!(rt; is_forged_of(rt.alloc(), TWO_TRUTHS, CONTRADICTION)?);
    assert!(rt; is_forged_of(rt.alloc(), FULL, OF_A_CYCLE)?);
    Ok(())
}

#[test]
fn a_log_without_lines_is_rejected(rt: HostRuntime) -> Result<(), Fail> {
    let told = (14, "error 14 step 0 NotEmpty");
    assert!(rt; checks(rt.alloc(), FULL, OF_A_CYCLE, b"", told)?);
    Ok(())
}

/// Words, a schema and policies, and the status and the line where no log is written.
const OTHERS: &[(&str, &str, &str, u8, &str)] = &[
    (LOGS, TRUTH, PERMIT, 1, OF_USER),
    (
        "log --schema s --policies p --query always-denies --budget 9 --env 1",
        TRUTH,
        PERMIT,
        16,
        "error 16 environment 1 of 1",
    ),
    (LOGS, NO_TYPES, "", 16, "error 16 environment 0 of 0"),
    (
        "check --schema s --policies p --query always-denies --env 7 --log l",
        TRUTH,
        "",
        16,
        "error 16 environment 7 of 1",
    ),
    (CHECKS, TRUTH, "", 20, "error 20 log"),
];

/// Whether a run over this schema and these policies ends so.
fn ends_with<'t>(
    alloc: Global,
    words: &str,
    schema: &'t str,
    policies: &'t str,
    told: (u8, &str),
) -> Result<bool, AllocError> {
    let held = [("s", schema.as_bytes()), ("p", policies.as_bytes())];
    ends(alloc, words, &held, told)
}

#[test]
fn other_lines_are_written(rt: HostRuntime) -> Result<(), Fail> {
    for &(words, schema, policies, code, line) in OTHERS {
        assert!(rt;
            ends_with(rt.alloc(), words, schema, policies, (code, line))?,
            "{line}"
        );
    }
    Ok(())
}

/// The call for a file that fails, counted from 0, with the status and the line for it.
const FAILING: &[(u64, u8, &str)] = &[
    (2, 20, "error 20 log"),
    (3, 20, "error 20 log"),
    (4, 20, "error 20 log"),
    (5, 0, "accepted"),
];

/// Whether a check ends so where one call for a file fails.
fn fails_at(alloc: Global, call: u64, told: (u8, &str)) -> Result<bool, AllocError> {
    let files = (TRUTH, "", REFUTES.as_bytes());
    check_ends(alloc, files, Failing::File(call), told)
}

#[test]
fn a_log_that_cannot_be_read_has_no_verdict(rt: HostRuntime) -> Result<(), Fail> {
    for &(call, code, line) in FAILING {
        assert!(rt; fails_at(rt.alloc(), call, (code, line))?, "{call}");
    }
    Ok(())
}

/// Whether a front of a log is written where a call keeps so many bytes of its line and fails.
fn log_is_cut(alloc: Global, call: (u64, usize), text: &str) -> Result<bool, AllocError> {
    let held = [("s", TRUTH.as_bytes()), ("p", b"".as_slice())];
    is_cut(alloc, LOGS, &held, call, text)
}

#[test]
fn a_log_that_cannot_be_written_is_cut(rt: HostRuntime) -> Result<(), Fail> {
    assert!(rt; log_is_cut(rt.alloc(), (0, 3), "log")?);
    assert!(rt; log_is_cut(rt.alloc(), (1, 3), "log 1\nl 0")?);
    Ok(())
}
