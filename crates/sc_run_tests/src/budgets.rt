//! Budgets: what is said where one is spent, the log that is kept, and what one suffices for.
use sc_test_runs::questions::policy_under;
use sc_test_runs::reports::reports;
use sc_test_runs::runs::{Ended, Failing, ends_so, ran, text_in};
use sc_test_runs::samples::{CONTRADICTION, HOLDS};
use sc_test_runs::schemas::{FULL, TWO_TRUTHS};
use std::alloc::{AllocError, Global};
use std::test::Fail;

/// Budgets, with the status, the verdict and the number of logs within them.
const BUDGETS: &[(&str, u8, &str, usize)] = &[
    ("1", 2, "unknown after 1 units", 1),
    ("4", 2, "unknown after 4 units", 1),
    ("5", 0, "holds", 0),
];

/// Whether a run within a budget ends so.
fn ends_within(
    alloc: Global,
    budget: &str,
    code: u8,
    verdict: &str,
    logs: usize,
) -> Result<bool, AllocError> {
    let words = format!(in alloc;
        "analyse --schema s --policies p --query always-denies --budget {budget}"
    )?;
    ends_at(alloc, &words, code, verdict, logs)
}

/// Whether a run over a contradiction ends with this status and this verdict, and keeps so many logs.
fn ends_at(
    alloc: Global,
    words: &str,
    code: u8,
    verdict: &str,
    logs: usize,
) -> Result<bool, AllocError> {
    let line = format!(in alloc; "env User Action::\"view\" Doc: {verdict}")?;
    let held = [
        ("s", TWO_TRUTHS.as_bytes()),
        ("p", CONTRADICTION.as_bytes()),
    ];
    ends_so(alloc, words, &held, Failing::Nothing, (code, &line), logs)
}

#[test]
fn budgets_are_spent(rt: HostRuntime) -> Result<(), Fail> {
    for &(budget, code, verdict, logs) in BUDGETS {
        assert!(rt;
            ends_within(rt.alloc(), budget, code, verdict, logs)?,
            "{budget}"
        );
    }
    Ok(())
}

/// Conditions on one attribute, with the status of whether they always deny.
const ONE_ATTRIBUTE: &[(&str, u8)] = &[
    ("context.x", 1),
    ("!context.x", 1),
    ("context.x && !context.x", 0),
];

/// The status within nine units of whether a condition always denies.
fn denies_within_nine(alloc: Global, condition: &str) -> Result<u8, AllocError> {
    let policy = policy_under(alloc, condition)?;
    let held = [("s", TWO_TRUTHS.as_bytes()), ("p", policy.as_bytes())];
    let words = "analyse --schema s --policies p --query always-denies --budget 9";
    let ended = ran(alloc, words, &held, Failing::Nothing)?;
    Ok(ended.code)
}

/// An attribute is one atom beside `true`, and over two atoms there are fewer than nine units.
#[test]
fn nine_units_suffice_for_one_attribute(rt: HostRuntime) -> Result<(), Fail> {
    for &(condition, code) in ONE_ATTRIBUTE {
        assert!(rt;
            denies_within_nine(rt.alloc(), condition)? == code,
            "{condition}"
        );
    }
    Ok(())
}

const ONE_UNIT: &str = "log --schema s --policies p --query always-denies --budget 1 --env 0";

/// Whether a run keeps one log, which has one step.
fn keeps_one_step(ended: &Ended) -> bool {
    ended.logs == 1 && ended.steps == 1
}

/// Whether a run within one unit keeps one log, which has one step.
fn spends_one_step(alloc: Global) -> Result<bool, AllocError> {
    let held = [
        ("s", TWO_TRUTHS.as_bytes()),
        ("p", CONTRADICTION.as_bytes()),
    ];
    let ended = ran(alloc, ONE_UNIT, &held, Failing::Nothing)?;
    Ok(keeps_one_step(&ended))
}

#[test]
fn a_spent_budget_has_its_log(rt: HostRuntime) -> Result<(), Fail> {
    assert!(rt; spends_one_step(rt.alloc())?);
    Ok(())
}

const OF_TWO_GROUPS: &str =
    r#"permit(principal, action, resource) when { principal in Group::"a" && Group::"a" in Group::"b" };"#;

const OF_ONE_GROUP: &str =
    r#"permit(principal, action, resource) when { principal in Group::"b" };"#;

/// No refutation of what is asked has one step.
const IMPLIES: &str = "analyse --schema s --policies p --against a --query implies --budget 1";

const UNKNOWN: &str = "env User Action::\"view\" Doc: unknown after 1 units\n";

/// Whether a run is told to have spent its one unit, and keeps its log.
fn spends_one_unit(alloc: Global) -> Result<bool, AllocError> {
    let held = [
        ("s", FULL.as_bytes()),
        ("p", OF_TWO_GROUPS.as_bytes()),
        ("a", OF_ONE_GROUP.as_bytes()),
    ];
    let ended = ran(alloc, IMPLIES, &held, Failing::Nothing)?;
    Ok(ended.code == 2 && keeps_one_step(&ended) && text_in(&ended.text) == UNKNOWN)
}

#[test]
fn a_budget_that_is_spent_leaves_its_log(rt: HostRuntime) -> Result<(), Fail> {
    assert!(rt; spends_one_unit(rt.alloc())?);
    Ok(())
}

/// The context has further attributes and two truth values.
const TRUTHS: &str =
    r#"{"":{"entityTypes":{"User":{},"Doc":{}},"actions":{"view":{"appliesTo":{"principalTypes":["User"],"resourceTypes":["Doc"],"context":{"type":"Record","attributes":{FURTHER"x":{"type":"Boolean"},"y":{"type":"Boolean"}}}}}}}}"#;

/// The same with thirty further truth values.
fn many_truths(alloc: Global) -> Result<String, AllocError> {
    let mut further = String::from_str(alloc, "")?;
    for i in 10..40 {
        let attribute = format!(in alloc; "\"a{i}\":{{\"type\":\"Boolean\"}},")?;
        further.push_str(&attribute)?;
    }
    TRUTHS.replace(alloc, "FURTHER", &further)
}

/// Whether a contradiction is found to never allow beside thirty further truth values.
fn is_found(alloc: Global) -> Result<bool, AllocError> {
    let schema = many_truths(alloc)?;
    reports(alloc, &schema, CONTRADICTION, (0, HOLDS))
}

#[test]
fn what_plays_no_part_takes_no_units(rt: HostRuntime) -> Result<(), Fail> {
    assert!(rt; is_found(rt.alloc())?);
    Ok(())
}
