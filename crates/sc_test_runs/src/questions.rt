//! Questions of policies under conditions. A counterexample is replayed: the world has to be well-formed, and what is
//! asked has to fail there.
use crate::runs::{ends, text_in, written};
use crate::samples::{HOLDS, REPLAYS};
use std::alloc::{AllocError, Global};

/// What is permitted under a condition.
const POLICY: &str = "permit(principal, action, resource) when { CONDITION };";

const ANALYSES: &str = "analyse --schema s --policies p --query QUESTION --budget 10000";

const COUNTEREXAMPLE: &str = "env User Action::\"view\" Doc: counterexample ";

/// A policy under this condition.
pub fn policy_under(alloc: Global, condition: &str) -> Result<String, AllocError> {
    POLICY.replace(alloc, "CONDITION", condition)
}

/// Whether a question of two policy files ends so; many questions read the first alone.
pub fn is_answered<'t>(
    alloc: Global,
    schema: &'t str,
    question: &str,
    sets: (&'t str, &'t str),
    told: (u8, &str),
) -> Result<bool, AllocError> {
    let line = ANALYSES.replace(alloc, "QUESTION", question)?;
    let held = [
        ("s", schema.as_bytes()),
        ("p", sets.0.as_bytes()),
        ("a", sets.1.as_bytes()),
    ];
    ends(alloc, &line, &held, told)
}

/// Whether a question of policies under these conditions ends so.
pub fn is_told(
    alloc: Global,
    schema: &str,
    question: &str,
    conditions: (&str, &str),
    told: (u8, &str),
) -> Result<bool, AllocError> {
    let first = policy_under(alloc, conditions.0)?;
    let second = policy_under(alloc, conditions.1)?;
    is_answered(alloc, schema, question, (&first, &second), told)
}

/// The part of a line at a place, between semicolons. Where there are fewer it is empty.
pub fn part(line: &str, place: usize) -> &str {
    let mut left = place;
    for part in line.split(';') {
        if left == 0 {
            return part.trim();
        }
        left -= 1;
    }
    ""
}

/// Whether a question of policies under conditions holds. A line has the question and the one or two conditions.
pub fn holds(alloc: Global, schema: &str, line: &str) -> Result<bool, AllocError> {
    let conditions = (part(line, 1), part(line, 2));
    is_told(alloc, schema, part(line, 0), conditions, (0, HOLDS))
}

/// What is reported where there is a counterexample.
fn reported<'t>(
    alloc: Global,
    schema: &'t str,
    question: &str,
    sets: (&'t str, &'t str),
) -> Result<Vec<u8>, AllocError> {
    let line = ANALYSES.replace(alloc, "QUESTION", question)?;
    let held = [
        ("s", schema.as_bytes()),
        ("p", sets.0.as_bytes()),
        ("a", sets.1.as_bytes()),
    ];
    written(alloc, &line, &held, 1)
}

/// The world of a counterexample that is reported.
fn world_of(report: &[u8]) -> Option<&str> {
    let world = text_in(report).strip_prefix(COUNTEREXAMPLE)?;
    world.strip_suffix("\n")
}

/// What policies do in a world that is well-formed.
fn replayed<'t>(
    alloc: Global,
    schema: &'t str,
    policies: &'t str,
    world: &'t str,
) -> Result<Vec<u8>, AllocError> {
    let held = [
        ("s", schema.as_bytes()),
        ("p", policies.as_bytes()),
        ("w", world.as_bytes()),
    ];
    written(alloc, REPLAYS, &held, 0)
}

fn allows(replay: &str) -> bool {
    replay.ends_with("decision Allow\n")
}

fn denies(replay: &str) -> bool {
    replay.ends_with("decision Deny\n")
}

/// Whether what is asked fails where one policy does the first and another the second.
fn fails(question: &str, first: &str, second: &str) -> bool {
    match question {
        "never-errors" => first.contains("\npolicy0 errs "),
        "always-allows" => denies(first),
        "always-denies" => allows(first),
        "implies --against a" => allows(first) && denies(second),
        "equivalent --against a" => {
            allows(first) && denies(second) || denies(first) && allows(second)
        }
        "disjoint --against a" => allows(first) && allows(second),
        _ => false,
    }
}

/// Whether what is asked fails in this world.
fn fails_in<'t>(
    alloc: Global,
    schema: &'t str,
    question: &str,
    sets: (&'t str, &'t str),
    world: &'t str,
) -> Result<bool, AllocError> {
    let first = replayed(alloc, schema, sets.0, world)?;
    let second = replayed(alloc, schema, sets.1, world)?;
    Ok(fails(question, text_in(&first), text_in(&second)))
}

/// Whether each of these words, between spaces, stands in a text.
fn has_all(text: &str, words: &str) -> bool {
    for word in words.split(' ') {
        if !text.contains(word) {
            return false;
        }
    }
    true
}

/// Whether this world has all these words, and what is asked fails in it.
fn is_counterexample<'t>(
    alloc: Global,
    schema: &'t str,
    question: &str,
    sets: (&'t str, &'t str),
    world: &'t str,
    words: &str,
) -> Result<bool, AllocError> {
    if !has_all(world, words) {
        return Ok(false);
    }
    fails_in(alloc, schema, question, sets, world)
}

/// Whether there is a counterexample for these policies, in whose text all these words stand.
fn has_counterexample(
    alloc: Global,
    schema: &str,
    question: &str,
    sets: (&str, &str),
    words: &str,
) -> Result<bool, AllocError> {
    let report = reported(alloc, schema, question, sets)?;
    match world_of(&report) {
        Some(world) => is_counterexample(alloc, schema, question, sets, world, words),
        None => Ok(false),
    }
}

/// Whether a question of policies under conditions fails in the world that is reported. A line has the question,
/// two conditions and words of that world.
pub fn is_violated(alloc: Global, schema: &str, line: &str) -> Result<bool, AllocError> {
    let first = policy_under(alloc, part(line, 1))?;
    let second = policy_under(alloc, part(line, 2))?;
    has_counterexample(
        alloc,
        schema,
        part(line, 0),
        (&first, &second),
        part(line, 3),
    )
}
