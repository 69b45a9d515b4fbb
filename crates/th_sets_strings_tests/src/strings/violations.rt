//! Which instance an assignment falsifies.
use crate::strings::samples::{problem, schema};
use sc_clauses::Assignment;
use sc_footprint::{Problem, Theory};
use sc_lists::Seq;
use sc_names::Lits;
use sc_schema::{Schema, environments};
use sc_sorts::{BinaryOp, Node, UnaryOp};
use std::alloc::{AllocError, Global};
use th_strings::Strings;

/// Whether the first text matches, whether the second does, and whether they are equal.
type Truths = (Option<bool>, Option<bool>, Option<bool>);

/// Whether a term is the first text.
fn is_name(node: &Node) -> bool {
    match node {
        Node::One(UnaryOp::Field(name), _) => name.as_str() == "name",
        _ => false,
    }
}

/// The truth of an atom.
fn truth_of(problem: &Problem<'_>, atom: u64, truths: Truths) -> Option<bool> {
    if atom == 1 {
        return Some(true);
    }
    let term = problem.atom(atom)?;
    match problem.terms().node(term) {
        Node::One(UnaryOp::Like(_), text) => {
            if is_name(problem.terms().node(*text)) {
                truths.0
            } else {
                truths.1
            }
        }
        Node::Two(BinaryOp::Equal, _, _) => truths.2,
        _ => None,
    }
}

/// An assignment by these truths.
fn assignment(
    alloc: Global,
    problem: &Problem<'_>,
    truths: Truths,
) -> Result<Assignment, AllocError> {
    let mut values = Seq::new(alloc);
    for place in 0..problem.atom_count() {
        values.push(truth_of(problem, place + 1, truths))?;
    }
    Ok(Assignment::from_values(values))
}

/// Whether the rule that an assignment falsifies has this word, and none is falsified where the word is
/// empty.
fn is_told(
    alloc: Global,
    problem: &Problem<'_>,
    m: &Assignment,
    rule: &str,
) -> Result<bool, AllocError> {
    match Strings.violated(alloc, problem, m)? {
        Some(told) => Ok(told.rule.as_str() == rule),
        None => Ok(rule.is_empty()),
    }
}

/// The same of the assignment by these truths.
fn is_violated(
    alloc: Global,
    problem: &Problem<'_>,
    truths: Truths,
    rule: &str,
) -> Result<bool, AllocError> {
    let m = assignment(alloc, problem, truths)?;
    is_told(alloc, problem, &m, rule)
}

const YES: Option<bool> = Some(true);

const NO: Option<bool> = Some(false);

const ROWS: &[(Truths, &str)] = &[
    // both match the one text, and they are apart
    ((YES, YES, NO), "ST2"),
    // they may be equal
    ((YES, YES, None), ""),
    ((YES, YES, YES), ""),
    // one may be another text
    ((YES, None, NO), ""),
    ((YES, NO, NO), ""),
    // equal strings match the same patterns
    ((YES, NO, YES), "ST1"),
    ((NO, YES, YES), "ST1"),
    ((NO, None, YES), ""),
    ((NO, NO, NO), ""),
    ((None, None, None), ""),
];

/// Whether each row is right.
fn are_right_of(alloc: Global, problem: &Problem<'_>, rows: &[(Truths, &str)]) -> bool {
    for row in rows {
        if is_violated(alloc, problem, row.0, row.1) != Ok(true) {
            return false;
        }
    }
    true
}

fn are_right_under(alloc: Global, schema: &Schema) -> Result<bool, AllocError> {
    let Some(env) = environments(schema).get(0) else {
        return Err(AllocError);
    };
    let literals = Lits::new(alloc);
    match problem(alloc, schema, env, &literals) {
        Ok(problem) => Ok(are_right_of(alloc, &problem, ROWS)),
        Err(_) => Err(AllocError),
    }
}

fn are_right(alloc: Global) -> bool {
    match schema(alloc) {
        Ok(schema) => are_right_under(alloc, &schema) == Ok(true),
        Err(_) => false,
    }
}

#[test]
fn violations(rt: HostRuntime) {
    assert!(rt; are_right(rt.alloc()));
}
