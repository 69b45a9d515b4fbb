//! How many instances each rule has, and that each of them is found by an assignment that falsifies
//! just its own literals, and gives no other atom a value.

use crate::equations::problems::{problem, schema};
use sc_clauses::{Assignment, Clause, Instance, Lit, Word};
use sc_footprint::{Problem, Theory};
use sc_lists::{Seq, Text};
use sc_names::Lits;
use sc_schema::{Schema, environments};
use std::alloc::{AllocError, Global};
use th_equal::Equal;

// ---- an instance

fn words(alloc: Global, numbers: &[u64]) -> Result<Seq<Word>, AllocError> {
    let mut words = Seq::new(alloc);
    for number in numbers {
        words.push(Word::Number(*number))?;
    }
    Ok(words)
}

/// The instance of a rule at these numbers.
fn instance(alloc: Global, rule: &str, numbers: &[u64]) -> Result<Instance, AllocError> {
    let rule = Text::from_str(alloc, rule)?;
    let words = words(alloc, numbers)?;
    Ok(Instance { rule, words })
}

/// The value of an atom that makes the literal of the atom false.
fn value_against(literals: &[Lit], atom: u64) -> Option<bool> {
    for literal in literals {
        if literal.atom == atom {
            return Some(literal.negated);
        }
    }
    None
}

/// The values that falsify a clause, and no others.
fn against(alloc: Global, clause: &Clause, atoms: u64) -> Result<Assignment, AllocError> {
    let mut values = Seq::new(alloc);
    for before in 0..atoms {
        values.push(value_against(clause.as_slice(), before + 1))?;
    }
    Ok(Assignment::from_values(values))
}

/// Whether an instance of this rule is told in an assignment.
fn is_told(
    alloc: Global,
    problem: &Problem<'_>,
    rule: &str,
    m: &Assignment,
) -> Result<bool, AllocError> {
    match Equal.violated(alloc, problem, m)? {
        Some(told) => Ok(told.rule.as_str() == rule),
        None => Ok(false),
    }
}

/// Whether falsifying a clause is found under this rule.
fn is_found_against(
    alloc: Global,
    problem: &Problem<'_>,
    rule: &str,
    clause: &Clause,
) -> Result<bool, AllocError> {
    let m = against(alloc, clause, problem.atom_count())?;
    is_told(alloc, problem, rule, &m)
}

/// Whether a problem has an instance, and falsifying it is found under its rule.
fn is_found(
    alloc: Global,
    problem: &Problem<'_>,
    rule: &str,
    instance: &Instance,
) -> Result<bool, AllocError> {
    if !Equal.accepts(alloc, problem, instance)? {
        return Ok(false);
    }
    let clause = Equal.clause(alloc, problem, instance)?;
    is_found_against(alloc, problem, rule, &clause)
}

/// 1 where a rule has such an instance at these numbers, and else 0.
fn found(
    alloc: Global,
    problem: &Problem<'_>,
    rule: &str,
    numbers: &[u64],
) -> Result<u64, AllocError> {
    let instance = instance(alloc, rule, numbers)?;
    match is_found(alloc, problem, rule, &instance) {
        Ok(found) => Ok(u64::from(found)),
        Err(fault) => Err(fault),
    }
}

// ---- all instances of a rule, at as many numbers as are given, from 0 to one past the last closed term

fn found_third(
    alloc: Global,
    problem: &Problem<'_>,
    rule: &str,
    a: u64,
    b: u64,
) -> Result<u64, AllocError> {
    let mut count: u64 = 0;
    for c in 0..problem.closed_count() + 2 {
        count = count.wrapping_add(found(alloc, problem, rule, &[a, b, c])?);
    }
    Ok(count)
}

fn found_second(
    alloc: Global,
    problem: &Problem<'_>,
    rule: &str,
    size: u64,
    a: u64,
) -> Result<u64, AllocError> {
    let mut count: u64 = 0;
    for b in 0..problem.closed_count() + 2 {
        let more = if size == 2 {
            found(alloc, problem, rule, &[a, b])?
        } else {
            found_third(alloc, problem, rule, a, b)?
        };
        count = count.wrapping_add(more);
    }
    Ok(count)
}

fn found_in(
    alloc: Global,
    problem: &Problem<'_>,
    rule: &str,
    size: u64,
) -> Result<u64, AllocError> {
    let mut count: u64 = 0;
    for a in 0..problem.closed_count() + 2 {
        let more = if size == 1 {
            found(alloc, problem, rule, &[a])?
        } else {
            found_second(alloc, problem, rule, size, a)?
        };
        count = count.wrapping_add(more);
    }
    Ok(count)
}

fn count_under(alloc: Global, schema: &Schema, rule: &str, size: u64) -> Result<u64, AllocError> {
    let Some(env) = environments(schema).get(0) else {
        return Err(AllocError);
    };
    let literals = Lits::new(alloc);
    match problem(alloc, schema, env, &literals) {
        Ok(problem) => found_in(alloc, &problem, rule, size),
        Err(_) => Err(AllocError),
    }
}

/// How many instances a rule has with so many numbers. That the problem is over the limit counts as
/// want of memory.
fn count(alloc: Global, rule: &str, size: u64) -> Result<u64, AllocError> {
    let schema = schema(alloc)?;
    count_under(alloc, &schema, rule, size)
}

/// Rules, at how many numbers, and how many instances they have there.
///
/// Eight texts are closed: the two, the choice, of each record the one that it has and the one that it
/// may have, and the empty one, which stands where that isn't there. So the first rule has 8 * 7 * 6
/// instances. A rule on two records or options has them either way round, and none on one alone: what
/// it would say is always so.
const COUNTS: &[(&str, u64, u64)] = &[
    ("EQ1", 3, 336),
    // by the choice's condition
    ("EQ2", 2, 2),
    // of each of the two fields
    ("EQ3", 3, 4),
    ("EQ4", 2, 2),
    ("EQ5", 2, 2),
    ("EQ6", 2, 2),
    // of options that hold nothing, and such as hold equal values
    ("EQ7", 3, 4),
    ("EQ8", 1, 2),
    // at too few numbers or too many, and of no rule
    ("EQ1", 2, 0),
    ("EQ2", 3, 0),
    ("EQ3", 2, 0),
    ("EQ8", 2, 0),
    ("EQ9", 2, 0),
    ("SE8", 3, 0),
];

#[test]
fn instances(rt: HostRuntime) {
    for &(rule, size, expected) in COUNTS {
        assert!(rt;
            count(rt.alloc(), rule, size) == Ok(expected),
            "{rule} at {size}"
        );
    }
}
