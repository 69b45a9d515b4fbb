//! The clauses that define the problems of goals, and these clauses as the instances of a theory.
//! The atoms are `true`, which has the number 1, then the goal where it is a connective, and last
//! `a` and `b`.

use crate::problems::{Question, is_lit, is_so};
use crate::schemas::USER_DOC;
use sc_clauses::{Assignment, Clauses, Instance, Lit, Word};
use sc_footprint::{Problem, Theory};
use sc_lists::{Seq, Text};
use std::alloc::{AllocError, Global};
use std::test::Fail;
use th_defs::{Defs, defining};

// ---- defining clauses

fn is_clause(lits: &[Lit], numbers: &[i64]) -> bool {
    lits.len() == numbers.len()
        && lits
            .iter()
            .zip(numbers.iter())
            .all(|pair| is_lit(*pair.0, *pair.1))
}

fn has_clause(clauses: &Clauses, place: usize, numbers: &[i64]) -> bool {
    match clauses.get(place) {
        Some(lits) => is_clause(lits, numbers),
        None => false,
    }
}

fn are_clauses(clauses: &Clauses, wanted: &[&[i64]]) -> bool {
    if clauses.len() != wanted.len() {
        return false;
    }
    for place in 0..wanted.len() {
        if !has_clause(clauses, place, wanted[place]) {
            return false;
        }
    }
    true
}

/// Whether these clauses, each by its literals, define a problem.
#[derive(Drop)]
struct DefinedBy<'r> {
    clauses: &'r [&'r [i64]],
}

impl Question for DefinedBy<'_> {
    fn ask(&self, alloc: Global, problem: &Problem<'_>) -> Result<bool, AllocError> {
        let clauses = defining(alloc, problem)?;
        Ok(are_clauses(&clauses, self.clauses))
    }
}

/// Goals, and the clauses that define their problems.
const DEFINITIONS: &[(&str, &[&[i64]])] = &[
    // the goal is the last clause
    ("f", &[&[1], &[-1]]),
    // the rows of `&` and of `|`
    (
        "ab&",
        &[
            &[1],
            &[3, 4, -2],
            &[3, -4, -2],
            &[-3, 4, -2],
            &[-3, -4, 2],
            &[2],
        ],
    ),
    (
        "ab|",
        &[
            &[1],
            &[3, 4, -2],
            &[3, -4, 2],
            &[-3, 4, 2],
            &[-3, -4, 2],
            &[2],
        ],
    ),
    // tautologies are left out
    ("aa!&", &[&[1], &[3, 3, -2], &[-3, -3, -2], &[2]]),
];

#[test]
fn clauses_that_define(rt: HostRuntime) -> Result<(), Fail> {
    for &(goal, clauses) in DEFINITIONS {
        let so = is_so(rt.alloc(), USER_DOC, goal, &DefinedBy { clauses });
        assert!(rt; so, "{goal}");
    }
    Ok(())
}

// ---- instances

/// Whether a number under a rule is an instance, or isn't.
#[derive(Drop)]
struct IsInstance<'r> {
    rule: &'r str,
    number: u64,
    wanted: bool,
}

/// The word of a number.
fn words(alloc: Global, number: u64) -> Result<Seq<Word>, AllocError> {
    let mut words = Seq::new(alloc);
    words.push(Word::Number(number))?;
    Ok(words)
}

fn instance(alloc: Global, rule: &str, number: u64) -> Result<Instance, AllocError> {
    let rule = Text::from_str(alloc, rule)?;
    let words = words(alloc, number)?;
    Ok(Instance { rule, words })
}

/// Whether it is told of an instance that it is one, or that it isn't.
fn is_accepted(
    alloc: Global,
    problem: &Problem<'_>,
    instance: &Instance,
    wanted: bool,
) -> Result<bool, AllocError> {
    let found = Defs.accepts(alloc, problem, instance)?;
    Ok(found == wanted)
}

impl Question for IsInstance<'_> {
    fn ask(&self, alloc: Global, problem: &Problem<'_>) -> Result<bool, AllocError> {
        let instance = instance(alloc, self.rule, self.number)?;
        is_accepted(alloc, problem, &instance, self.wanted)
    }
}

/// Rules, numbers, and whether they are instances where the goal is `a && b`.
const INSTANCES: &[(&str, u64, bool)] = &[
    ("", 1, true),
    ("", 0, false),
    // the goal is no instance
    ("", 6, false),
    // the rule has no word
    ("EQ1", 1, false),
];

#[test]
fn instances(rt: HostRuntime) -> Result<(), Fail> {
    for &(rule, number, wanted) in INSTANCES {
        let question = IsInstance {
            rule,
            number,
            wanted,
        };
        let so = is_so(rt.alloc(), USER_DOC, "ab&", &question);
        assert!(rt; so, "{rule} {number}");
    }
    Ok(())
}

// ---- falsified instances

/// Which instance these values of the atoms falsify, by its number; 0 stands for none.
#[derive(Drop)]
struct Falsifies<'r> {
    values: &'r [bool],
    number: u64,
}

fn assignment(alloc: Global, values: &[bool]) -> Result<Assignment, AllocError> {
    let mut assigned = Seq::new(alloc);
    for value in values {
        assigned.push(Some(*value))?;
    }
    Ok(Assignment::from_values(assigned))
}

fn number_of(instance: &Option<Instance>) -> u64 {
    let Some(instance) = instance else {
        return 0;
    };
    match instance.words.get(0) {
        Some(Word::Number(number)) => *number,
        _ => 0,
    }
}

fn falsified(alloc: Global, problem: &Problem<'_>, m: &Assignment) -> Result<u64, AllocError> {
    let found = Defs.violated(alloc, problem, m)?;
    Ok(number_of(&found))
}

impl Question for Falsifies<'_> {
    fn ask(&self, alloc: Global, problem: &Problem<'_>) -> Result<bool, AllocError> {
        let m = assignment(alloc, self.values)?;
        Ok(falsified(alloc, problem, &m)? == self.number)
    }
}

/// Values of the atoms, and the instance that they falsify where the goal is `a && b`.
const FALSIFIED: &[(&[bool], u64)] = &[
    // the least one
    (&[true, true, false, true], 3),
    // the goal is no instance
    (&[true, false, false, true], 0),
];

#[test]
fn falsified_instances(rt: HostRuntime) -> Result<(), Fail> {
    for &(values, number) in FALSIFIED {
        let so = is_so(rt.alloc(), USER_DOC, "ab&", &Falsifies { values, number });
        assert!(rt; so, "{number}");
    }
    Ok(())
}
