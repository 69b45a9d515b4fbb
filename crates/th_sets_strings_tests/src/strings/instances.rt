//! Which instances a problem has. An instance is written as `ST2: + name nick`: a rule, its signs where
//! it has some, and the terms that it is applied to.

use crate::strings::samples::{problem, schema};
use sc_clauses::{Instance, Word};
use sc_footprint::{Problem, Theory};
use sc_lists::{Seq, Text};
use sc_names::Lits;
use sc_schema::{Schema, environments};
use sc_sorts::{Leaf, Node, UnaryOp};
use std::alloc::{AllocError, Global};
use th_strings::Strings;

// ---- terms

/// Whether a node is the one of this name: an attribute of the context has its own, and `truth` is
/// whether a text matches.
fn is_named(node: &Node, name: &str) -> bool {
    match node {
        Node::One(UnaryOp::Field(own), _) => own.as_str() == name,
        Node::One(UnaryOp::Like(_), _) => name == "truth",
        Node::Leaf(Leaf::Context(_)) => name == "context",
        _ => false,
    }
}

/// Whether the closed term of a number has this name.
fn is_number_of(problem: &Problem<'_>, n: u64, name: &str) -> bool {
    match problem.term(n) {
        Some(at) => is_named(problem.terms().node(at), name),
        None => false,
    }
}

/// The number that is meant: a plain one, which is that of a pattern, as it is written, otherwise that of
/// the closed term of this name, and one past all where there is none.
fn number(problem: &Problem<'_>, name: &str) -> u64 {
    if let Ok(plain) = name.parse::<u64>() {
        return plain;
    }
    let count = problem.closed_count();
    for before in 0..count {
        if is_number_of(problem, before + 1, name) {
            return before + 1;
        }
    }
    count + 1
}

// ---- an instance

fn is_of_signs(text: &str) -> bool {
    text.starts_with('+') || text.starts_with('-') || text.starts_with('.')
}

fn signs(alloc: Global, text: &str) -> Result<Seq<Option<bool>>, AllocError> {
    let mut signs = Seq::new(alloc);
    for sign in text.as_bytes() {
        signs.push(match *sign {
            b'+' => Some(true),
            b'-' => Some(false),
            _ => None,
        })?;
    }
    Ok(signs)
}

fn word(alloc: Global, problem: &Problem<'_>, text: &str) -> Result<Word, AllocError> {
    if is_of_signs(text) {
        Ok(Word::Signs(signs(alloc, text)?))
    } else {
        Ok(Word::Number(number(problem, text)))
    }
}

fn words(alloc: Global, problem: &Problem<'_>, written: &str) -> Result<Seq<Word>, AllocError> {
    let mut words = Seq::new(alloc);
    for text in written.split(' ') {
        words.push(word(alloc, problem, text)?)?;
    }
    Ok(words)
}

/// The instance of a rule at these words.
fn instance(
    alloc: Global,
    problem: &Problem<'_>,
    rule: &str,
    written: &str,
) -> Result<Instance, AllocError> {
    let words = words(alloc, problem, written)?;
    let rule = Text::from_str(alloc, rule)?;
    Ok(Instance { rule, words })
}

/// Whether the problem has the instance of a rule at these words.
fn accepts(
    alloc: Global,
    problem: &Problem<'_>,
    rule: &str,
    written: &str,
) -> Result<bool, AllocError> {
    let instance = instance(alloc, problem, rule, written)?;
    Strings.accepts(alloc, problem, &instance)
}

/// The same of an instance that is written. That it isn't one counts as want of memory.
fn is_accepted(alloc: Global, problem: &Problem<'_>, written: &str) -> Result<bool, AllocError> {
    match written.split_once(": ") {
        Some((rule, words)) => accepts(alloc, problem, rule, words),
        None => Err(AllocError),
    }
}

// ---- instances of the problem

/// Instances that the problem has.
const ACCEPTED: &str = "# two strings, and one text that matches
ST2: + name nick
ST3: + name nick
ST2: + nick name
# equal strings match the same patterns
ST1: name nick 0
ST1: nick name 0";

/// Instances that it doesn't have.
const REFUSED: &str = "# just as many strings as texts
ST2: + name
# many texts don't match
ST2: - name nick
ST3: . name nick
# ST2 asks each pattern
ST2: . name nick
# a sign too many, or none
ST2: ++ name nick
ST3: +. name nick
ST2: name nick
# one string twice: the equation is true
ST2: + name name
# no string, no term, no rule
ST2: + name context
ST2: + name truth
ST2: + name nothing
ST4: + name nick
# equal strings match the same patterns
ST1: name name 0
ST1: name nick 1
ST1: name nothing 0
ST1: name context 0
ST1: + name nick 0";

/// Whether the problem has each of the instances, or none of them. A line behind `#` is a heading.
fn are_accepted(alloc: Global, problem: &Problem<'_>, instances: &str, accepted: bool) -> bool {
    for line in instances.lines() {
        if !line.starts_with('#') && is_accepted(alloc, problem, line) != Ok(accepted) {
            return false;
        }
    }
    true
}

fn are_right_under(alloc: Global, schema: &Schema) -> Result<bool, AllocError> {
    let Some(env) = environments(schema).get(0) else {
        return Err(AllocError);
    };
    let literals = Lits::new(alloc);
    match problem(alloc, schema, env, &literals) {
        Ok(problem) => Ok(
            are_accepted(alloc, &problem, ACCEPTED, true)
                && are_accepted(alloc, &problem, REFUSED, false),
        ),
        Err(_) => Err(AllocError),
    }
}

/// Whether each of the instances is right.
fn are_right(alloc: Global) -> bool {
    match schema(alloc) {
        Ok(schema) => are_right_under(alloc, &schema) == Ok(true),
        Err(_) => false,
    }
}

#[test]
fn instances(rt: HostRuntime) {
    assert!(rt; are_right(rt.alloc()));
}
