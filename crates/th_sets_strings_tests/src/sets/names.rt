//! Closed terms and atoms of a problem by names. An attribute of the context has its own; `x, y` is the
//! set that is written, `tag x` the tag under `x`, and `keys` are those of all tags; `s without t` is the
//! member that is picked of what `t` lacks of `s`, and `shared` the one that is picked of what two sets
//! have in common.
//!
//! A fact says of two terms that they are equal, `a = b`, or that the first is a member of the second,
//! `a in b`, is within it, `a <= b`, or shares a member with it, `a & b`. With `not ` before it that is
//! false, or negated as a literal of a clause. What says that a term equals itself is the atom that is
//! always true. Several facts have `; ` between them; `others` behind them are all atoms of which none
//! of them is, and `nothing` stands for no facts.
ghost use Rattle.std.specs.Prelude.{◌<◌, length};

use sc_clauses::Lit;
use sc_footprint::Problem;
use sc_sorts::{BinaryOp, Leaf, Literal, ManyOp, Node, UnaryOp};

// ---- terms

/// Whether a term is the attribute of this name, or the set that is written under it.
fn is_simple(problem: &Problem<'_>, at: u64, name: &str) -> bool
    requires { at < length problem.now.nodes }
{
    match problem.terms().node(at) {
        Node::One(UnaryOp::Field(own), _) => own.as_str() == name,
        Node::Many(ManyOp::Set(_), _) => name == "x, y",
        _ => false,
    }
}

/// Whether a name is that of what one set has without another.
fn is_difference(problem: &Problem<'_>, name: &str, of: u64, without: u64) -> bool
    requires of { of < length problem.now.nodes }
    requires without { without < length problem.now.nodes }
{
    match name.split_once(" without ") {
        Some((first, second)) => is_simple(problem, of, first)
            && is_simple(problem, without, second),
        None => false,
    }
}

/// Whether a name is that of the tag under a key.
fn is_tag(problem: &Problem<'_>, name: &str, key: u64) -> bool
    requires { key < length problem.now.nodes }
{
    match name.strip_prefix("tag ") {
        Some(text) => is_simple(problem, key, text),
        None => false,
    }
}

/// Whether a term has this name.
fn is_named(problem: &Problem<'_>, at: u64, name: &str) -> bool
    requires { at < length problem.now.nodes }
{
    match problem.terms().node(at) {
        Node::Leaf(Leaf::Literal(Literal::Bool(truth))) => *truth && name == "true",
        Node::Leaf(Leaf::Context(_)) => name == "context",
        Node::One(UnaryOp::Field(own), _) => own.as_str() == name,
        Node::Two(BinaryOp::DifferencePick, of, without) => {
            is_difference(problem, name, *of, *without)
        }
        Node::Two(BinaryOp::CommonPick, _, _) => name == "shared",
        Node::Two(BinaryOp::Tag(_), _, key) => is_tag(problem, name, *key),
        Node::One(UnaryOp::Keys, _) => name == "keys",
        Node::Many(ManyOp::Set(_), _) => name == "x, y",
        _ => false,
    }
}

/// Whether the closed term of a number has this name.
fn is_number_of(problem: &Problem<'_>, n: u64, name: &str) -> bool {
    match problem.term(n) {
        Some(at) => is_named(problem, at, name),
        None => false,
    }
}

/// The number that is meant: a plain one as it is written, `past` of the one past all closed terms, and
/// otherwise that of the closed term of this name.
pub(crate) fn number(problem: &Problem<'_>, name: &str) -> Option<u64> {
    if let Ok(plain) = name.parse::<u64>() {
        return Some(plain);
    }
    let count = problem.closed_count();
    if name == "past" {
        return Some(count + 1);
    }
    for before in 0..count {
        if is_number_of(problem, before + 1, name) {
            return Some(before + 1);
        }
    }
    None
}

// ---- facts

/// What a list begins with, and what stands behind the separator, if there is more.
pub(crate) fn first_of<'t>(list: &'t str, separator: &str) -> (&'t str, Option<&'t str>) {
    match list.split_once(separator) {
        Some((first, rest)) => (first, Some(rest)),
        None => (list, None),
    }
}

/// What a fact says, and whether that is so.
fn said_by(fact: &str) -> (&str, bool) {
    match fact.strip_prefix("not ") {
        Some(said) => (said, false),
        None => (fact, true),
    }
}

fn are_named(problem: &Problem<'_>, a: u64, b: u64, names: Option<(&str, &str)>) -> bool
    requires a { a < length problem.now.nodes }
    requires b { b < length problem.now.nodes }
{
    match names {
        Some((first, second)) => is_named(problem, a, first) && is_named(problem, b, second),
        None => false,
    }
}

/// Whether it is said that two terms are equal.
fn are_equal(problem: &Problem<'_>, a: u64, b: u64, said: &str) -> bool
    requires a { a < length problem.now.nodes }
    requires b { b < length problem.now.nodes }
{
    let names = said.split_once(" = ");
    are_named(problem, a, b, names) || are_named(problem, b, a, names)
}

/// Whether it is said that a term equals itself.
fn is_of_itself(said: &str) -> bool {
    match said.split_once(" = ") {
        Some((first, second)) => first == second,
        None => false,
    }
}

/// Whether an atom says this.
fn says(problem: &Problem<'_>, at: u64, said: &str) -> bool
    requires { at < length problem.now.nodes }
{
    match problem.terms().node(at) {
        Node::Leaf(Leaf::Literal(Literal::Bool(truth))) => *truth && is_of_itself(said),
        Node::Two(BinaryOp::Equal, a, b) => are_equal(problem, *a, *b, said),
        Node::Two(BinaryOp::Member, a, b) => are_named(problem, *a, *b, said.split_once(" in ")),
        Node::Two(BinaryOp::Subset, a, b) => are_named(problem, *a, *b, said.split_once(" <= ")),
        Node::Two(BinaryOp::Common, a, b) => are_named(problem, *a, *b, said.split_once(" & ")),
        _ => false,
    }
}

/// The truth that facts give an atom.
pub(crate) fn truth_in(problem: &Problem<'_>, facts: &str, atom: u64) -> Option<bool> {
    let Some(at) = problem.atom(atom) else {
        return None;
    };
    for fact in facts.split("; ") {
        let (said, truth) = said_by(fact);
        if said == "others" || says(problem, at, said) {
            return Some(truth);
        }
    }
    None
}

/// Whether the atom of a number says this.
fn is_atom(problem: &Problem<'_>, atom: u64, said: &str) -> bool {
    match problem.atom(atom) {
        Some(at) => says(problem, at, said),
        None => false,
    }
}

/// Whether some atom says this.
fn is_listed(problem: &Problem<'_>, said: &str) -> bool {
    (0..problem.atom_count()).any(|before| is_atom(problem, before + 1, said))
}

/// Whether facts are of atoms.
pub(crate) fn are_atoms(problem: &Problem<'_>, facts: &str) -> bool {
    for fact in facts.split("; ") {
        let (said, _) = said_by(fact);
        if said != "others" && said != "nothing" && !is_listed(problem, said) {
            return false;
        }
    }
    true
}

/// Whether a literal is this fact.
pub(crate) fn is_literal(problem: &Problem<'_>, literal: Lit, fact: &str) -> bool {
    let (said, truth) = said_by(fact);
    is_atom(problem, literal.atom, said) && literal.negated != truth
}
