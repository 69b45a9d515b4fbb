//! Closed terms and atoms of a problem by names. An attribute of the context, a declared action and a choice of an
//! enumerated type have their own, `choice` is what is chosen of two entities by a flag, and what is stored of an entity is, as `keys of other`, of that entity. A
//! place of its attributes is `vip of other`, `city of held of home of other`, where `held` is what an option holds;
//! what is asked of a place is `bit 3 of level of other` or `presence of home of other`.
//!
//! A fact says of two terms that they are equal, `a = b`, or that the first is a member of the second,
//! `a in b`, or of one that it is so, `a is so`. With `not ` before it that is false, or negated as a
//! literal of a clause. What says that a term equals itself is the atom that is always true. Several facts
//! have `; ` between them; `others` behind them are all atoms of which none of them is, and `nothing`
//! stands for no facts.
ghost use Rattle.std.specs.Prelude.{◌<◌, length, IfSome};

use sc_clauses::Lit;
use sc_footprint::Problem;
use sc_sorts::{BinaryOp, Leaf, Literal, Node, UnaryOp};

// ---- terms

/// Whether a term, of no entity, has this name.
fn is_own_name(problem: &Problem<'_>, at: u64, name: &str) -> bool
    requires { at < length problem.now.nodes }
{
    match problem.terms().node(at) {
        Node::Leaf(Leaf::Literal(Literal::Bool(truth))) => *truth && name == "true",
        Node::Leaf(Leaf::Literal(Literal::Entity(uid, _))) => uid.id.as_str() == name,
        Node::Leaf(Leaf::Principal(_)) => name == "principal",
        Node::Leaf(Leaf::Resource(_)) => name == "resource",
        Node::Leaf(Leaf::Context(_)) => name == "context",
        Node::One(UnaryOp::Field(own), _) => own.as_str() == name,
        Node::Choice(_, _, _) => name == "choice",
        _ => false,
    }
}

/// Whether a term is the attributes of the entity of this name.
fn are_attributes(problem: &Problem<'_>, at: u64, owner: &str) -> bool
    requires { at < length problem.now.nodes }
{
    match problem.terms().node(at) {
        Node::One(UnaryOp::Attributes(_), entity) => is_own_name(problem, *entity, owner),
        _ => false,
    }
}

/// What a term is one step into, and the name of that, where a name is that of a field or of what an option holds.
fn step<'t>(problem: &Problem<'_>, at: u64, name: &'t str) -> Option<(u64, &'t str)>
    requires { at < length problem.now.nodes }
    ensures { IfSome result (λ r. r.0 < length problem.now.nodes) }
{
    let (what, owner) = name.split_once(" of ")?;
    match problem.terms().node(at) {
        Node::One(UnaryOp::Field(own), part) if own.as_str() == what => Some((*part, owner)),
        Node::One(UnaryOp::Held, part) if what == "held" => Some((*part, owner)),
        _ => None,
    }
}

/// Whether a term is the place of this name of attributes.
fn is_place(problem: &Problem<'_>, at: u64, name: &str) -> bool
    requires { at < length problem.now.nodes }
{
    let mut term = at;
    let mut rest = name;
    for _ in 0..8 {
        let Some((part, owner)) = step(problem, term, rest) else {
            return are_attributes(problem, term, rest);
        };
        term = part;
        rest = owner;
    }
    false
}

/// Whether a term is what is stored of the entity of this name, or what is asked of a place of this name.
fn is_stored_of(problem: &Problem<'_>, at: u64, what: &str, owner: &str) -> bool
    requires { at < length problem.now.nodes }
{
    match problem.terms().node(at) {
        Node::One(UnaryOp::Attributes(_), entity) => {
            what == "attributes" && is_own_name(problem, *entity, owner)
        }
        Node::One(UnaryOp::Ancestors(_), entity) => {
            what == "ancestors" && is_own_name(problem, *entity, owner)
        }
        Node::One(UnaryOp::Keys, entity) => what == "keys" && is_own_name(problem, *entity, owner),
        Node::One(UnaryOp::Present, option) => {
            what == "presence" && is_place(problem, *option, owner)
        }
        Node::One(UnaryOp::Bit(i), number) => {
            is_bit(what, *i) && is_place(problem, *number, owner)
        }
        Node::Two(BinaryOp::Tag(_), entity, _) => {
            what == "tag" && is_own_name(problem, *entity, owner)
        }
        _ => false,
    }
}

/// Whether a word is that of a bit.
fn is_bit(what: &str, i: u64) -> bool {
    match what.strip_prefix("bit ") {
        Some(place) => match place.parse::<u64>() {
            Ok(plain) => plain == i,
            Err(_) => false,
        },
        None => false,
    }
}

/// Whether a term has this name.
fn is_named(problem: &Problem<'_>, at: u64, name: &str) -> bool
    requires { at < length problem.now.nodes }
{
    match name.split_once(" of ") {
        Some((what, owner)) => {
            is_stored_of(problem, at, what, owner) || is_place(problem, at, name)
        }
        None => is_own_name(problem, at, name),
    }
}

/// Whether the closed term of a number has this name.
fn is_number_of(problem: &Problem<'_>, n: u64, name: &str) -> bool {
    match problem.term(n) {
        Some(at) => is_named(problem, at, name),
        None => false,
    }
}

/// The number that is meant: a plain one as it is written, `past` of the one past all closed terms, and
/// otherwise that of the closed term of this name.
pub(crate) fn number(problem: &Problem<'_>, name: &str) -> Option<u64> {
    if let Ok(plain) = name.parse::<u64>() {
        return Some(plain);
    }
    let count = problem.closed_count();
    if name == "past" {
        return Some(count + 1);
    }
    for before in 0..count {
        if is_number_of(problem, before + 1, name) {
            return Some(before + 1);
        }
    }
    None
}

// ---- facts

/// What a list begins with, and what stands behind the separator, if there is more.
pub(crate) fn first_of<'t>(list: &'t str, separator: &str) -> (&'t str, Option<&'t str>) {
    match list.split_once(separator) {
        Some((first, rest)) => (first, Some(rest)),
        None => (list, None),
    }
}

/// What a fact says, and whether that is so.
fn said_by(fact: &str) -> (&str, bool) {
    match fact.strip_prefix("not ") {
        Some(said) => (said, false),
        None => (fact, true),
    }
}

fn are_named(problem: &Problem<'_>, a: u64, b: u64, names: Option<(&str, &str)>) -> bool
    requires a { a < length problem.now.nodes }
    requires b { b < length problem.now.nodes }
{
    match names {
        Some((first, second)) => is_named(problem, a, first) && is_named(problem, b, second),
        None => false,
    }
}

/// Whether it is said that two terms are equal.
fn are_equal(problem: &Problem<'_>, a: u64, b: u64, said: &str) -> bool
    requires a { a < length problem.now.nodes }
    requires b { b < length problem.now.nodes }
{
    let names = said.split_once(" = ");
    are_named(problem, a, b, names) || are_named(problem, b, a, names)
}

/// Whether it is said that a term equals itself.
fn is_of_itself(said: &str) -> bool {
    match said.split_once(" = ") {
        Some((first, second)) => first == second,
        None => false,
    }
}

/// Whether it is said of a term that it is so.
fn is_so(problem: &Problem<'_>, at: u64, said: &str) -> bool
    requires { at < length problem.now.nodes }
{
    match said.strip_suffix(" is so") {
        Some(name) => is_named(problem, at, name),
        None => false,
    }
}

/// Whether an atom says this.
fn says(problem: &Problem<'_>, at: u64, said: &str) -> bool
    requires { at < length problem.now.nodes }
{
    match problem.terms().node(at) {
        Node::Leaf(Leaf::Literal(Literal::Bool(truth))) => *truth && is_of_itself(said),
        Node::Two(BinaryOp::Equal, a, b) => are_equal(problem, *a, *b, said),
        Node::Two(BinaryOp::Member, a, b) => are_named(problem, *a, *b, said.split_once(" in ")),
        _ => is_so(problem, at, said),
    }
}

/// The truth that facts give an atom.
pub(crate) fn truth_in(problem: &Problem<'_>, facts: &str, atom: u64) -> Option<bool> {
    let Some(at) = problem.atom(atom) else {
        return None;
    };
    for fact in facts.split("; ") {
        let (said, truth) = said_by(fact);
        if said == "others" || says(problem, at, said) {
            return Some(truth);
        }
    }
    None
}

/// Whether the atom of a number says this.
fn is_atom(problem: &Problem<'_>, atom: u64, said: &str) -> bool {
    match problem.atom(atom) {
        Some(at) => says(problem, at, said),
        None => false,
    }
}

/// Whether some atom says this.
fn is_listed(problem: &Problem<'_>, said: &str) -> bool {
    (0..problem.atom_count()).any(|before| is_atom(problem, before + 1, said))
}

/// Whether facts are of atoms.
pub(crate) fn are_atoms(problem: &Problem<'_>, facts: &str) -> bool {
    for fact in facts.split("; ") {
        let (said, _) = said_by(fact);
        if said != "others" && said != "nothing" && !is_listed(problem, said) {
            return false;
        }
    }
    true
}

/// Whether a literal is this fact.
pub(crate) fn is_literal(problem: &Problem<'_>, literal: Lit, fact: &str) -> bool {
    let (said, truth) = said_by(fact);
    is_atom(problem, literal.atom, said) && literal.negated != truth
}
