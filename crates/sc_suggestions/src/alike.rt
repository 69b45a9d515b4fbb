//! Instances of EN1 and EN3: like places of the attributes of entities that are known to be equal, and of their tags
//! under keys that are, where what is known of one of them tells something of the other.

ghost use Rattle.std.specs.Prelude.{◌<◌, length};

use crate::known::{Known, tell_equation};
use crate::places::{Place, Span, is_at_place, places, spans};
use crate::told::Tolds;
use sc_clauses::{Instance, Lit};
use sc_footprint::Problem;
use sc_rule_instances::{EntityRule, equal, find, literal_if, member, present, write_entity};
use sc_sorts::{BinaryOp, Node, Sort, UnaryOp};
use std::alloc::{AllocError, Global};
use th_entities_instances::roots;

/// What is known, and the memberships among it.
#[derive(Clone, Copy)]
struct Look<'a> {
    known: &'a Known,
    tolds: &'a Tolds,
}

/// Two like places, by the numbers of closed terms, and whether they are of tags.
#[derive(Clone, Copy)]
struct Pair {
    tags: bool,
    first: u64,
    second: u64,
}

impl Pair {
    fn turned(self) -> Pair {
        Pair {
            tags: self.tags,
            first: self.second,
            second: self.first,
        }
    }

    fn rule(self, i: u64) -> EntityRule {
        if self.tags {
            EntityRule::En3(self.first, self.second, i)
        } else {
            EntityRule::En1(self.first, self.second, i)
        }
    }
}

// ---- what a half may give

/// Whether the second is to be so if the first is, and one of them tells of the other.
fn is_due(first: Option<bool>, second: Option<bool>) -> bool {
    match first {
        Some(true) => second != Some(true),
        None => second == Some(false),
        Some(false) => false,
    }
}

/// Puts the two halves by which two literals are alike, as far as they may give something.
fn put_halves(
    alloc: Global,
    look: &Look<'_>,
    pair: Pair,
    i: u64,
    lits: (Lit, Lit),
    found: &mut Vec<Instance>,
) -> Result<(), AllocError> {
    let (one, other) = lits;
    if one.atom == 0 || other.atom == 0 {
        return Ok(());
    }
    let first = look.known.literal_truth(one);
    let second = look.known.literal_truth(other);
    if is_due(first, second) {
        found.push(write_entity(alloc, pair.rule(i))?)?;
    }
    if is_due(second, first) {
        found.push(write_entity(alloc, pair.turned().rule(i))?)?;
    }
    Ok(())
}

/// The literal of a bit.
fn bit_literal(problem: &Problem<'_>, term: u64, i: u64) -> Lit
    requires { term < length problem.now.nodes }
{
    problem.laws();
    literal_if(problem, find(problem, Node::One(UnaryOp::Bit(i), term)))
}

/// Puts those of two numbers, by their bits.
fn put_bits(
    alloc: Global,
    problem: &Problem<'_>,
    look: &Look<'_>,
    pair: Pair,
    terms: (u64, u64),
    count: u64,
    found: &mut Vec<Instance>,
) -> Result<(), AllocError>
    requires first { terms.0 < length problem.now.nodes }
    requires second { terms.1 < length problem.now.nodes }
{
    for i in 0..count {
        let one = bit_literal(problem, terms.0, i);
        let other = bit_literal(problem, terms.1, i);
        put_halves(alloc, look, pair, i, (one, other), found)?;
    }
    Ok(())
}

/// Puts those of two sets, by what is known of the members of the first.
fn put_members(
    alloc: Global,
    problem: &Problem<'_>,
    look: &Look<'_>,
    pair: Pair,
    found: &mut Vec<Instance>,
) -> Result<(), AllocError> {
    for told in look.tolds.of_set(pair.first) {
        put_member(alloc, problem, look, pair, told.candidate, found)?;
    }
    Ok(())
}

/// Puts those of two sets for one candidate.
fn put_member(
    alloc: Global,
    problem: &Problem<'_>,
    look: &Look<'_>,
    pair: Pair,
    number: u64,
    found: &mut Vec<Instance>,
) -> Result<(), AllocError> {
    let Some(candidate) = problem.term(number) else {
        return Ok(());
    };
    let Some(first) = problem.term(pair.first) else {
        return Ok(());
    };
    let Some(second) = problem.term(pair.second) else {
        return Ok(());
    };
    let one = member(problem, candidate, first);
    let other = member(problem, candidate, second);
    put_halves(alloc, look, pair, number, (one, other), found)
}

/// Puts the instance by which two strings or two entities are equal, if that isn't known.
fn put_equation(
    alloc: Global,
    look: &Look<'_>,
    pair: Pair,
    lit: Lit,
    found: &mut Vec<Instance>,
) -> Result<(), AllocError> {
    if lit.atom == 0 || look.known.literal_truth(lit) == Some(true) {
        return Ok(());
    }
    found.push(write_entity(alloc, pair.rule(0))?)?;
    Ok(())
}

// ---- like places

/// Puts the instances of two like places.
fn put_pair(
    alloc: Global,
    problem: &Problem<'_>,
    look: &Look<'_>,
    pair: Pair,
    terms: (u64, u64),
    found: &mut Vec<Instance>,
) -> Result<(), AllocError>
    requires first { terms.0 < length problem.now.nodes }
    requires second { terms.1 < length problem.now.nodes }
{
    let (x, y) = terms;
    match problem.terms().sort(x) {
        Sort::Bool => {
            let lits = (problem.literal(x), problem.literal(y));
            put_halves(alloc, look, pair, 0, lits, found)
        }
        Sort::Option(_) => {
            let lits = (present(problem, x), present(problem, y));
            put_halves(alloc, look, pair, 0, lits, found)
        }
        Sort::String | Sort::Entity(_, _) => {
            put_equation(alloc, look, pair, equal(problem, x, y), found)
        }
        Sort::Long | Sort::Decimal => put_bits(alloc, problem, look, pair, terms, 64, found),
        Sort::Ip => put_bits(alloc, problem, look, pair, terms, 257, found),
        Sort::Set(_) => {
            put_members(alloc, problem, look, pair, found)?;
            put_members(alloc, problem, look, pair.turned(), found)
        }
        Sort::Record(_) => Ok(()),
    }
}

/// Puts the instances of two places, if these are like ones.
fn put_if_like(
    alloc: Global,
    problem: &Problem<'_>,
    look: &Look<'_>,
    pair: Pair,
    linked: (u64, u64),
    found: &mut Vec<Instance>,
) -> Result<(), AllocError> {
    let Some(x) = problem.term(pair.first) else {
        return Ok(());
    };
    let Some(y) = problem.term(pair.second) else {
        return Ok(());
    };
    let (r, q) = roots(problem, x, y);
    if r == linked.0 && q == linked.1 {
        return put_pair(alloc, problem, look, pair, (x, y), found);
    }
    Ok(())
}

/// Puts the instances of the places of two roots.
fn put_between(
    alloc: Global,
    problem: &Problem<'_>,
    look: &Look<'_>,
    tags: bool,
    linked: (u64, u64),
    run: &[Place],
    others: &[Place],
    found: &mut Vec<Instance>,
) -> Result<(), AllocError> {
    for a in run {
        for b in others {
            let pair = Pair {
                tags,
                first: a.number,
                second: b.number,
            };
            put_if_like(alloc, problem, look, pair, linked, found)?;
        }
    }
    Ok(())
}

// ---- roots

/// Whether two terms of the table are known to be equal.
fn are_equal(problem: &Problem<'_>, look: &Look<'_>, a: u64, b: u64) -> bool
    requires a { a < length problem.now.nodes }
    requires b { b < length problem.now.nodes }
{
    look.known.literal_truth(equal(problem, a, b)) == Some(true)
}

/// Whether two roots are of entities that are known to be equal, and under such keys; of tags, if they are tags.
fn linked(problem: &Problem<'_>, look: &Look<'_>, r: u64, q: u64) -> Option<bool>
    requires r { r < length problem.now.nodes }
    requires q { q < length problem.now.nodes }
{
    let terms = problem.terms();
    match terms.node(r) {
        Node::One(UnaryOp::Attributes(_), e) => match terms.node(q) {
            Node::One(UnaryOp::Attributes(_), f) => {
                if are_equal(problem, look, *e, *f) {
                    Some(false)
                } else {
                    None
                }
            }
            _ => None,
        },
        Node::Two(BinaryOp::Tag(_), e, k) => match terms.node(q) {
            Node::Two(BinaryOp::Tag(_), f, l) => {
                if are_equal(problem, look, *e, *f) && are_equal(problem, look, *k, *l) {
                    Some(true)
                } else {
                    None
                }
            }
            _ => None,
        },
        _ => None,
    }
}

/// Puts the instances of two roots, if they are linked.
fn put_roots(
    alloc: Global,
    problem: &Problem<'_>,
    look: &Look<'_>,
    places: &[Place],
    one: Span,
    other: Span,
    found: &mut Vec<Instance>,
) -> Result<(), AllocError> {
    let Some(r) = problem.term(one.root) else {
        return Ok(());
    };
    let Some(q) = problem.term(other.root) else {
        return Ok(());
    };
    let Some(tags) = linked(problem, look, r, q) else {
        return Ok(());
    };
    let Some(run) = places.get(one.from..one.to) else {
        return Ok(());
    };
    let Some(others) = places.get(other.from..other.to) else {
        return Ok(());
    };
    put_between(alloc, problem, look, tags, (r, q), run, others, found)
}

fn put_all(
    alloc: Global,
    problem: &Problem<'_>,
    look: &Look<'_>,
    found: &mut Vec<Instance>,
) -> Result<(), AllocError> {
    let places = places(alloc, problem)?;
    let roots = spans(alloc, places.as_slice())?;
    for first in 0..roots.len() {
        for second in 0..first {
            put_roots(
                alloc,
                problem,
                look,
                places.as_slice(),
                roots[first],
                roots[second],
                found,
            )?;
        }
    }
    Ok(())
}

// ---- what is known

fn tell_of_places(problem: &Problem<'_>, lits: &[Lit]) -> bool {
    for lit in lits {
        if is_at_place(problem, lit.atom) {
            return true;
        }
    }
    false
}

/// Puts the instances of like places that may give something, where these are all literals that are known, and the
/// last ones of them new.
pub fn put_alike(
    alloc: Global,
    problem: &Problem<'_>,
    lits: &[Lit],
    new: &[Lit],
    found: &mut Vec<Instance>,
) -> Result<(), AllocError> {
    if !tell_of_places(problem, new) || !tell_equation(problem, lits) {
        return Ok(());
    }
    let known = Known::new(alloc, problem, lits, new)?;
    let tolds = Tolds::new(alloc, problem, lits)?;
    let look = Look {
        known: &known,
        tolds: &tolds,
    };
    put_all(alloc, problem, &look, found)
}
