//! Closed places of attributes and of tags, in the order of their roots.
ghost use Rattle.std.specs.Prelude.{◌<◌, length};

use sc_footprint::Problem;
use sc_sorts::{BinaryOp, Node, UnaryOp};
use std::alloc::{AllocError, Global};
use th_entities_instances::roots;

/// A place, with the attributes or the tag of which it is one, by the numbers of closed terms.
#[derive(Clone, Copy)]
pub(crate) struct Place {
    pub(crate) number: u64,
    pub(crate) root: u64,
}

/// The places of one root, from the first one on and before another one, by where they stand.
#[derive(Clone, Copy)]
pub(crate) struct Span {
    pub(crate) root: u64,
    pub(crate) from: usize,
    pub(crate) to: usize,
}

/// Whether a term is attributes or a tag.
fn is_root(problem: &Problem<'_>, term: u64) -> bool
    requires { term < length problem.now.nodes }
{
    match problem.terms().node(term) {
        Node::One(UnaryOp::Attributes(_), _) => true,
        Node::Two(BinaryOp::Tag(_), _, _) => true,
        _ => false,
    }
}

/// The attributes or the tag of which a term is a place, by its number in the table.
fn root_of(problem: &Problem<'_>, term: u64) -> Option<u64>
    requires { term < length problem.now.nodes }
{
    // A term and itself are got by the same steps, down to the last.
    let (root, _) = roots(problem, term, term);
    if is_root(problem, root) {
        Some(root)
    } else {
        None
    }
}

/// Whether an atom tells something of a place: it is one, or asks it for a bit or a member, whether it holds a value,
/// or whether it equals something.
pub(crate) fn is_at_place(problem: &Problem<'_>, atom: u64) -> bool {
    let Some(term) = problem.atom(atom) else {
        return false;
    };
    match problem.terms().node(term) {
        Node::One(UnaryOp::Bit(_), x) => root_of(problem, *x).is_some(),
        Node::One(UnaryOp::Present, x) => root_of(problem, *x).is_some(),
        Node::Two(BinaryOp::Equal, _, _) => true,
        Node::Two(BinaryOp::Member, _, set) => root_of(problem, *set).is_some(),
        _ => root_of(problem, term).is_some(),
    }
}

fn place_at(problem: &Problem<'_>, number: u64) -> Option<Place> {
    let term = problem.term(number)?;
    let root = problem.number_of(root_of(problem, term)?)?;
    Some(Place { number, root })
}

/// All places, in the order of their roots.
pub(crate) fn places(alloc: Global, problem: &Problem<'_>) -> Result<Vec<Place>, AllocError> {
    let mut found = Vec::new(alloc);
    for before in 0..problem.closed_count() {
        if let Some(place) = place_at(problem, before + 1) {
            found.push(place)?;
        }
    }
    found.sort_unstable_by(|a, b| a.root.cmp(&b.root).then(a.number.cmp(&b.number)));
    Ok(found)
}

/// The roots of places that stand in the order of these.
pub(crate) fn spans(alloc: Global, places: &[Place]) -> Result<Vec<Span>, AllocError> {
    let mut found: Vec<Span> = Vec::new(alloc);
    let mut from = 0;
    for at in 0..places.len() {
        let root = places[at].root;
        let last = match places.get(at + 1) {
            Some(next) => next.root != root,
            None => true,
        };
        if last {
            found.push(Span {
                root,
                from,
                to: at + 1,
            })?;
            from = at + 1;
        }
    }
    Ok(found)
}
