//! Places of attributes and of tags, those of one root one behind the other.
ghost use Rattle.std.specs.Prelude.{◌≡◌, ◌<◌, ◌==◌, [], length, IfOk, OnOk, IfSome, IfNone};
ghost use Rattle.std.specs.List.{take_while};
ghost use Rattle.std.specs.List.Sorted.{IsPermutation};
ghost use Rattle.sc_terms.specs.Tables.{tree};
ghost use Rattle.th_entities.specs.Memberships.{IsFirstRun, IsPut};
ghost use Rattle.th_entities.specs.Places.{ArePlaces, IsPlaceIf, IsRootOf, inner_part, is_root as root_test, is_tag as tag_test, root_of};

use sc_footprint::Problem;
use sc_sorts::{BinaryOp, Node, UnaryOp};
use std::alloc::{AllocError, Global};

/// A closed term that is a place of attributes or of a tag.
#[derive(Clone, Copy, Debug)]
pub(crate) struct Place {
    /// Its number among the closed terms.
    pub(crate) number: u64,
    /// Its number in the table.
    pub(crate) term: u64,
    /// Its root, the attributes or the tag, by the number in the table.
    pub(crate) root: u64,
}

// ---- roots

/// What a node is one step into: the record of a field, or the option.
fn inner(node: &Node) -> Option<u64>
    ensures { result ≡ inner_part node.now }
{
    match node {
        Node::One(UnaryOp::Field(_), part) => Some(*part),
        Node::One(UnaryOp::Held, part) => Some(*part),
        _ => None,
    }
}

/// What a term is a place of.
#[tactic(auto, using(crate::proofs::PlaceLaws::reached_first, crate::proofs::PlaceLaws::reached_next, crate::proofs::PlaceLaws::reached_last, crate::proofs::PlaceLaws::inner_below))]
fn root(problem: &Problem<'_>, term: u64) -> u64
    requires { term < length problem.now.nodes }
    ensures { IsRootOf problem.now.nodes term result }
{
    let terms = problem.terms();
    let mut at = term;
    while let Some(part) = inner(terms.node(at)) {
        at = part;
    }
    at
}

/// Whether a term is attributes or a tag.
pub(crate) fn is_root(problem: &Problem<'_>, term: u64) -> bool
    requires { term < length problem.now.nodes }
    ensures { result ≡ root_test (tree problem.now.nodes term) }
{
    match problem.terms().node(term) {
        Node::One(UnaryOp::Attributes(_), _) => true,
        Node::Two(BinaryOp::Tag(_), _, _) => true,
        _ => false,
    }
}

/// Whether a term is a tag.
pub(crate) fn is_tag(problem: &Problem<'_>, term: u64) -> bool
    requires { term < length problem.now.nodes }
    ensures { result ≡ tag_test (tree problem.now.nodes term) }
{
    match problem.terms().node(term) {
        Node::Two(BinaryOp::Tag(_), _, _) => true,
        _ => false,
    }
}

// ---- all places

/// The closed term of a number, if it is a place of attributes or of a tag.
#[tactic(auto, using(crate::proofs::PlaceLaws::no_term, crate::proofs::PlaceLaws::place_is, crate::proofs::PlaceLaws::no_root))]
fn place_at(problem: &Problem<'_>, n: u64) -> Option<Place>
    ensures { IsPlaceIf problem.now n result }
{
    let Some(term) = problem.term(n) else {
        return None;
    };
    let top = root(problem, term);
    if is_root(problem, top) {
        return Some(Place {
            number: n,
            term,
            root: top,
        });
    }
    None
}

/// Puts a place after the others, if there is one.
fn put(places: &mut Vec<Place>, added: Option<Place>) -> Result<(), AllocError>
    ensures { OnOk result (IsPut places.old.items added places.new.items) }
{
    match added {
        Some(next) => {
            places.push(next)?;
            Ok(())
        }
        None => Ok(()),
    }
}

/// Puts places of one root one behind the other.
fn put_in_order(places: &mut Vec<Place>)
    ensures { IsPermutation places.old.items places.new.items }
{
    places.sort_unstable_by(|a, b| a.root.cmp(&b.root).then(a.number.cmp(&b.number)));
}

/// The closed places of attributes and of tags, those of one root one behind the other.
pub(crate) fn all_places(alloc: Global, problem: &Problem<'_>) -> Result<Vec<Place>, AllocError>
    ensures { IfOk result (λ v. ArePlaces problem.now v.items) }
{
    let mut found = Vec::new(alloc);
    for n in 0..problem.closed_count() {
        put(&mut found, place_at(problem, n + 1))?;
    }
    put_in_order(&mut found);
    Ok(found)
}

// ---- those of one root

/// How many places at the beginning have a root.
fn run_length(root: u64, places: &[Place]) -> usize
    ensures { result ≡ length (take_while (λ k. k.root == root) places.now) }
{
    places.iter().take_while(|k| k.root == root).count()
}

/// The first root, the places that have it up to those of another, and those behind.
#[tactic(auto, using(crate::proofs::RunLaws::places_within))]
pub(crate) fn first_root<'a>(places: &'a [Place]) -> Option<(u64, &'a [Place], &'a [Place])>
    ensures some { IfSome result (λ r. IsFirstRun root_of places.now r.0 r.1.now r.2.now) }
    ensures none { IfNone result (places.now ≡ []) }
{
    let Some((first, _)) = places.split_first() else {
        return None;
    };
    let (run, later) = places.split_at(run_length(first.root, places));
    Some((first.root, run, later))
}
