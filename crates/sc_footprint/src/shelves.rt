//! The closed terms by kinds and sorts, in the order of terms.
ghost use Rattle.std.specs.Prelude.{◌≡◌, ◌<◌, length, map, IfOk, OnOk};
ghost use Rattle.std.specs.List.{AllByRecursion};
ghost use Rattle.sc_closure.specs.Following.{put_new};
ghost use Rattle.sc_footprint.specs.Indices.{is_shelf as shelf_test, terms_at};
ghost use Rattle.sc_footprint.specs.Shelving.{AreCandidates, AreShelved, AreWithin, IsAdded, first_place, is_among, is_like, is_told, node_candidates, node_owned};

use crate::kind::Kind;
use indexmap::IndexSet;
use sc_closure::{place_in, put};
use sc_lists::Text;
use sc_sorts::{BinaryOp, ManyOp, Node, UnaryOp, sort_laws};
use sc_terms::Terms;
use std::alloc::{AllocError, Global};

/// Terms of one kind whose keys are of one sort.
#[derive(Drop)]
pub(crate) struct Shelf {
    pub(crate) kind: Kind,
    /// The key of one of them.
    pub(crate) key: u64,
    /// The terms.
    pub(crate) terms: Vec<u64>,
}

/// Whether a shelf is that of a kind and of a term's sort.
fn is_shelf(terms: &Terms, shelf: &Shelf, kind: Kind, n: u64) -> bool
    requires key_in { shelf.now.key < length terms.now }
    requires n_in { n < length terms.now }
    ensures { result ≡ shelf_test terms.now kind n shelf.now }
{
    shelf.kind.is_same(kind) && terms.sort(shelf.key) == terms.sort(n)
}

/// The terms on the shelf of a kind and of a term's sort; none where there is no such shelf.
pub(crate) fn shelf_of<'a>(terms: &Terms, shelves: &'a [Shelf], kind: Kind, n: u64) -> &'a [u64]
    requires n_in { n < length terms.now }
    requires keys_in { AllByRecursion (λ s. s.key < length terms.now) shelves.now }
    ensures { result.now ≡ terms_at terms.now shelves.now kind n }
{
    let mut rest = shelves;
    while let Some((shelf, later)) = rest.split_first() {
        if is_shelf(terms, shelf, kind, n) {
            return shelf.terms.as_slice();
        }
        rest = later;
    }
    &[]
}

/// The place of the shelf of a kind and of a term's sort, or how many shelves there are.
fn place_on(terms: &Terms, shelves: &[Shelf], kind: Kind, n: u64) -> usize
    requires n_in { n < length terms.now }
    requires keys_in { AllByRecursion (λ s. s.key < length terms.now) shelves.now }
    ensures { result ≡ first_place (shelf_test terms.now kind n) shelves.now }
{
    let mut place = 0;
    let mut rest = shelves;
    while let Some((shelf, later)) = rest.split_first() {
        if is_shelf(terms, shelf, kind, n) {
            return place;
        }
        place += 1;
        rest = later;
    }
    place
}

/// Puts a term on the shelf of a kind and of its key's sort, which is made where there is none.
fn put_on(
    alloc: Global,
    terms: &Terms,
    shelves: &mut Vec<Shelf>,
    kind: Kind,
    key: u64,
    term: u64,
) -> Result<(), AllocError>
    requires key_in { key < length terms.now }
    requires term_in { term < length terms.now }
    requires within { AreWithin terms.now shelves.old.items }
    ensures { OnOk result (IsAdded terms.now shelves.old.items shelves.new.items term (is_like terms.now kind key)) }
{
    sort_laws();
    let place = place_on(terms, shelves.as_slice(), kind, key);
    if place < shelves.len() {
        shelves[place].terms.push(term)?;
        return Ok(());
    }
    let members = vec![in alloc; term]?;
    shelves.push(Shelf {
        kind,
        key,
        terms: members,
    })?;
    Ok(())
}

/// Puts the candidates for members of sets that a term of this node tells of.
fn put_candidates(candidates: &mut IndexSet<u64>, n: u64, node: &Node) -> Result<(), AllocError>
    ensures { OnOk result (candidates.new.keys ≡ put_new candidates.old.keys (node_candidates n node.now)) }
{
    match node {
        Node::Two(BinaryOp::Member, a, _) => put(candidates, *a),
        Node::Two(BinaryOp::DifferencePick, _, _) => put(candidates, n),
        Node::Two(BinaryOp::CommonPick, _, _) => put(candidates, n),
        Node::One(UnaryOp::Ancestors(_), entity) => put(candidates, *entity),
        Node::Many(ManyOp::Set(_), parts) => put_parts(candidates, parts.as_slice()),
        _ => Ok(()),
    }
}

/// Puts the parts of a term.
fn put_parts(candidates: &mut IndexSet<u64>, parts: &[(Text, u64)]) -> Result<(), AllocError>
    ensures { OnOk result (candidates.new.keys ≡ put_new candidates.old.keys (map (λ p. p.1) parts.now)) }
{
    let mut rest = parts;
    while let Some((part, later)) = rest.split_first() {
        put(candidates, part.1)?;
        rest = later;
    }
    Ok(())
}

/// All candidates that closed terms tell of.
fn all_candidates(
    alloc: Global,
    terms: &Terms,
    closed: &IndexSet<u64>,
) -> Result<IndexSet<u64>, AllocError>
    requires { AllByRecursion (λ n. n < length terms.now) closed.now.keys }
    ensures { IfOk result (λ s. AreCandidates terms.now closed.now.keys s.keys) }
{
    terms.laws();
    let mut candidates = IndexSet::new(alloc);
    for n in closed.iter() {
        put_candidates(&mut candidates, *n, terms.node(*n))?;
    }
    Ok(candidates)
}

/// Puts a term on the shelf of the candidates of its sort, if it is one.
fn put_candidate(
    alloc: Global,
    terms: &Terms,
    candidates: &IndexSet<u64>,
    shelves: &mut Vec<Shelf>,
    n: u64,
) -> Result<(), AllocError>
    requires n_in { n < length terms.now }
    requires within { AreWithin terms.now shelves.old.items }
    ensures { OnOk result (IsAdded terms.now shelves.old.items shelves.new.items n
        (is_among terms.now candidates.now.keys n)) }
{
    if place_in(candidates, n) == 0 {
        return Ok(());
    }
    put_on(alloc, terms, shelves, Kind::Candidate, n, n)?;
    Ok(())
}

/// Which kind a term of this node is of that tells of an entity, and the entity.
fn owned(node: &Node) -> Option<(Kind, u64)>
    ensures { result ≡ node_owned node.now }
{
    match node {
        Node::One(UnaryOp::Attributes(_), entity) => Some((Kind::Attributes, *entity)),
        Node::One(UnaryOp::Ancestors(_), entity) => Some((Kind::Ancestors, *entity)),
        Node::One(UnaryOp::Keys, entity) => Some((Kind::Keys, *entity)),
        Node::Two(BinaryOp::Tag(_), entity, _) => Some((Kind::Tag, *entity)),
        _ => None,
    }
}

/// Puts a term that tells of an entity on the shelf of its kind and of the entity's sort.
fn put_owned(
    alloc: Global,
    terms: &Terms,
    shelves: &mut Vec<Shelf>,
    n: u64,
) -> Result<(), AllocError>
    requires n_in { n < length terms.now }
    requires within { AreWithin terms.now shelves.old.items }
    ensures { OnOk result (IsAdded terms.now shelves.old.items shelves.new.items n (is_told terms.now n)) }
{
    match owned(terms.node(n)) {
        Some((kind, entity)) => {
            put_on(alloc, terms, shelves, kind, entity, n)?;
            Ok(())
        }
        None => Ok(()),
    }
}

/// The shelves of closed terms.
pub(crate) fn shelves_of(
    alloc: Global,
    terms: &Terms,
    closed: &IndexSet<u64>,
) -> Result<Vec<Shelf>, AllocError>
    requires { AllByRecursion (λ n. n < length terms.now) closed.now.keys }
    ensures { IfOk result (λ v. AreShelved terms.now closed.now.keys v.items) }
{
    terms.laws();
    let candidates = all_candidates(alloc, terms, closed)?;
    let mut shelves = Vec::new(alloc);
    for n in closed.iter() {
        put_on(alloc, terms, &mut shelves, Kind::Any, *n, *n)?;
        put_candidate(alloc, terms, &candidates, &mut shelves, *n)?;
        put_owned(alloc, terms, &mut shelves, *n)?;
    }
    Ok(shelves)
}
