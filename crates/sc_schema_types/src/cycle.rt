//! The least common type that reaches itself.
ghost use Rattle.std.specs.Prelude.{◌≡◌, ◌∷◌, ◌++◌, [], ℕ, List, Some, length, slice_get, get_or, Contains, IsSome, IfSome, IfNone, IfOk, OnOk};
ghost use Rattle.std.specs.List.Sorted.{IsStrictlySortedBy};
ghost use Rattle.sc_names.specs.Uids.{text_cmp};
ghost use Rattle.sc_graphs.specs.Keys.{ArePlaces, HasPlaces};
ghost use Rattle.sc_schema_types.specs.References.{Reaches, references};
ghost use Rattle.sc_schema_types.specs.Orders.{IsLeastCycle};
ghost use Rattle.sc_schema_types.specs.Places.{named_at};
ghost use Rattle.sc_schema_types.specs.Tables.{body_in};

use crate::bodies::references;
use sc_graphs::least_cycle as least_place;
use sc_lists::Seq;
use sc_names::Name;
use sc_schema::ResolvedType;
use std::alloc::{AllocError, Global};
use std::collections::BTreeMap;

/// The least of the names that reaches itself, where one does: the one at the least place on a cycle,
/// since names ascend.
#[tactic(auto, using(crate::proofs::CyclesLaws::cycle_somewhere))]
pub(crate) fn least_cycle(
    alloc: Global,
    bodies: &BTreeMap<Name, &ResolvedType>,
    names: &[Name],
    met: Name,
) -> Result<Name, AllocError>
    requires ascending { IsStrictlySortedBy text_cmp names.now }
    requires all { (name : List ℕ) → IsSome (body_in bodies.now.entries name) → Contains names.now name }
    requires met { Reaches (references (body_in bodies.now.entries)) met met }
    ensures { IfOk result (IsLeastCycle (references (body_in bodies.now.entries))) }
{
    let graph = graph_of(alloc, bodies, names)?;
    match least_place(alloc, graph.as_slice())? {
        Some(at) => name_at(alloc, names, at, met),
        None => Ok(met),
    }
}

/// The name at a place among names, or another one where there is none.
fn name_at(alloc: Global, names: &[Name], at: usize, other: Name) -> Result<Name, AllocError>
    ensures { IfOk result (λ name. name ≡ get_or names.now at other) }
{
    match names.get(at) {
        Some(name) => name.try_clone(alloc),
        None => Ok(other),
    }
}

/// The graph of what the bodies of common types name, by the places of all names, which ascend.
#[tactic(auto, using(sc_graphs::proofs::GraphLaws::graph_first, sc_graphs::proofs::GraphLaws::graph_last))]
fn graph_of(
    alloc: Global,
    bodies: &BTreeMap<Name, &ResolvedType>,
    names: &[Name],
) -> Result<Seq<Seq<usize>>, AllocError>
    requires { IsStrictlySortedBy text_cmp names.now }
    ensures { IfOk result (λ graph. HasPlaces names.now (named_at (body_in bodies.now.entries) names.now) graph
        (length names.now)) }
{
    let mut graph = Seq::new(alloc);
    for name in names {
        let following = references(alloc, bodies, name)?;
        graph.push(places_of(alloc, names, following.as_slice())?)?;
    }
    Ok(graph)
}

/// The places of names among all names, which ascend.
#[tactic(auto, using(sc_graphs::proofs::PlacesLaws::places_first))]
fn places_of(alloc: Global, all: &[Name], names: &[Name]) -> Result<Seq<usize>, AllocError>
    requires { IsStrictlySortedBy text_cmp all.now }
    ensures { IfOk result (λ places. ArePlaces all.now names.now places) }
{
    let mut places = Seq::new(alloc);
    for name in names {
        put_place(&mut places, all, name)?;
    }
    Ok(places)
}

/// Puts the place of a name behind others, if it is one of all names.
#[tactic(auto, using(sc_graphs::proofs::PlacesLaws::place_put, sc_graphs::proofs::PlacesLaws::place_left))]
fn put_place(places: &mut Seq<usize>, all: &[Name], name: &Name) -> Result<(), AllocError>
    requires { IsStrictlySortedBy text_cmp all.now }
    ensures { OnOk result ((ns : List (List ℕ)) → ArePlaces all.now ns places.old
        → ArePlaces all.now (ns ++ name.now ∷ []) places.new) }
{
    match place(all, name) {
        Some(at) => {
            places.push(at)?;
            Ok(())
        }
        None => Ok(()),
    }
}

/// Where a name stands among names that ascend.
fn place(all: &[Name], name: &Name) -> Option<usize>
    requires { IsStrictlySortedBy text_cmp all.now }
    ensures found { IfSome result (λ at. slice_get all.now at ≡ Some name.now) }
    ensures none { IfNone result (¬ Contains all.now name.now) }
{
    match all.binary_search(name) {
        Ok(at) => Some(at),
        Err(_) => None,
    }
}
