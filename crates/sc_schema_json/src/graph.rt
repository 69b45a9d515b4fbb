//! Keys by their places: the graph of what stands directly above what.
ghost use Rattle.std.specs.Prelude.{◌≡◌, ◌++◌, ◌∷◌, [], ℕ, List, IfOk, OnOk};
ghost use Rattle.std.specs.List.Sorted.{IsStrictlySortedBy};
ghost use Rattle.std.specs.Map.{keys_of};
ghost use Rattle.sc_graphs.specs.Keys.{ArePlaces};
ghost use Rattle.sc_schema_json.specs.Graphs.{IsGraphOf};

use crate::key::Key;
use sc_lists::Seq;
use std::alloc::{AllocError, Global};

/// The places of keys among all keys.
#[tactic(auto, using(sc_graphs::proofs::PlacesLaws::places_first))]
fn places_of<K: Key>(
    alloc: Global,
    all: &[(K, Seq<K>)],
    keys: &[K],
) -> Result<Seq<usize>, AllocError>
    requires { IsStrictlySortedBy K.order (keys_of all.now) }
    ensures { IfOk result (λ places. ArePlaces (keys_of all.now) keys.now places) }
{
    let mut places = Seq::new(alloc);
    for key in keys {
        put_place(&mut places, all, key)?;
    }
    Ok(places)
}

/// Puts the place of a key behind others, if it is one of all keys.
#[tactic(auto, using(sc_graphs::proofs::PlacesLaws::place_put, sc_graphs::proofs::PlacesLaws::place_left))]
fn put_place<K: Key>(
    places: &mut Seq<usize>,
    all: &[(K, Seq<K>)],
    key: &K,
) -> Result<(), AllocError>
    requires { IsStrictlySortedBy K.order (keys_of all.now) }
    ensures { OnOk result ((ks : List K) → ArePlaces (keys_of all.now) ks places.old
        → ArePlaces (keys_of all.now) (ks ++ key.now ∷ []) places.new) }
{
    match K::place(all, key) {
        Some(place) => {
            places.push(place)?;
            Ok(())
        }
        None => Ok(()),
    }
}

/// The graph of what stands directly above each key.
#[tactic(auto, using(sc_graphs::proofs::GraphLaws::graph_first, sc_graphs::proofs::GraphLaws::graph_next, sc_graphs::proofs::GraphLaws::graph_last))]
pub(crate) fn graph_of<K: Key>(
    alloc: Global,
    links: &[(K, Seq<K>)],
) -> Result<Seq<Seq<usize>>, AllocError>
    requires { IsStrictlySortedBy K.order (keys_of links.now) }
    ensures { IfOk result (λ graph. IsGraphOf links.now graph) }
{
    let mut graph = Seq::new(alloc);
    for link in links {
        graph.push(places_of(alloc, links, link.1.as_slice())?)?;
    }
    Ok(graph)
}
