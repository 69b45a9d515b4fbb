//! All that stands above each key.
ghost use Rattle.std.specs.Prelude.{◌≡◌, ◌<◌, ◌++◌, ◌∷◌, [], ℕ, List, Some, map, length, All, IfOk, OnOk};
ghost use Rattle.std.specs.List.{slice_get};
ghost use Rattle.std.specs.List.Sorted.{IsStrictlySortedBy};
ghost use Rattle.std.specs.Map.{keys_of};
ghost use Rattle.sc_schema_json.specs.Above.{AreAbove, NamesKeys};
ghost use Rattle.sc_schema_json.specs.Graphs.{IsGraphOf};

use crate::key::Key;
use sc_graphs::Reachability;
use sc_lists::Seq;
use std::alloc::{AllocError, Global};

/// The keys at places.
fn keys_at<K: Key>(
    alloc: Global,
    links: &[(K, Seq<K>)],
    places: &Seq<usize>,
) -> Result<Seq<K>, AllocError>
    requires { All (λ n. n < length links.now) places.now }
    ensures { IfOk result (λ keys. map Some keys ≡ map (slice_get (keys_of links.now)) places.now) }
{
    let mut keys = Seq::from_vec(Vec::with_capacity(alloc, places.len())?);
    for place in places.as_slice() {
        put_key(alloc, &mut keys, links, *place)?;
    }
    Ok(keys)
}

/// Puts the key at a place behind others.
fn put_key<K: Key>(
    alloc: Global,
    keys: &mut Seq<K>,
    links: &[(K, Seq<K>)],
    place: usize,
) -> Result<(), AllocError>
    requires { place < length links.now }
    ensures { OnOk result (map Some keys.new ≡ map Some keys.old ++ slice_get (keys_of links.now) place ∷ []) }
{
    keys.push(links[place].0.copy(alloc)?)?;
    Ok(())
}

/// The keys that stand above the one at a place, ascending, each once.
#[tactic(auto, using(crate::proofs::PickedLaws::all_above, crate::proofs::AboveLaws::places_within))]
pub(crate) fn keys_above<K: Key>(
    alloc: Global,
    links: &[(K, Seq<K>)],
    graph: &[Seq<usize>],
    reachability: &mut Reachability,
    at: usize,
) -> Result<Seq<K>, AllocError>
    requires ascending { IsStrictlySortedBy K.order (keys_of links.now) }
    requires declared { NamesKeys links.now }
    requires graph { IsGraphOf links.now graph.now }
    ensures { IfOk result (λ keys. (key : K) (above : List K) → slice_get links.now at ≡ Some (key, above)
        → AreAbove K.order links.now key keys) }
{
    let places = reachability.of(alloc, graph, at)?;
    let keys = keys_at(alloc, links, &places)?;
    Ok(keys)
}
