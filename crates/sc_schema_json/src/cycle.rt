//! The least action that stands above itself.
ghost use Rattle.std.specs.Prelude.{◌≡◌, ◌++◌, IfOk, OnOk, IfSome, IfNone};
ghost use Rattle.std.specs.List.Sorted.{IsStrictlySortedBy};
ghost use Rattle.std.specs.Map.{keys_of};
ghost use Rattle.sc_names.specs.Uids.{uid_cmp};
ghost use Rattle.sc_schema.specs.Resolved.{IsResolved, actions};
ghost use Rattle.sc_schema_json.specs.Above.{NamesKeys, NoCycle, IsLeastCycle};
ghost use Rattle.sc_schema_json.specs.Schemas.{resolved_links};

use crate::graph::graph_of;
use crate::key::{Key, copies};
use crate::sorting::links_in_order;
use sc_graphs::least_cycle as least_place;
use sc_lists::Seq;
use sc_names::Uid;
use sc_schema::{ResolvedAction, ResolvedSchema};
use std::alloc::{AllocError, Global};

/// The least action that stands above itself, by the order of uids; none exactly where no action
/// does.
pub fn least_cycle(alloc: Global, schema: &ResolvedSchema) -> Result<Option<Uid>, AllocError>
    requires { IsResolved schema.now }
    ensures found { IfOk result (λ r. IfSome r (IsLeastCycle uid_cmp (resolved_links (actions schema.now)))) }
    ensures none { IfOk result (λ r. IfNone r (NoCycle (resolved_links (actions schema.now)))) }
{
    let links = links_in_order(links_of(alloc, schema)?);
    least_above_itself(alloc, links.as_slice())
}

/// The actions of all namespaces, each with those that it is directly in.
fn links_of(alloc: Global, schema: &ResolvedSchema) -> Result<Seq<(Uid, Seq<Uid>)>, AllocError>
    ensures { IfOk result (λ links. links ≡ resolved_links (actions schema.now)) }
{
    let mut links = Seq::new(alloc);
    for namespace in schema.namespaces.as_slice() {
        put_links(alloc, &mut links, namespace.actions.as_slice())?;
    }
    Ok(links)
}

/// Puts actions behind others, each with those that it is directly in.
fn put_links(
    alloc: Global,
    links: &mut Seq<(Uid, Seq<Uid>)>,
    actions: &[ResolvedAction],
) -> Result<(), AllocError>
    ensures { OnOk result (links.new ≡ links.old ++ resolved_links actions.now) }
{
    for action in actions {
        links.push((
            action.uid.try_clone(alloc)?,
            copies(alloc, action.parents.as_slice())?,
        ))?;
    }
    Ok(())
}

/// The least key that stands above itself: the one at the least place on a cycle, since keys ascend.
#[tactic(auto, using(crate::proofs::CycleLaws::place_within, crate::proofs::CycleLaws::none_at_places))]
fn least_above_itself<K: Key>(alloc: Global, links: &[(K, Seq<K>)]) -> Result<Option<K>, AllocError>
    requires ascending { IsStrictlySortedBy K.order (keys_of links.now) }
    requires declared { NamesKeys links.now }
    ensures found { IfOk result (λ r. IfSome r (IsLeastCycle K.order links.now)) }
    ensures none { IfOk result (λ r. IfNone r (NoCycle links.now)) }
{
    let graph = graph_of(alloc, links)?;
    match least_place(alloc, graph.as_slice())? {
        Some(at) => Ok(Some(links[at].0.copy(alloc)?)),
        None => Ok(None),
    }
}
