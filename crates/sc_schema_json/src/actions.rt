//! Actions with all actions that they are in.
ghost use Rattle.std.specs.Prelude.{◌≡◌, List, [], Some, map, IfOk, OnOk};
ghost use Rattle.std.specs.List.{AllZip, IsDistinct, slice_get};
ghost use Rattle.std.specs.List.Sorted.{IsStrictlySortedBy};
ghost use Rattle.std.specs.Map.{keys_of};
ghost use Rattle.sc_names.specs.Uids.{uid_cmp};
ghost use Rattle.sc_schema.specs.Declarations.{uid_eq};
ghost use Rattle.sc_schema.specs.declared.expanded.ExpandedAction.{ExpandedAction as AnyAction};
ghost use Rattle.sc_schema_json.specs.Above.{NamesKeys};
ghost use Rattle.sc_schema_json.specs.Graphs.{IsGraphOf};
ghost use Rattle.sc_schema_json.specs.Schemas.{action_links, AreInOrder, IsActionOf, AreActionsOf};

use crate::above::keys_above;
use crate::graph::graph_of;
use crate::key::copies;
use crate::sorting::{actions_in_order, names_in_order};
use sc_graphs::Reachability;
use sc_lists::Seq;
use sc_names::Uid;
use sc_schema::{Action, ExpandedAction};
use std::alloc::{AllocError, Global};

/// The actions in the order of their uids, each with all actions that it is in.
pub(crate) fn actions_of(
    alloc: Global,
    declared: Seq<ExpandedAction>,
) -> Result<Seq<Action>, AllocError>
    requires distinct { IsDistinct uid_eq (map (λ (d : AnyAction). d.uid) declared) }
    requires named { NamesKeys (action_links declared) }
    ensures { IfOk result (λ actions. AreActionsOf declared actions) }
{
    let declared = actions_in_order(declared);
    let actions = actions_with_ancestors(alloc, declared)?;
    Ok(actions)
}

/// Actions in their order, each with all actions that it is in.
fn actions_with_ancestors(
    alloc: Global,
    declared: Seq<ExpandedAction>,
) -> Result<Seq<Action>, AllocError>
    requires ascending { IsStrictlySortedBy uid_cmp (keys_of (action_links declared)) }
    requires named { NamesKeys (action_links declared) }
    ensures { IfOk result (λ actions. AllZip (IsActionOf (action_links declared)) declared actions) }
{
    let links = links_of(alloc, declared.as_slice())?;
    let graph = graph_of(alloc, links.as_slice())?;
    let mut reachability = Reachability::new(alloc);
    let mut actions = Seq::new(alloc);
    put_actions(
        alloc,
        &mut actions,
        links.as_slice(),
        graph.as_slice(),
        &mut reachability,
        declared,
    )?;
    Ok(actions)
}

/// Puts actions, each with all actions that it is in, into a list that has none yet.
fn put_actions(
    alloc: Global,
    actions: &mut Seq<Action>,
    links: &[(Uid, Seq<Uid>)],
    graph: &[Seq<usize>],
    reachability: &mut Reachability,
    declared: Seq<ExpandedAction>,
) -> Result<(), AllocError>
    requires none { actions.old ≡ [] }
    requires links { links.now ≡ action_links declared }
    requires ascending { IsStrictlySortedBy uid_cmp (keys_of links.now) }
    requires named { NamesKeys links.now }
    requires graph { IsGraphOf links.now graph.now }
    ensures { OnOk result (AllZip (IsActionOf (action_links declared)) declared actions.new) }
{
    for action in declared.into_vec() {
        let at = actions.len();
        let made = action_with_ancestors(alloc, links, graph, reachability, at, action)?;
        actions.push(made)?;
    }
    Ok(())
}

/// The action at a place, with all actions that it is in.
fn action_with_ancestors(
    alloc: Global,
    links: &[(Uid, Seq<Uid>)],
    graph: &[Seq<usize>],
    reachability: &mut Reachability,
    at: usize,
    declared: ExpandedAction,
) -> Result<Action, AllocError>
    requires ascending { IsStrictlySortedBy uid_cmp (keys_of links.now) }
    requires named { NamesKeys links.now }
    requires graph { IsGraphOf links.now graph.now }
    ensures { IfOk result (λ made. (all : List AnyAction) → links.now ≡ action_links all
        → slice_get all at ≡ Some declared → IsActionOf (action_links all) declared made) }
{
    let ancestors = keys_above(alloc, links, graph, reachability, at)?;
    Ok(with_ancestors(declared, ancestors))
}

/// The uids of actions, each with those of the actions that it is directly in.
fn links_of(alloc: Global, declared: &[ExpandedAction]) -> Result<Seq<(Uid, Seq<Uid>)>, AllocError>
    ensures { IfOk result (λ links. links ≡ action_links declared.now) }
{
    let mut links = Seq::new(alloc);
    for action in declared {
        links.push((
            action.uid.try_clone(alloc)?,
            copies(alloc, action.parents.as_slice())?,
        ))?;
    }
    Ok(links)
}

/// An action, which is in these actions.
fn with_ancestors(declared: ExpandedAction, ancestors: Seq<Uid>) -> Action
    ensures uid { result.uid ≡ declared.uid }
    ensures ancestors { result.ancestors ≡ ancestors }
    ensures principals { AreInOrder declared.principals result.principals }
    ensures resources { AreInOrder declared.resources result.resources }
    ensures context { result.context ≡ declared.context }
{
    Action {
        uid: declared.uid,
        ancestors,
        principals: names_in_order(declared.principals),
        resources: names_in_order(declared.resources),
        context: declared.context,
    }
}
