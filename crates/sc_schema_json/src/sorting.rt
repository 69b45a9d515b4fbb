//! Declarations and names in ascending order.
ghost use Rattle.std.specs.Prelude.{map, IsPermutation};
ghost use Rattle.std.specs.List.{IsDistinct};
ghost use Rattle.std.specs.List.Sorted.{IsStrictlySortedBy};
ghost use Rattle.std.specs.Map.{keys_of};
ghost use Rattle.std.specs.Str.{bytes_eq};
ghost use Rattle.sc_names.specs.Uids.{uid_cmp};
ghost use Rattle.sc_schema.specs.Declarations.{uid_eq};
ghost use Rattle.sc_schema.specs.Lawful.{AreAscending};
ghost use Rattle.sc_schema.specs.declared.expanded.ExpandedAction.{ExpandedAction as AnyAction};
ghost use Rattle.sc_schema.specs.declared.expanded.ExpandedEntityType.{ExpandedEntityType as AnyType};
ghost use Rattle.sc_schema_json.specs.Schemas.{AreInOrder};

use sc_lists::Seq;
use sc_names::{Name, Uid};
use sc_schema::{ExpandedAction, ExpandedEntityType};

/// Names in ascending order, each once.
pub(crate) fn names_in_order(names: Seq<Name>) -> Seq<Name>
    ensures { AreInOrder names result }
{
    let mut names = names.into_vec();
    names.sort_unstable();
    names.dedup();
    Seq::from_vec(names)
}

/// Entity types, whose names differ, in the order of their names.
pub(crate) fn types_in_order(types: Seq<ExpandedEntityType>) -> Seq<ExpandedEntityType>
    requires { IsDistinct bytes_eq (map (λ (t : AnyType). t.name) types) }
    ensures ascending { AreAscending (map (λ (t : AnyType). t.name) result) }
    ensures same { IsPermutation types result }
{
    let mut types = types.into_vec();
    types.sort_unstable_by(|a, b| a.name.cmp(&b.name));
    Seq::from_vec(types)
}

/// Actions, whose uids differ, in the order of their uids.
pub(crate) fn actions_in_order(actions: Seq<ExpandedAction>) -> Seq<ExpandedAction>
    requires { IsDistinct uid_eq (map (λ (a : AnyAction). a.uid) actions) }
    ensures ascending { IsStrictlySortedBy uid_cmp (map (λ (a : AnyAction). a.uid) result) }
    ensures same { IsPermutation actions result }
{
    let mut actions = actions.into_vec();
    actions.sort_unstable_by(|a, b| a.uid.cmp(&b.uid));
    Seq::from_vec(actions)
}

/// Uids, which differ, in their order, each with those that stand directly above it.
pub(crate) fn links_in_order(links: Seq<(Uid, Seq<Uid>)>) -> Seq<(Uid, Seq<Uid>)>
    requires { IsDistinct uid_eq (keys_of links) }
    ensures ascending { IsStrictlySortedBy uid_cmp (keys_of result) }
    ensures same { IsPermutation links result }
{
    let mut links = links.into_vec();
    links.sort_unstable_by(|a, b| a.0.cmp(&b.0));
    Seq::from_vec(links)
}
