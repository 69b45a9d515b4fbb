//! The uids that a tree says.
ghost use Rattle.std.specs.Prelude.{◌≡◌, map, Some, option_map, IfOk};
ghost use Rattle.std.specs.List.{AllByRecursion};
ghost use Rattle.std.specs.List.Sorted.{IsStrictlySortedBy};
ghost use Rattle.serde_json.specs.View.{view};
ghost use Rattle.sc_names.specs.Uids.{uid_cmp};
ghost use Rattle.sc_values.specs.Proper.{IsUidText};
ghost use Rattle.sc_world_json.specs.Worlds.{elements_of, uid_of, in_order, uids_of};

use crate::member::text_at;
use sc_lists::{Seq, Text};
use sc_names::{Name, Uid};
use serde_json::Value as Json;
use std::alloc::{AllocError, Global};

/// The uid that a value says.
pub(crate) fn uid_of(alloc: Global, value: Option<&Json>) -> Result<Uid, AllocError>
    ensures value { IfOk result (λ uid. uid ≡ uid_of (option_map (λ v. view v.now) value.entry)) }
    ensures texts { IfOk result (λ uid. IsUidText uid) }
{
    let type_name = Text::from_str(alloc, text_at(value, "type"))?;
    Ok(Uid {
        type_name: Name::from_text(type_name),
        id: Text::from_str(alloc, text_at(value, "id"))?,
    })
}

/// The set of the uids in a list.
pub(crate) fn uids_of(alloc: Global, value: Option<&Json>) -> Result<Seq<Uid>, AllocError>
    ensures value { IfOk result (λ uids. uids ≡ uids_of (option_map (λ v. view v.now) value.entry)) }
    ensures ascending { IfOk result (λ uids. IsStrictlySortedBy uid_cmp uids) }
    ensures texts { IfOk result (λ uids. AllByRecursion IsUidText uids) }
{
    let uids = listed_uids(alloc, value)?;
    let set = in_order(uids)?;
    Ok(set)
}

/// The uids in a list, in its order.
fn listed_uids(alloc: Global, value: Option<&Json>) -> Result<Vec<Uid>, AllocError>
    ensures value { IfOk result (λ uids. uids.items
        ≡ map (λ d. uid_of (Some d)) (elements_of (option_map (λ v. view v.now) value.entry))) }
    ensures texts { IfOk result (λ uids. AllByRecursion IsUidText uids.items) }
{
    let mut uids = Vec::new(alloc);
    let Some(value) = value else {
        return Ok(uids);
    };
    let Some(items) = value.as_array() else {
        return Ok(uids);
    };
    for item in items {
        uids.push(uid_of(alloc, Some(item))?)?;
    }
    Ok(uids)
}

/// The uids, ascending, each once.
fn in_order(mut uids: Vec<Uid>) -> Result<Seq<Uid>, AllocError>
    ensures { IfOk result (λ set. set ≡ in_order uid_cmp uids.items) }
{
    uids.sort()?;
    uids.dedup();
    Ok(Seq::from_vec(uids))
}
