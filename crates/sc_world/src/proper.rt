//! Whether what a world holds is made of values: numbers in range, sets and records in order, each
//! ancestor once.
ghost use Rattle.std.specs.Prelude.{◌↔◌, All, IsTrue};
ghost use Rattle.std.specs.List.Sorted.{IsStrictlySortedBy};
ghost use Rattle.sc_names.specs.Uids.{uid_cmp};
ghost use Rattle.sc_values.specs.Proper.{IsUidText};
ghost use Rattle.sc_world.specs.Tests.{Holds};
ghost use Rattle.sc_world.specs.WellFormed.{IsProperEntry, IsProperRequest};

use crate::entity::EntityData;
use crate::world::Request;
use sc_lists::{Seq, members};
use sc_names::Uid;
use sc_values::{is_proper_record, is_uid_text};

/// Whether a request is made of values.
pub fn is_proper_request(r: &Request) -> bool
    ensures { IsTrue result ↔ IsProperRequest r.now }
{
    let principal = is_uid_text(&r.principal);
    let action = is_uid_text(&r.action);
    let resource = is_uid_text(&r.resource);
    let context = is_proper_record(&r.context);
    principal && action && resource && context
}

/// Whether what is stored of an entity is made of values.
#[tactic(auto, using(crate::proofs::TestLaws::each_from_all, crate::proofs::TestLaws::all_from_each))]
pub(crate) fn is_proper_entry(uid: &Uid, entity: &EntityData) -> bool
    ensures { IsTrue result ↔ IsProperEntry (uid.now, entity.now) }
{
    let named = is_uid_text(uid);
    let attrs = is_proper_record(&entity.attrs);
    let tags = is_proper_record(&entity.tags);
    let ascending = ascend(&entity.ancestors);
    let texts = are_uid_texts(&entity.ancestors);
    named && attrs && tags && ascending && texts
}

fn ascend(uids: &Seq<Uid>) -> bool
    ensures { IsTrue result ↔ IsStrictlySortedBy uid_cmp uids.now }
{
    members::ascending(uids.as_slice())
}

fn are_uid_texts(uids: &Seq<Uid>) -> bool
    ensures { IsTrue result ↔ All (Holds IsUidText) uids.now }
{
    uids.as_slice().iter().all(|uid| is_text(uid))
}

#[tactic(auto, unfolding(crate::specs::Tests::Holds))]
fn is_text(uid: &Uid) -> bool
    ensures { IsTrue result ↔ Holds IsUidText uid.now }
{
    is_uid_text(uid)
}
