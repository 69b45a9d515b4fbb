//! Uids among others, and in a store.
ghost use Rattle.std.specs.Prelude.{◌≡◌, ◌↔◌, All, Contains, IsTrue};
ghost use Rattle.std.specs.List.Sorted.{IsStrictlySortedBy};
ghost use Rattle.sc_names.specs.Uids.{uid_cmp};
ghost use Rattle.sc_world.specs.Tests.{Holds};
ghost use Rattle.sc_world.specs.WellFormed.{IsStored};

use crate::store::Store;
use sc_names::{Name, Uid, compare};

/// Whether two uids are one.
#[tactic(auto, using(crate::proofs::TestLaws::one_uid))]
pub(crate) fn is_same(a: &Uid, b: &Uid) -> bool
    ensures { IsTrue result ↔ a.now ≡ b.now }
{
    compare(a, b).is_eq()
}

/// Whether two lists are of the same uids, in the same order.
#[tactic(auto, using(crate::proofs::TestLaws::one_list))]
pub(crate) fn are_same(a: &[Uid], b: &[Uid]) -> bool
    ensures { IsTrue result ↔ a.now ≡ b.now }
{
    a == b
}

/// Whether an entity with this uid is of the named type.
#[tactic(auto, using(crate::proofs::TestLaws::one_text))]
pub(crate) fn is_named(uid: &Uid, name: &Name) -> bool
    ensures { IsTrue result ↔ uid.now.type_name ≡ name.now }
{
    uid.type_name.as_str() == name.as_str()
}

/// Whether a uid is among others.
pub(crate) fn is_among(uids: &[Uid], uid: &Uid) -> bool
    requires { IsStrictlySortedBy uid_cmp uids.now }
    ensures { IsTrue result ↔ Contains uids.now uid.now }
{
    uids.binary_search(uid).is_ok()
}

/// Whether each of some uids is among others.
pub(crate) fn are_among(uids: &[Uid], some: &[Uid]) -> bool
    requires { IsStrictlySortedBy uid_cmp uids.now }
    ensures { IsTrue result ↔ All (Holds (Contains uids.now)) some.now }
{
    some.iter().all(|uid| holds_among(uids, uid))
}

#[tactic(auto, unfolding(crate::specs::Tests::Holds))]
fn holds_among(uids: &[Uid], uid: &Uid) -> bool
    requires { IsStrictlySortedBy uid_cmp uids.now }
    ensures { IsTrue result ↔ Holds (Contains uids.now) uid.now }
{
    is_among(uids, uid)
}

/// Whether an entity is stored.
pub(crate) fn is_stored(store: &Store, uid: &Uid) -> bool
    ensures { IsTrue result ↔ IsStored store.now uid.now }
{
    store.get(uid).is_some()
}
