//! Lists of members in ascending order, each once: sets.
ghost use Rattle.std.specs.Prelude.{◌≡◌, ◌||◌, ◌↔◌, IsTrue, IfOk, IfErr, OnOk, OnErr};
ghost use Rattle.std.specs.List.Sorted.{IsStrictlySortedBy};
ghost use Rattle.std.specs.BTreeMap.{is_at};
ghost use Rattle.std.specs.BTreeSet.{insert_key};
ghost use Rattle.sc_lists.specs.Ordered as ordered;

use crate::seq::Seq;
use std::alloc::AllocError;

/// Whether each member is below the next one.
pub fn ascending<K: Ord>(members: &[K]) -> bool
    ensures { IsTrue result ↔ IsStrictlySortedBy K.cmp members.now }
{
    members.is_sorted_by(|a, b| a.cmp(b).is_lt())
}

/// Where a value stands, counted from 0, or before which place it belongs.
pub fn place<K: Ord>(members: &[K], x: &K) -> Result<usize, usize>
    requires { IsStrictlySortedBy K.cmp members.now }
    ensures found { IfOk result (ordered.StandsAt K.cmp members.now x.now) }
    ensures absent { IfErr result (ordered.BelongsAt K.cmp members.now x.now) }
{
    members.binary_search(x)
}

/// Whether a value is among the members.
pub fn is_in<K: Ord>(members: &[K], x: &K) -> bool
    requires { IsStrictlySortedBy K.cmp members.now }
    ensures { result ≡ ordered.is_in K.cmp x.now members.now }
{
    place(members, x).is_ok()
}

/// Puts a value into its place, unless it is among the members.
pub fn put<K: Ord + Drop>(members: &mut Seq<K>, x: K) -> Result<(), AllocError>
    requires { IsStrictlySortedBy K.cmp members.old }
    ensures ok { OnOk result (members.new ≡ insert_key K.cmp members.old x) }
    ensures err { OnErr result (members.new ≡ members.old) }
    ensures ascending { IsStrictlySortedBy K.cmp members.new }
    ensures one_more { OnOk result ((y : K) →
        ordered.is_in K.cmp y members.new ≡ (ordered.is_in K.cmp y members.old || is_at (K.cmp y) x)) }
{
    match place(members.as_slice(), &x) {
        Ok(_) => Ok(()),
        Err(at) => members.insert(at, x),
    }
}
