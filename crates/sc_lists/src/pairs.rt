//! Lists of pairs of a key and a value in ascending order of the keys, each once: maps.
ghost use Rattle.std.specs.Prelude.{◌≡◌, ◌↔◌, IsTrue, false, IfOk, IfErr, OnOk, OnErr, Some};
ghost use Rattle.std.specs.Option.{option_copied};
ghost use Rattle.std.specs.List.Sorted.{IsStrictlySortedBy};
ghost use Rattle.std.specs.Map.{keys_of};
ghost use Rattle.std.specs.BTreeMap.{is_at, insert_entry};
ghost use Rattle.sc_lists.specs.Ordered.{value_at, StandsAt, BelongsAt};

use crate::seq::Seq;
use std::alloc::AllocError;

/// Whether each key is below the next one.
pub fn ascending<K: Ord, V>(pairs: &[(K, V)]) -> bool
    ensures { IsTrue result ↔ IsStrictlySortedBy K.cmp (keys_of pairs.now) }
{
    pairs.is_sorted_by(|a, b| a.0.cmp(&b.0).is_lt())
}

/// Where a key stands, counted from 0, or before which place it belongs.
pub fn place<K: Ord, V>(pairs: &[(K, V)], key: &K) -> Result<usize, usize>
    requires { IsStrictlySortedBy K.cmp (keys_of pairs.now) }
    ensures found { IfOk result (StandsAt K.cmp (keys_of pairs.now) key.now) }
    ensures absent { IfErr result (BelongsAt K.cmp (keys_of pairs.now) key.now) }
{
    pairs.binary_search_by(|pair| pair.0.cmp(key))
}

/// The value at a key.
pub fn find<'a, K: Ord, V>(pairs: &'a [(K, V)], key: &K) -> Option<&'a V>
    requires { IsStrictlySortedBy K.cmp (keys_of pairs.now) }
    ensures { option_copied result ≡ value_at K.cmp key.now pairs.now }
{
    match place(pairs, key) {
        Ok(at) => Some(&pairs[at].1),
        Err(_) => None,
    }
}

/// Puts a value at a key, in the place of the one that stands there.
pub fn put<K: Ord + Drop, V: Drop>(
    pairs: &mut Seq<(K, V)>,
    key: K,
    value: V,
) -> Result<(), AllocError>
    requires { IsStrictlySortedBy K.cmp (keys_of pairs.old) }
    ensures ok { OnOk result (pairs.new ≡ insert_entry K.cmp pairs.old key value) }
    ensures err { OnErr result (pairs.new ≡ pairs.old) }
    ensures ascending { IsStrictlySortedBy K.cmp (keys_of pairs.new) }
    ensures here { OnOk result (value_at K.cmp key pairs.new ≡ Some value) }
    ensures others { OnOk result ((k : K) → is_at (K.cmp k) key ≡ false →
        value_at K.cmp k pairs.new ≡ value_at K.cmp k pairs.old) }
{
    match place(pairs.as_slice(), &key) {
        Ok(at) => {
            pairs.set_value(at, value);
            Ok(())
        }
        Err(at) => pairs.insert(at, (key, value)),
    }
}
