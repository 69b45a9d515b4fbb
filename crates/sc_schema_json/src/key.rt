//! Keys that are looked up among others.
ghost use Rattle.std.specs.Prelude.{◌≡◌, ◌↔◌, Some, Contains, IfOk, IfSome, IfNone, IsTrue};
ghost use Rattle.std.specs.List.{slice_get};
ghost use Rattle.std.specs.List.Sorted.{IsStrictlySortedBy};
ghost use Rattle.std.specs.Cmp.{IsTotalOrder};
ghost use Rattle.std.specs.Map.{keys_of};
ghost use Rattle.std.proofs.lemmas.Cmp.{nat_list_cmp_total};
ghost use Rattle.sc_names.proofs.UidLaws.{uid_cmp_total};
ghost use Rattle.std.specs.declared.cmp.Ordering.{Ordering as AnyOrdering};
ghost use Rattle.sc_names.specs.Uids.{text_cmp, uid_cmp};

use sc_lists::{Seq, members, pairs};
use sc_names::{Name, Uid};
use std::alloc::{AllocError, Global};

/// A key, which is looked up by its order.
pub(crate) trait Key: Drop {
    ghost order: { Self → Self → AnyOrdering };

    ghost total: { IsTotalOrder order };

    /// Where a key stands among keys that ascend, counted from 0.
    fn place(links: &[(Self, Seq<Self>)], key: &Self) -> Option<usize>
        requires { IsStrictlySortedBy order (keys_of links.now) }
        ensures found { IfSome result (λ at. slice_get (keys_of links.now) at ≡ Some key.now) }
        ensures none { IfNone result (¬ Contains (keys_of links.now) key.now) };

    /// Whether a key is among keys that ascend.
    fn is_in(keys: &[Self], key: &Self) -> bool
        requires { IsStrictlySortedBy order keys.now }
        ensures { IsTrue result ↔ Contains keys.now key.now };

    /// A copy, which equals the key.
    fn copy(&self, alloc: Global) -> Result<Self, AllocError>
        ensures { IfOk result (λ copy. copy ≡ self.now) };
}

impl Key for Name {
    ghost order = { text_cmp };

    ghost total = { nat_list_cmp_total };

    fn place(links: &[(Name, Seq<Name>)], key: &Name) -> Option<usize> {
        match pairs::place(links, key) {
            Ok(at) => Some(at),
            Err(_) => None,
        }
    }

    fn is_in(keys: &[Name], key: &Name) -> bool {
        members::place(keys, key).is_ok()
    }

    fn copy(&self, alloc: Global) -> Result<Name, AllocError> {
        self.try_clone(alloc)
    }
}

impl Key for Uid {
    ghost order = { uid_cmp };

    ghost total = { uid_cmp_total };

    fn place(links: &[(Uid, Seq<Uid>)], key: &Uid) -> Option<usize> {
        match pairs::place(links, key) {
            Ok(at) => Some(at),
            Err(_) => None,
        }
    }

    fn is_in(keys: &[Uid], key: &Uid) -> bool {
        members::place(keys, key).is_ok()
    }

    fn copy(&self, alloc: Global) -> Result<Uid, AllocError> {
        self.try_clone(alloc)
    }
}

/// Copies of keys.
pub(crate) fn copies<K: Key>(alloc: Global, keys: &[K]) -> Result<Seq<K>, AllocError>
    ensures { IfOk result (λ copies. copies ≡ keys.now) }
{
    let mut copies = Seq::new(alloc);
    for key in keys {
        copies.push(key.copy(alloc)?)?;
    }
    Ok(copies)
}
