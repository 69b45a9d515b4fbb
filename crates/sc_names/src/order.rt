//! The order of uids, and its laws.
ghost use Rattle.std.specs.Prelude.{◌≡◌};
ghost use Rattle.std.specs.Cmp.{IsTotalOrder};
ghost use Rattle.std.specs.declared.cmp.Ordering.TheVariants.{Equal};
ghost use Rattle.sc_names.specs.contracts.uid.UidOrd.TheImpl.{ghosts};
ghost use Rattle.sc_names.specs.declared.uid.Uid.{Uid as AnyUid};
ghost use Rattle.sc_names.specs.Uids.{uid_cmp};

use crate::uid::Uid;
use std::cmp::Ordering;

/// The order of two uids: by type, then id, both by bytes.
pub fn compare(a: &Uid, b: &Uid) -> Ordering
    ensures { result ≡ uid_cmp a.now b.now }
{
    a.cmp(b)
}

/// The order that `Ord` gives uids is the one by type, then id; it is total, and only equal uids
/// are level in it.
#[tactic(auto, using(crate::proofs::UidLaws::uid_cmp_total, crate::proofs::UidLaws::uid_cmp_level))]
pub fn order_laws()
    ensures derived { (a b : AnyUid) → ghosts.cmp a b ≡ uid_cmp a b }
    ensures total { IsTotalOrder uid_cmp }
    ensures level { (a b : AnyUid) → uid_cmp a b ≡ Equal → a ≡ b }
{}
