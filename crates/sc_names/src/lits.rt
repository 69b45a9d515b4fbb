//! Sets of uids.
ghost use Rattle.std.specs.Prelude.{◌≡◌, List, ◌++◌, ◌↔◌, ◌⊎◌, ◌==◌, [], length, Contains, IfOk, OnOk, IsTrue};
ghost use Rattle.std.specs.List.Sorted.{IsStrictlySortedBy};
ghost use Rattle.sc_names.specs.declared.uid.Uid.{Uid as AnyUid};
ghost use Rattle.sc_names.specs.Uids.{uid_cmp};

use crate::uid::Uid;
use std::alloc::{AllocError, Global};
use std::marker::Model;

/// A set of uids: in ascending order, each once.
#[derive(Debug, Drop)]
pub struct Lits {
    uids: Vec<Uid>,
}

impl Model for Lits {
    ghost use Rattle.std.specs.Prelude.{List};
    ghost use Rattle.std.specs.List.Sorted.{IsStrictlySortedBy};
    ghost use Rattle.sc_names.specs.declared.uid.Uid.{Uid as AnyUid};
    ghost use Rattle.sc_names.specs.Uids.{uid_cmp};

    ghost Value = { List AnyUid };

    ghost view = { λ l. l.uids.items };

    ghost invariant = { λ l. IsStrictlySortedBy uid_cmp l.uids.items };
}

impl Lits {
    /// The empty set, which holds no memory yet.
    #[tactic(auto, using(crate::proofs::LitsLaws::none))]
    pub fn new(alloc: Global) -> Lits
        ensures { result ≡ [] }
    {
        Lits {
            uids: Vec::new(alloc),
        }
    }

    /// The uids of the set, in ascending order.
    pub fn as_slice(&self) -> &[Uid]
        ensures value { result.now ≡ self.now }
        ensures ascending { IsStrictlySortedBy uid_cmp self.now }
    {
        self.uids.as_slice()
    }

    /// How many uids are in the set.
    pub fn len(&self) -> usize
        ensures { result ≡ length self.now }
    {
        self.uids.len()
    }

    /// Whether no uid is in the set.
    pub fn is_empty(&self) -> bool
        ensures { result ≡ (length self.now == 0) }
    {
        self.uids.is_empty()
    }

    /// Whether a uid is in the set.
    pub fn contains(&self, uid: &Uid) -> bool
        ensures { IsTrue result ↔ Contains self.now uid.now }
    {
        self.as_slice().binary_search(uid).is_ok()
    }

    /// A copy, which equals the set.
    pub fn try_clone(&self, alloc: Global) -> Result<Lits, AllocError>
        ensures { IfOk result (λ lits. lits ≡ self.now) }
    {
        let mut uids = Vec::new(alloc);
        put_all(alloc, &mut uids, self.as_slice())?;
        Ok(Lits { uids })
    }
}

/// Puts copies of uids at the end of a list. Where memory runs out, some of them may be put.
fn put_all(alloc: Global, list: &mut Vec<Uid>, uids: &[Uid]) -> Result<(), AllocError>
    ensures { OnOk result (list.new.items ≡ list.old.items ++ uids.now) }
{
    for uid in uids {
        list.push(uid.try_clone(alloc)?)?;
    }
    Ok(())
}

/// The set of the uids in a list.
fn set_of(mut uids: Vec<Uid>) -> Result<Lits, AllocError>
    ensures { IfOk result (λ lits. (u : AnyUid) → Contains lits u ↔ Contains uids.items u) }
{
    uids.sort()?;
    uids.dedup();
    Ok(Lits { uids })
}

/// The set of just these uids.
pub fn lits_of(alloc: Global, uids: &[Uid]) -> Result<Lits, AllocError>
    ensures { IfOk result (λ lits. (u : AnyUid) → Contains lits u ↔ Contains uids.now u) }
{
    let mut list = Vec::new(alloc);
    put_all(alloc, &mut list, uids)?;
    set_of(list)
}

/// The set of the uids in either set.
pub fn lits_union(alloc: Global, a: &Lits, b: &Lits) -> Result<Lits, AllocError>
    ensures { IfOk result (λ lits. (u : AnyUid) → Contains lits u ↔ (Contains a.now u ⊎ Contains b.now u)) }
{
    let mut list = Vec::new(alloc);
    put_all(alloc, &mut list, a.as_slice())?;
    put_all(alloc, &mut list, b.as_slice())?;
    set_of(list)
}

/// Sets of the same uids are equal.
#[tactic(auto, using(crate::proofs::LitsLaws::one_list))]
pub fn lits_laws()
    ensures { (s t : List AnyUid) → IsStrictlySortedBy uid_cmp s → IsStrictlySortedBy uid_cmp t
        → ((u : AnyUid) → Contains s u ↔ Contains t u) → s ≡ t }
{}
