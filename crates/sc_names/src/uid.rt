//! Uids of entities.
ghost use Rattle.std.specs.Prelude.{◌≡◌, [], IfOk};

use crate::name::Name;
use sc_lists::{Seq, Text};
use std::alloc::{AllocError, Global};

/// An entity's uid: its type's name and its id. Uids are ordered by type, then id, both by bytes.
#[derive(Debug, PartialEq, Eq, PartialOrd, Ord, Drop)]
pub struct Uid {
    /// The name of the entity's type.
    pub type_name: Name,
    /// The entity's id, any text.
    pub id: Text,
}

impl Uid {
    /// The entity of a type whose id is empty.
    pub fn nameless(alloc: Global, type_name: &Name) -> Result<Uid, AllocError>
        ensures { IfOk result (λ uid. uid ≡ record { type_name = type_name.now; id = [] }) }
    {
        Ok(Uid {
            type_name: type_name.try_clone(alloc)?,
            id: Text::from_str(alloc, "")?,
        })
    }

    /// A copy, which equals the uid.
    pub fn try_clone(&self, alloc: Global) -> Result<Uid, AllocError>
        ensures { IfOk result (λ uid. uid ≡ self.now) }
    {
        Ok(Uid {
            type_name: self.type_name.try_clone(alloc)?,
            id: self.id.try_clone(alloc)?,
        })
    }
}

/// A copy of uids, which equals them.
pub fn clone_uids(alloc: Global, uids: &Seq<Uid>) -> Result<Seq<Uid>, AllocError>
    ensures { IfOk result (λ copy. copy ≡ uids.now) }
{
    let mut copy = Seq::new(alloc);
    for uid in uids.as_slice() {
        copy.push(uid.try_clone(alloc)?)?;
    }
    Ok(copy)
}
