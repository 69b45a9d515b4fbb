//! Copies of names.
ghost use Rattle.std.specs.Prelude.{◌≡◌, IfOk};

use sc_lists::Seq;
use sc_names::Name;
use std::alloc::{AllocError, Global};

/// A copy, which equals the names.
pub(crate) fn copy_names(alloc: Global, names: &Seq<Name>) -> Result<Seq<Name>, AllocError>
    ensures { IfOk result (λ copy. copy ≡ names.now) }
{
    let mut copy = Seq::new(alloc);
    for name in names.as_slice() {
        copy.push(name.try_clone(alloc)?)?;
    }
    Ok(copy)
}
