//! Lists that grow by one element after another, which mostly have room for the next.
ghost use Rattle.std.specs.Prelude.{◌≡◌, ◌≤◌, ◌+◌, ◌++◌, ◌∷◌, [], OnOk};
ghost use Rattle.std.specs.Vec.{vec_len, vec_capacity};

use std::alloc::AllocError;

/// Makes room for so many elements more.
#[inline(always)]
pub(crate) fn make_room<T: Copy>(list: &mut Vec<T>, count: usize) -> Result<(), AllocError>
    ensures items { list.new.items ≡ list.old.items }
    ensures room { OnOk result (vec_len list.new + count ≤ vec_capacity list.new) }
{
    if count <= list.capacity() - list.len() {
        return Ok(());
    }
    list.reserve(count)?;
    Ok(())
}

/// Puts an element behind the others.
#[inline(always)]
pub fn append<T: Copy>(list: &mut Vec<T>, element: T) -> Result<(), AllocError>
    ensures { OnOk result (list.new.items ≡ list.old.items ++ element ∷ []) }
{
    if list.len() < list.capacity() {
        list.push_reserved(element);
        return Ok(());
    }
    list.push(element)?;
    Ok(())
}
