//! Where in a list that ascends something stands.
ghost use Rattle.std.specs.Prelude.{◌≡◌, Some, Contains, slice_get, IfSome, IfNone};
ghost use Rattle.std.specs.List.Sorted.{IsStrictlySortedBy};
ghost use Rattle.sc_names.specs.Uids.{uid_cmp};
ghost use Rattle.sc_schema.specs.Lawful.{AreAscending};

use sc_names::{Name, Uid};

/// The place of a name, counted from 0.
pub(crate) fn place_of_name(names: &[Name], name: &Name) -> Option<usize>
    requires { AreAscending names.now }
    ensures found { IfSome result (λ at. slice_get names.now at ≡ Some name.now) }
    ensures none { IfNone result (¬ Contains names.now name.now) }
{
    match names.binary_search(name) {
        Ok(at) => Some(at),
        Err(_) => None,
    }
}

/// The place of a uid, counted from 0.
pub(crate) fn place_of_uid(uids: &[Uid], uid: &Uid) -> Option<usize>
    requires { IsStrictlySortedBy uid_cmp uids.now }
    ensures found { IfSome result (λ at. slice_get uids.now at ≡ Some uid.now) }
    ensures none { IfNone result (¬ Contains uids.now uid.now) }
{
    match uids.binary_search(uid) {
        Ok(at) => Some(at),
        Err(_) => None,
    }
}
