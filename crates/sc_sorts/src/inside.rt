//! The sorts that a sort is made of.
ghost use Rattle.std.specs.Prelude.{◌≡◌, IfOk, unwrap_or};
ghost use Rattle.std.specs.Map.{lookup};
ghost use Rattle.std.specs.Option.{option_copied};
ghost use Rattle.std.specs.Str.{bytes_eq};
ghost use Rattle.sc_sorts.specs.declared.sort.Sort.TheVariants.{Bool};
ghost use Rattle.sc_sorts.specs.Inside as inside;

use crate::clone::try_clone;
use crate::sort::Sort;
use sc_lists::Text;
use std::alloc::{AllocError, Global};

/// The sort of a record's field, and that of truth values where the sort isn't one of records with
/// such a field.
pub fn field_sort(alloc: Global, name: &Text, of: &Sort) -> Result<Sort, AllocError>
    ensures { IfOk result (λ s. s ≡ inside.field_sort name.now of.now) }
{
    match of {
        Sort::Record(fields) => sort_among(alloc, name, fields.as_slice()),
        _ => Ok(Sort::Bool),
    }
}

fn sort_among(alloc: Global, name: &Text, fields: &[(Text, Sort)]) -> Result<Sort, AllocError>
    ensures { IfOk result (λ s. s ≡ unwrap_or (lookup (bytes_eq name.now) fields.now) Bool) }
{
    match find_sort(name, fields) {
        Some(sort) => try_clone(alloc, sort),
        None => Ok(Sort::Bool),
    }
}

fn find_sort<'a>(name: &Text, fields: &'a [(Text, Sort)]) -> Option<&'a Sort>
    ensures { option_copied result ≡ lookup (bytes_eq name.now) fields.now }
{
    let mut rest = fields;
    while let Some((field, later)) = rest.split_first() {
        if name.as_str() == field.0.as_str() {
            return Some(&field.1);
        }
        rest = later;
    }
    None
}

/// The sort of what an option holds, and that of truth values where the sort is none of options.
pub fn held_sort(alloc: Global, option: &Sort) -> Result<Sort, AllocError>
    ensures { IfOk result (λ s. s ≡ inside.held_sort option.now) }
{
    match option {
        Sort::Option(held) => try_clone(alloc, held.get()),
        _ => Ok(Sort::Bool),
    }
}

/// The sort of a set's members, and that of truth values where the sort is none of sets.
pub fn member_sort(alloc: Global, set: &Sort) -> Result<Sort, AllocError>
    ensures { IfOk result (λ s. s ≡ inside.member_sort set.now) }
{
    match set {
        Sort::Set(member) => try_clone(alloc, member.get()),
        _ => Ok(Sort::Bool),
    }
}
