//! Copies of sorts.
ghost use Rattle.std.specs.Prelude.{◌≡◌, IfOk};
ghost use Rattle.sc_sorts.specs.declared.sort.Sort.TheVariants.{Entity};

use crate::sort::Sort;
use sc_lists::{Boxed, Seq, Text};
use sc_names::{Name, Uid, clone_uids};
use std::alloc::{AllocError, Global};

/// A copy, which equals the sort.
#[cycle(clone)]
pub fn try_clone(alloc: Global, sort: &Sort) -> Result<Sort, AllocError>
    ensures { IfOk result (λ copy. copy ≡ sort.now) }
{
    match sort {
        Sort::Bool => Ok(Sort::Bool),
        Sort::Long => Ok(Sort::Long),
        Sort::String => Ok(Sort::String),
        Sort::Decimal => Ok(Sort::Decimal),
        Sort::Ip => Ok(Sort::Ip),
        Sort::Entity(name, choices) => clone_entity(alloc, name, choices),
        Sort::Set(member) => Ok(Sort::Set(clone_boxed(alloc, member)?)),
        Sort::Record(fields) => Ok(Sort::Record(clone_fields(alloc, fields)?)),
        Sort::Option(held) => Ok(Sort::Option(clone_boxed(alloc, held)?)),
    }
}

fn clone_entity(alloc: Global, name: &Name, choices: &Seq<Uid>) -> Result<Sort, AllocError>
    ensures { IfOk result (λ copy. copy ≡ Entity name.now choices.now) }
{
    let choices = clone_uids(alloc, choices)?;
    Ok(Sort::Entity(name.try_clone(alloc)?, choices))
}

#[cycle(clone)]
fn clone_boxed(alloc: Global, sort: &Boxed<Sort>) -> Result<Boxed<Sort>, AllocError>
    ensures { IfOk result (λ copy. copy ≡ sort.now) }
{
    Boxed::new(alloc, try_clone(alloc, sort.get())?)
}

#[cycle(clone)]
fn clone_fields(alloc: Global, fields: &Seq<(Text, Sort)>) -> Result<Seq<(Text, Sort)>, AllocError>
    ensures { IfOk result (λ copy. copy ≡ fields.now) }
{
    let mut copy = Seq::new(alloc);
    for field in fields.as_slice() {
        copy.push((field.0.try_clone(alloc)?, try_clone(alloc, &field.1)?))?;
    }
    Ok(copy)
}
