//! The sort of each type.
ghost use Rattle.std.specs.Prelude.{◌≡◌, ◌++◌, [], ◌∷◌, map, IfOk, OnOk};
ghost use Rattle.sc_sorts.specs.OfTypes.{sort_of, field_sort, with_presence};

use crate::entities::uids_of;
use crate::sort::Sort;
use sc_lists::{Boxed, Seq, Shared, Text};
use sc_schema::{Attributes, Presence, Ty};
use std::alloc::{AllocError, Global};

/// The sort of a type's values. Both truth values are of one sort, an attribute that a record may
/// lack is of an option sort, and of entities the choices of their type are listed.
#[cycle(sorts)]
#[tactic(auto, using(crate::proofs::OfTypesLaws::sort_of_Record, crate::proofs::OfTypesLaws::sort_of_Set), unfolding(crate::specs::OfTypes::sort_of))]
pub fn sort_of(alloc: Global, ty: &Ty) -> Result<Sort, AllocError>
    ensures { IfOk result (λ s. s ≡ sort_of ty.now) }
{
    match ty {
        Ty::True => Ok(Sort::Bool),
        Ty::False => Ok(Sort::Bool),
        Ty::Bool => Ok(Sort::Bool),
        Ty::Long => Ok(Sort::Long),
        Ty::String => Ok(Sort::String),
        Ty::Decimal => Ok(Sort::Decimal),
        Ty::Ip => Ok(Sort::Ip),
        Ty::Entity(kind) => Ok(Sort::Entity(kind.name.try_clone(alloc)?, uids_of(alloc, kind)?)),
        Ty::Set(member) => Ok(Sort::Set(boxed_sort(alloc, member)?)),
        Ty::Record(attributes) => Ok(Sort::Record(sorts_of(alloc, attributes)?)),
    }
}

#[cycle(sorts)]
fn boxed_sort(alloc: Global, ty: &Shared<Ty>) -> Result<Boxed<Sort>, AllocError>
    ensures { IfOk result (λ s. s ≡ sort_of ty.now) }
{
    Boxed::new(alloc, sort_of(alloc, ty.get())?)
}

/// The fields of a record sort.
#[cycle(sorts)]
fn sorts_of(alloc: Global, attributes: &Attributes) -> Result<Seq<(Text, Sort)>, AllocError>
    ensures { IfOk result (λ fields. fields ≡ map field_sort attributes.now) }
{
    let mut fields = Seq::new(alloc);
    for attribute in attributes.as_slice() {
        put_field(alloc, attribute, &mut fields)?;
    }
    Ok(fields)
}

#[cycle(sorts)]
fn put_field(
    alloc: Global,
    attribute: &(Text, Presence, Ty),
    fields: &mut Seq<(Text, Sort)>,
) -> Result<(), AllocError>
    ensures { OnOk result (fields.new ≡ fields.old ++ field_sort attribute.now ∷ []) }
{
    let name = attribute.0.try_clone(alloc)?;
    let sort = sort_of(alloc, &attribute.2)?;
    let sort = present_as(alloc, attribute.1, sort)?;
    fields.push((name, sort))
}

/// The sort itself, or options of it.
fn present_as(alloc: Global, presence: Presence, sort: Sort) -> Result<Sort, AllocError>
    ensures { IfOk result (λ s. s ≡ with_presence presence sort) }
{
    match presence {
        Presence::Required => Ok(sort),
        Presence::Optional => Ok(Sort::Option(Boxed::new(alloc, sort)?)),
    }
}
