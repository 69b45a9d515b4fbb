//! Which common types a type names.
ghost use Rattle.std.specs.Prelude.{◌≡◌, ◌++◌, ℕ, List, IfOk, OnOk};
ghost use Rattle.std.specs.List.{flat_map};
ghost use Rattle.sc_schema.specs.declared.ty.Presence.{Presence as AnyPresence};
ghost use Rattle.sc_schema.specs.declared.resolved_type.ResolvedType.{ResolvedType as AnyType};
ghost use Rattle.sc_schema_types.specs.References.{names_in};

use sc_lists::{Seq, Text};
use sc_names::Name;
use sc_schema::{Presence, ResolvedType};
use std::alloc::{AllocError, Global};

/// The common types that a type names, in order.
pub(crate) fn names_in(alloc: Global, resolved: &ResolvedType) -> Result<Seq<Name>, AllocError>
    ensures { IfOk result (λ names. names ≡ names_in resolved.now) }
{
    let mut names = Seq::new(alloc);
    put_names(alloc, &mut names, resolved)?;
    Ok(names)
}

/// Puts the common types that a type names at the end. Where memory runs out, some of them may be put.
#[cycle(names)]
#[tactic(auto, using(crate::proofs::NamesLaws::names_Set, crate::proofs::NamesLaws::names_Record, crate::proofs::NamesLaws::names_Common), unfolding(crate::specs::References::names_in))]
fn put_names(
    alloc: Global,
    names: &mut Seq<Name>,
    resolved: &ResolvedType,
) -> Result<(), AllocError>
    ensures { OnOk result (names.new ≡ names.old ++ names_in resolved.now) }
{
    match resolved {
        ResolvedType::Boolean
        | ResolvedType::Long
        | ResolvedType::String
        | ResolvedType::Decimal
        | ResolvedType::Ip
        | ResolvedType::Entity(_) => Ok(()),
        ResolvedType::Set(element) => put_names(alloc, names, element.get()),
        ResolvedType::Record(attributes) => put_attributes(alloc, names, attributes.as_slice()),
        ResolvedType::Common(name) => names.push(name.try_clone(alloc)?),
    }
}

/// Puts the common types that attributes name at the end.
#[cycle(names)]
fn put_attributes(
    alloc: Global,
    names: &mut Seq<Name>,
    attributes: &[(Text, Presence, ResolvedType)],
) -> Result<(), AllocError>
    ensures { OnOk result (names.new ≡ names.old
        ++ flat_map (λ (a : List ℕ × AnyPresence × AnyType). names_in a.2) attributes.now) }
{
    for attribute in attributes {
        put_names(alloc, names, &attribute.2)?;
    }
    Ok(())
}
