//! What types stand for.
ghost use Rattle.std.specs.Prelude.{◌≡◌, ℕ, List, map, IfOk, OnOk};
ghost use Rattle.sc_schema.specs.declared.ty.Presence.{Presence as AnyPresence};
ghost use Rattle.sc_schema.specs.declared.ty.Ty.{Ty as AnyTy};
ghost use Rattle.sc_schema.specs.declared.resolved_type.ResolvedType.{ResolvedType as AnyType};
ghost use Rattle.sc_schema_types.specs.Expansions.{expanded};
ghost use Rattle.sc_schema_types.specs.Tables.{body_in, type_in, with_body, meaning_by};

use crate::kinds::kind_among;
use sc_lists::{Seq, Shared, Text};
use sc_names::Name;
use sc_schema::{Attributes, EntityKind, Presence, ResolvedType, Ty};
use std::alloc::{AllocError, Global};
use std::collections::BTreeMap;

/// What a type stands for, each common type in it being looked up in a table.
#[cycle(expansion)]
#[tactic(auto, using(crate::proofs::ExpansionLaws::expanded_Entity, crate::proofs::ExpansionLaws::expanded_Set, crate::proofs::ExpansionLaws::expanded_Record, crate::proofs::ExpansionLaws::expanded_Common), unfolding(crate::specs::Expansions::expanded))]
pub(crate) fn expanded(
    alloc: Global,
    kinds: &[EntityKind],
    table: &BTreeMap<Name, Ty>,
    resolved: &ResolvedType,
) -> Result<Ty, AllocError>
    ensures { IfOk result (λ ty. ty ≡ expanded kinds.now (type_in table.now.entries) resolved.now) }
{
    match resolved {
        ResolvedType::Boolean => Ok(Ty::Bool),
        ResolvedType::Long => Ok(Ty::Long),
        ResolvedType::String => Ok(Ty::String),
        ResolvedType::Decimal => Ok(Ty::Decimal),
        ResolvedType::Ip => Ok(Ty::Ip),
        ResolvedType::Entity(name) => Ok(Ty::Entity(kind_among(alloc, kinds, name)?)),
        ResolvedType::Set(element) => {
            Ok(Ty::Set(Shared::new(alloc, expanded(alloc, kinds, table, element.get())?)?))
        }
        ResolvedType::Record(attributes) => {
            let fields = expanded_all(alloc, kinds, table, attributes.as_slice())?;
            Ok(Ty::Record(Attributes::new(alloc, fields)?))
        }
        ResolvedType::Common(name) => type_in(alloc, table, name),
    }
}

/// The fields that attributes stand for.
#[cycle(expansion)]
fn expanded_all(
    alloc: Global,
    kinds: &[EntityKind],
    table: &BTreeMap<Name, Ty>,
    attributes: &[(Text, Presence, ResolvedType)],
) -> Result<Seq<(Text, Presence, Ty)>, AllocError>
    ensures { IfOk result (λ fields. fields ≡ map
        (λ (a : List ℕ × AnyPresence × AnyType). (a.0, a.1, expanded kinds.now (type_in table.now.entries) a.2))
        attributes.now) }
{
    let mut fields = Seq::new(alloc);
    for attribute in attributes {
        fields.push((
            attribute.0.try_clone(alloc)?,
            attribute.1,
            expanded(alloc, kinds, table, &attribute.2)?,
        ))?;
    }
    Ok(fields)
}

/// What a common type in a table stands for, and the truth values for any other name.
fn type_in(alloc: Global, table: &BTreeMap<Name, Ty>, name: &Name) -> Result<Ty, AllocError>
    ensures { IfOk result (λ ty. ty ≡ type_in table.now.entries name.now) }
{
    match table.get(name) {
        Some(ty) => ty.try_clone(alloc),
        None => Ok(Ty::Bool),
    }
}

/// What common types stand for, which are taken in this order.
pub(crate) fn meaning_of(
    alloc: Global,
    kinds: &[EntityKind],
    bodies: &BTreeMap<Name, &ResolvedType>,
    order: &[Name],
) -> Result<BTreeMap<Name, Ty>, AllocError>
    ensures { IfOk result (λ table. type_in table.entries
        ≡ meaning_by kinds.now (body_in bodies.now.entries) order.now) }
{
    let mut table = BTreeMap::new(alloc);
    for name in order {
        put_type(alloc, kinds, bodies, &mut table, name)?;
    }
    Ok(table)
}

/// Puts what a common type stands for into a table, if it has a body.
fn put_type(
    alloc: Global,
    kinds: &[EntityKind],
    bodies: &BTreeMap<Name, &ResolvedType>,
    table: &mut BTreeMap<Name, Ty>,
    name: &Name,
) -> Result<(), AllocError>
    ensures { OnOk result (type_in table.new.entries
        ≡ with_body (body_in bodies.now.entries) (expanded kinds.now) (type_in table.old.entries) name.now) }
{
    let Some(body) = bodies.get(name) else {
        return Ok(());
    };
    let key = name.try_clone(alloc)?;
    let ty = expanded(alloc, kinds, table, body)?;
    table.insert(key, ty)?;
    Ok(())
}
