//! Sets and records that are written in a policy.
ghost use Rattle.std.specs.Prelude.{◌≡◌, ℕ, List, map, fold, [], IfOk, OnOk};
ghost use Rattle.sc_lists.specs.Told.{Gives};
ghost use Rattle.sc_schema.specs.declared.ty.Presence.TheVariants.{Required};
ghost use Rattle.sc_schema.specs.declared.ty.Ty.{Ty as AnyTy};
ghost use Rattle.sc_typed.specs.Outcomes.{ty, made, joined};
ghost use Rattle.sc_typing_rules.specs.Rules.{all_joined, member_type, set_of, with_field, record_type};

use crate::logic::{boxed_type, joined_with};
use crate::outcome::plain;
use sc_ast::Place;
use sc_lists::{Boxed, Fault, Seq, Shared, Text};
use sc_schema::{Attributes, Presence, Ty};
use sc_typed::operands::copy_of_ty;
use sc_typed::{TypeFault, TypeRule, Typed, TypedExpr};
use std::alloc::{AllocError, Global};
use std::collections::BTreeMap;

/// `[a, b]`.
pub fn set_of(
    alloc: Global,
    place: Place,
    members: Seq<TypedExpr>,
) -> Result<Typed, Fault<TypeFault>>
    ensures { Gives result (set_of place members) }
{
    let member = member_type(alloc, place, members.as_slice())?;
    let ty = Ty::Set(Shared::new(alloc, member)?);
    Ok(plain(alloc, TypedExpr::Set(place, ty, members))?)
}

/// The type that those of all members join to.
fn member_type(alloc: Global, place: Place, members: &[TypedExpr]) -> Result<Ty, Fault<TypeFault>>
    ensures { Gives result (member_type place members.now) }
{
    let Some((first, rest)) = members.split_first() else {
        return Err(Fault::Told(TypeFault {
            rule: TypeRule::EmptySet,
            at: place,
        }));
    };
    let ty = boxed_type(alloc, first)?;
    all_joined(alloc, place, ty, rest)
}

/// The type that a type and those of expressions join to, from left to right.
fn all_joined(
    alloc: Global,
    place: Place,
    mut ty: Boxed<Ty>,
    members: &[TypedExpr],
) -> Result<Ty, Fault<TypeFault>>
    ensures { Gives result (all_joined place ty members.now) }
{
    for member in members {
        ty = joined_member(alloc, place, ty, member)?;
    }
    Ok(ty.into_inner())
}

/// The type that a type and that of a member join to, in a box.
fn joined_member(
    alloc: Global,
    place: Place,
    first: Boxed<Ty>,
    member: &TypedExpr,
) -> Result<Boxed<Ty>, Fault<TypeFault>>
    ensures { Gives result (joined place first (ty member.now)) }
{
    let both = joined_with(alloc, place, first.get(), member)?;
    Ok(Boxed::new(alloc, both)?)
}

/// `{a: x, b: y}`.
pub fn record_of(
    alloc: Global,
    place: Place,
    fields: Seq<(Text, TypedExpr)>,
) -> Result<Typed, AllocError>
    ensures { IfOk result (λ x. x ≡ made (TypedExpr.Record place (record_type fields) fields) []) }
{
    let ty = record_type(alloc, fields.as_slice())?;
    plain(alloc, TypedExpr::Record(place, ty, fields))
}

/// The type of a record: the types of its fields in the order of names, all required.
fn record_type(alloc: Global, fields: &[(Text, TypedExpr)]) -> Result<Ty, AllocError>
    ensures { IfOk result (λ t. t ≡ record_type fields.now) }
{
    let types = types_of(alloc, fields)?;
    Ok(Ty::Record(Attributes::new(alloc, required(alloc, types)?)?))
}

fn types_of(alloc: Global, fields: &[(Text, TypedExpr)]) -> Result<BTreeMap<Text, Ty>, AllocError>
    ensures { IfOk result (λ types. types.entries ≡ fold with_field [] fields.now) }
{
    let mut types = BTreeMap::new(alloc);
    for field in fields {
        put_type(alloc, &mut types, field)?;
    }
    Ok(types)
}

/// Puts the type of a field, in place of that of an earlier one of its name.
fn put_type(
    alloc: Global,
    types: &mut BTreeMap<Text, Ty>,
    field: &(Text, TypedExpr),
) -> Result<(), AllocError>
    ensures { OnOk result (types.new.entries ≡ with_field types.old.entries field.now) }
{
    let name = field.0.try_clone(alloc)?;
    types.insert(name, copy_of_ty(alloc, &field.1)?)?;
    Ok(())
}

fn required(
    alloc: Global,
    types: BTreeMap<Text, Ty>,
) -> Result<Seq<(Text, Presence, Ty)>, AllocError>
    ensures { IfOk result (λ fields. fields ≡ map (λ (f : List ℕ × AnyTy). (f.0, Required, f.1)) types.entries) }
{
    let mut fields = Seq::new(alloc);
    for (name, ty) in types {
        fields.push((name, Presence::Required, ty))?;
    }
    Ok(fields)
}
