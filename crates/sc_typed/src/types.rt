//! Types: the type that two types join to, and attributes.
ghost use Rattle.std.specs.Prelude.{◌≡◌, ◌&&◌, [], IfOk, option_map, unwrap_or, if◌then◌else◌};
ghost use Rattle.std.specs.Option.{option_copied, option_and_then};
ghost use Rattle.std.specs.Cmp.Lexicographic.{pointwise};
ghost use Rattle.std.specs.Str.{bytes_eq};
ghost use Rattle.sc_schema.specs.Declarations.{attrs_of};
ghost use Rattle.sc_typed.specs.Types.{is_true, is_false, is_boolean, truth, only_if, same_kind, joining, join, join_fields, same_presence, entity_kind, member, record_fields, attributes, attribute, is_required};

use crate::kinds::{
    entity_kind, is_boolean, is_decimal, is_false, is_ip, is_long, is_string, is_true, member,
    record_fields,
};
use sc_lists::{Seq, Shared, Text};
use sc_names::Name;
use sc_schema::{Attributes, Choices, EntityKind, Presence, Schema, Ty, attrs_of, no_attributes};
use std::alloc::{AllocError, Global};

/// The type of a truth value.
pub fn truth(value: bool) -> Ty
    ensures { result ≡ truth value }
{
    if value { Ty::True } else { Ty::False }
}

/// The type that two types join to: equal ones to themselves, two Boolean ones that differ to `Bool`,
/// sets by their members, and records with the same names and the same required fields by their
/// fields. None where they don't join.
#[cycle(join)]
#[tactic(auto, unfolding(crate::specs::Types::join))]
pub fn join(alloc: Global, a: &Ty, b: &Ty) -> Result<Option<Ty>, AllocError>
    ensures { IfOk result (λ o. o ≡ join a.now b.now) }
{
    match a {
        Ty::True => Ok(join_true(b)),
        Ty::False => Ok(join_false(b)),
        Ty::Bool => Ok(only_if(is_boolean(b), Ty::Bool)),
        Ty::Long => Ok(only_if(is_long(b), Ty::Long)),
        Ty::String => Ok(only_if(is_string(b), Ty::String)),
        Ty::Decimal => Ok(only_if(is_decimal(b), Ty::Decimal)),
        Ty::Ip => Ok(only_if(is_ip(b), Ty::Ip)),
        Ty::Entity(kind) => join_entity(alloc, kind, b),
        Ty::Set(member) => join_set(alloc, member.get(), b),
        Ty::Record(fields) => join_record(alloc, fields.as_slice(), b),
    }
}

/// The type, if it may be had.
fn only_if(may: bool, ty: Ty) -> Option<Ty>
    ensures { result ≡ only_if may ty }
{
    if may { Some(ty) } else { None }
}

fn join_true(b: &Ty) -> Option<Ty>
    ensures { result ≡ (if is_true b.now then Some Ty.True else only_if (is_boolean b.now) Ty.Bool) }
{
    if is_true(b) {
        return Some(Ty::True);
    }
    only_if(is_boolean(b), Ty::Bool)
}

fn join_false(b: &Ty) -> Option<Ty>
    ensures { result ≡ (if is_false b.now then Some Ty.False else only_if (is_boolean b.now) Ty.Bool) }
{
    if is_false(b) {
        return Some(Ty::False);
    }
    only_if(is_boolean(b), Ty::Bool)
}

fn join_entity(alloc: Global, kind: &EntityKind, b: &Ty) -> Result<Option<Ty>, AllocError>
    ensures { IfOk result (λ o. o ≡ option_and_then (same_kind kind.now) (entity_kind b.now)) }
{
    let Some(other) = entity_kind(b) else {
        return Ok(None);
    };
    if !is_same_kind(kind, other) {
        return Ok(None);
    }
    Ok(Some(Ty::Entity(other.try_clone(alloc)?)))
}

/// Whether two types of entities have one name and the same choices.
fn is_same_kind(a: &EntityKind, b: &EntityKind) -> bool
    ensures { result ≡ (bytes_eq a.now.name b.now.name && pointwise bytes_eq a.now.choices b.now.choices) }
{
    let named = a.name.as_str() == b.name.as_str();
    let same = are_same(&a.choices, &b.choices);
    named && same
}

fn are_same(a: &Choices, b: &Choices) -> bool
    ensures { result ≡ pointwise bytes_eq a.now b.now }
{
    a.get().as_slice() == b.get().as_slice()
}

#[cycle(join)]
fn join_set(alloc: Global, a: &Ty, b: &Ty) -> Result<Option<Ty>, AllocError>
    ensures { IfOk result (λ o. o ≡ option_and_then (λ m. option_map Ty.Set (join a.now m)) (member b.now)) }
{
    let Some(other) = member(b) else {
        return Ok(None);
    };
    let Some(joined) = join(alloc, a, other)? else {
        return Ok(None);
    };
    Ok(Some(Ty::Set(Shared::new(alloc, joined)?)))
}

#[cycle(join)]
fn join_record(
    alloc: Global,
    fields: &[(Text, Presence, Ty)],
    b: &Ty,
) -> Result<Option<Ty>, AllocError>
    ensures { IfOk result (λ o. o ≡ option_and_then (λ gs. option_map Ty.Record (join_fields (joining fields.now) gs))
        (record_fields b.now)) }
{
    let Some(others) = record_fields(b) else {
        return Ok(None);
    };
    let Some(joined) = join_fields(alloc, fields, others.as_slice())? else {
        return Ok(None);
    };
    Ok(Some(Ty::Record(Attributes::new(alloc, joined)?)))
}

/// The fields of two record types, joined one by one.
#[cycle(join)]
fn join_fields(
    alloc: Global,
    fields: &[(Text, Presence, Ty)],
    others: &[(Text, Presence, Ty)],
) -> Result<Option<Seq<(Text, Presence, Ty)>>, AllocError>
    ensures { IfOk result (λ o. o ≡ join_fields (joining fields.now) others.now) }
{
    let mut joined = Seq::new(alloc);
    for (i, field) in fields.iter().enumerate() {
        let Some(other) = others.get(i) else {
            return Ok(None);
        };
        if !is_alike(field, other) {
            return Ok(None);
        }
        let name = other.0.try_clone(alloc)?;
        let Some(ty) = join(alloc, &field.2, &other.2)? else {
            return Ok(None);
        };
        joined.push((name, other.1, ty))?;
    }
    if fields.len() < others.len() {
        return Ok(None);
    }
    Ok(Some(joined))
}

/// Whether two fields have one name and presence.
fn is_alike(a: &(Text, Presence, Ty), b: &(Text, Presence, Ty)) -> bool
    ensures { result ≡ (bytes_eq a.now.0 b.now.0 && same_presence a.now.1 b.now.1) }
{
    a.0.is_same(&b.0) && same_presence(a.1, b.1)
}

fn same_presence(a: Presence, b: Presence) -> bool
    ensures { result ≡ same_presence a b }
{
    match a {
        Presence::Required => matches!(b, Presence::Required),
        Presence::Optional => matches!(b, Presence::Optional),
    }
}

/// The attributes that records or entities of a type may have; none where it is of neither.
pub fn attributes<'s>(schema: &'s Schema, ty: &'s Ty) -> Option<&'s Attributes>
    ensures { option_map (λ fields. fields.now) result ≡ attributes schema.now ty.now }
{
    match ty {
        Ty::Record(fields) => Some(fields),
        Ty::Entity(kind) => Some(declared(schema, &kind.name)),
        _ => None,
    }
}

/// The attributes that entities of a type may have.
fn declared<'s>(schema: &'s Schema, name: &Name) -> &'s Attributes
    ensures { result.now ≡ unwrap_or (option_and_then record_fields (attrs_of schema.now name.now)) [] }
{
    let Some(shape) = attrs_of(schema, name) else {
        return no_attributes(schema);
    };
    match record_fields(shape) {
        Some(fields) => fields,
        None => no_attributes(schema),
    }
}

/// The attribute of a name, if there is one.
pub fn attribute<'f>(fields: &'f Attributes, name: &Text) -> Option<&'f (Text, Presence, Ty)>
    ensures { option_copied result ≡ attribute name.now fields.now }
{
    fields.find(name)
}

/// Whether each object has an attribute.
pub fn is_required(field: &(Text, Presence, Ty)) -> bool
    ensures { result ≡ is_required field.now }
{
    same_presence(field.1, Presence::Required)
}
