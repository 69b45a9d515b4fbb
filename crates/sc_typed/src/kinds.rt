//! Of which kind a type is.
ghost use Rattle.std.specs.Prelude.{◌≡◌, option_map};
ghost use Rattle.std.specs.Option.{option_copied};
ghost use Rattle.sc_typed.specs.Types.{is_true, is_false, is_either, is_boolean, is_long, is_string, is_decimal, is_ip, is_record, entity_kind, entity_name, member, group, record_fields};

use sc_names::Name;
use sc_schema::{Attributes, EntityKind, Ty};

/// Whether it is that of `true` alone.
pub fn is_true(ty: &Ty) -> bool
    ensures { result ≡ is_true ty.now }
{
    matches!(ty, Ty::True)
}

/// Whether it is that of `false` alone.
pub fn is_false(ty: &Ty) -> bool
    ensures { result ≡ is_false ty.now }
{
    matches!(ty, Ty::False)
}

/// Whether it is that of both truth values.
pub fn is_either(ty: &Ty) -> bool
    ensures { result ≡ is_either ty.now }
{
    matches!(ty, Ty::Bool)
}

/// Whether it is one of truth values.
pub fn is_boolean(ty: &Ty) -> bool
    ensures { result ≡ is_boolean ty.now }
{
    matches!(ty, Ty::True | Ty::False | Ty::Bool)
}

/// Whether it is that of whole numbers.
pub fn is_long(ty: &Ty) -> bool
    ensures { result ≡ is_long ty.now }
{
    matches!(ty, Ty::Long)
}

/// Whether it is that of texts.
pub fn is_string(ty: &Ty) -> bool
    ensures { result ≡ is_string ty.now }
{
    matches!(ty, Ty::String)
}

/// Whether it is that of decimal numbers.
pub fn is_decimal(ty: &Ty) -> bool
    ensures { result ≡ is_decimal ty.now }
{
    matches!(ty, Ty::Decimal)
}

/// Whether it is that of addresses.
pub fn is_ip(ty: &Ty) -> bool
    ensures { result ≡ is_ip ty.now }
{
    matches!(ty, Ty::Ip)
}

/// Whether it is one of records.
pub fn is_record(ty: &Ty) -> bool
    ensures { result ≡ is_record ty.now }
{
    matches!(ty, Ty::Record(_))
}

/// The type of entities that it is, with its choices, where it is one.
pub fn entity_kind(ty: &Ty) -> Option<&EntityKind>
    ensures { option_copied result ≡ entity_kind ty.now }
{
    match ty {
        Ty::Entity(kind) => Some(kind),
        _ => None,
    }
}

/// The type's name, where it is one of entities.
pub fn entity_name(ty: &Ty) -> Option<&Name>
    ensures { option_copied result ≡ entity_name ty.now }
{
    match ty {
        Ty::Entity(kind) => Some(&kind.name),
        _ => None,
    }
}

/// The type of the members, where it is one of sets.
pub fn member(ty: &Ty) -> Option<&Ty>
    ensures { option_copied result ≡ member ty.now }
{
    match ty {
        Ty::Set(member) => Some(member.get()),
        _ => None,
    }
}

/// The type's name, where it is one of entities or of sets of entities.
pub fn group(ty: &Ty) -> Option<&Name>
    ensures { option_copied result ≡ group ty.now }
{
    match ty {
        Ty::Entity(kind) => Some(&kind.name),
        Ty::Set(member) => entity_name(member.get()),
        _ => None,
    }
}

/// The fields, where it is one of records.
pub fn record_fields(ty: &Ty) -> Option<&Attributes>
    ensures { option_map (λ fields. fields.now) result ≡ record_fields ty.now }
{
    match ty {
        Ty::Record(fields) => Some(fields),
        _ => None,
    }
}
