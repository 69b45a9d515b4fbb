//! Whether a value is of a type.
ghost use Rattle.std.specs.Prelude.{◌≡◌, ◌&&◌, ℕ, List, true, false};
ghost use Rattle.std.specs.List.{list_all, list_any};
ghost use Rattle.std.specs.Str.{bytes_eq};
ghost use Rattle.std.specs.Option.{option_copied};
ghost use Rattle.sc_schema.specs.declared.ty.Presence.{Presence as AnyPresence};
ghost use Rattle.sc_schema.specs.declared.ty.Ty.{Ty as AnyTy};
ghost use Rattle.sc_values.specs.declared.value.Value.{Value as AnyValue, out-Value};
ghost use Rattle.sc_values.specs.declared.value.Value.TheVariants.{Record};
ghost use Rattle.sc_values.specs.Records.{field};
ghost use Rattle.sc_world.specs.Choices.{is_choice};
ghost use Rattle.sc_world.specs.Conforms as of_type;
ghost use Rattle.sc_world.specs.Conforms.{shape_of, has_shape};

use crate::choices::is_choice;
use sc_names::Uid;
use sc_schema::{Attributes, EntityKind, Presence, Ty};
use sc_values::{Rec, Set, Value, field};

/// Whether a value is of a type: a record has the fields of its type, may lack those that aren't
/// required, and has no others.
#[cycle(conforms)]
#[tactic(auto, unfolding(crate::specs::Conforms::conforms))]
pub fn conforms(x: &Value, ty: &Ty) -> bool
    ensures { result ≡ of_type.conforms ty.now x.now }
{
    match ty {
        Ty::True => is_truth(x, true),
        Ty::False => is_truth(x, false),
        Ty::Bool => is_bool(x),
        Ty::Long => is_long(x),
        Ty::String => is_string(x),
        Ty::Decimal => is_decimal(x),
        Ty::Ip => is_ip(x),
        Ty::Entity(kind) => is_entity_of(x, kind),
        Ty::Set(member) => is_set_of(member.get(), x),
        Ty::Record(attributes) => is_record_of(attributes, x),
    }
}

/// Whether a record is of a type.
pub fn record_conforms(fields: &Rec, ty: &Ty) -> bool
    ensures { result ≡ of_type.conforms ty.now (Record fields.now) }
{
    match ty {
        Ty::Record(attributes) => fits(attributes, fields),
        _ => false,
    }
}

#[cycle(conforms)]
fn is_set_of(member: &Ty, x: &Value) -> bool
    ensures { result ≡ of_type.is_set_of (of_type.conforms member.now) (out-Value x.now) }
{
    match x {
        Value::Set(members) => each_conforms(member, members),
        _ => false,
    }
}

#[cycle(conforms)]
fn each_conforms(ty: &Ty, members: &Set) -> bool
    ensures { result ≡ list_all (of_type.conforms ty.now) members.now }
{
    for member in members.as_slice() {
        if !conforms(member, ty) {
            return false;
        }
    }
    true
}

#[cycle(conforms)]
fn is_record_of(attributes: &Attributes, x: &Value) -> bool
    ensures { result ≡ of_type.is_record_of (shape_of attributes.now) (out-Value x.now) }
{
    match x {
        Value::Record(fields) => fits(attributes, fields),
        _ => false,
    }
}

/// Whether a record has the fields of its type.
#[cycle(conforms)]
fn fits(attributes: &Attributes, fields: &Rec) -> bool
    ensures { result ≡ has_shape (shape_of attributes.now) fields.now }
{
    let each_passes = attributes_pass(attributes, fields);
    let declared = are_declared(attributes, fields);
    each_passes && declared
}

#[cycle(conforms)]
fn attributes_pass(attributes: &Attributes, fields: &Rec) -> bool
    ensures { result ≡ list_all (λ (a : List ℕ × AnyPresence
        × AnyTy). of_type.passes a.1 (of_type.conforms a.2) (field a.0 fields.now)) attributes.now }
{
    for attribute in attributes.as_slice() {
        if !passes(
            attribute.1,
            &attribute.2,
            field(fields, attribute.0.as_str()),
        ) {
            return false;
        }
    }
    true
}

#[cycle(conforms)]
fn passes(presence: Presence, ty: &Ty, found: Option<&Value>) -> bool
    ensures { result ≡ of_type.passes presence (of_type.conforms ty.now) (option_copied found.entry) }
{
    match found {
        Some(x) => conforms(x, ty),
        None => may_lack(presence),
    }
}

fn may_lack(presence: Presence) -> bool
    ensures { result ≡ of_type.may_lack presence }
{
    match presence {
        Presence::Required => false,
        Presence::Optional => true,
    }
}

fn are_declared(attributes: &Attributes, fields: &Rec) -> bool
    ensures { result ≡ list_all (λ (f : List ℕ
        × AnyValue). list_any (λ (a : List ℕ × AnyPresence × AnyTy). bytes_eq f.0 a.0) attributes.now) fields.now }
{
    fields
        .as_slice()
        .iter()
        .all(|field| is_declared(attributes, field.0.as_str()))
}

fn is_declared(attributes: &Attributes, name: &str) -> bool
    ensures { result ≡ list_any (λ (a : List ℕ × AnyPresence × AnyTy). bytes_eq name.now a.0) attributes.now }
{
    attributes
        .as_slice()
        .iter()
        .any(|attribute| name == attribute.0.as_str())
}

fn is_truth(x: &Value, wanted: bool) -> bool
    ensures { result ≡ of_type.is_truth wanted (out-Value x.now) }
{
    match x {
        Value::Bool(b) => *b == wanted,
        _ => false,
    }
}

fn is_bool(x: &Value) -> bool
    ensures { result ≡ of_type.is_bool (out-Value x.now) }
{
    matches!(x, Value::Bool(_))
}

fn is_long(x: &Value) -> bool
    ensures { result ≡ of_type.is_long (out-Value x.now) }
{
    matches!(x, Value::Long(_))
}

fn is_string(x: &Value) -> bool
    ensures { result ≡ of_type.is_string (out-Value x.now) }
{
    matches!(x, Value::String(_))
}

fn is_decimal(x: &Value) -> bool
    ensures { result ≡ of_type.is_decimal (out-Value x.now) }
{
    matches!(x, Value::Decimal(_))
}

fn is_ip(x: &Value) -> bool
    ensures { result ≡ of_type.is_ip (out-Value x.now) }
{
    matches!(x, Value::Ip(_))
}

fn is_entity_of(x: &Value, kind: &EntityKind) -> bool
    ensures { result ≡ of_type.is_entity_of kind.now (out-Value x.now) }
{
    match x {
        Value::Entity(uid) => is_uid_of(uid, kind),
        _ => false,
    }
}

fn is_uid_of(uid: &Uid, kind: &EntityKind) -> bool
    ensures { result ≡ (bytes_eq uid.now.type_name kind.now.name && is_choice kind.now.choices uid.now.id) }
{
    let named = uid.type_name.as_str() == kind.name.as_str();
    let chosen = is_choice(&kind.choices, &uid.id);
    named && chosen
}
