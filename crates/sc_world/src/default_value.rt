//! The default of each type.
ghost use Rattle.std.specs.Prelude.{◌≡◌, ◌++◌, ℕ, List, find, flat_map, slice_get, IfOk, OnOk};
ghost use Rattle.std.specs.Option.{option_copied};
ghost use Rattle.std.specs.Str.{bytes_eq};
ghost use Rattle.sc_names.specs.declared.uid.Uid.{Uid as AnyUid};
ghost use Rattle.sc_schema.specs.Declarations.{action_uids, choices_of};
ghost use Rattle.sc_schema.specs.declared.ty.Presence.{Presence as AnyPresence};
ghost use Rattle.sc_schema.specs.declared.ty.Ty.{Ty as AnyTy};
ghost use Rattle.sc_world.specs.Defaults.{default_uid, default_field, default_value, first_entity};

use sc_lists::{Seq, Text};
use sc_names::{Name, Uid};
use sc_schema::{Attributes, Presence, Schema, Ty, actions, choices_of, is_action_type};
use sc_values::{Decimal, Ip, Rec, Value};
use std::alloc::{AllocError, Global};

/// The default of a type: what is false, zero or empty, the default entity of a type, and of a
/// record type the record of just the fields that it may not lack.
#[cycle(defaults)]
#[tactic(auto, using(crate::proofs::DefaultLaws::default_Record), unfolding(crate::specs::Defaults::default_value))]
pub(crate) fn default_value(alloc: Global, s: &Schema, ty: &Ty) -> Result<Value, AllocError>
    ensures { IfOk result (λ x. x ≡ default_value s.now ty.now) }
{
    match ty {
        Ty::True => Ok(Value::Bool(true)),
        Ty::False => Ok(Value::Bool(false)),
        Ty::Bool => Ok(Value::Bool(false)),
        Ty::Long => Ok(Value::Long(0)),
        Ty::String => Ok(Value::String(Text::from_str(alloc, "")?)),
        Ty::Decimal => Ok(Value::Decimal(Decimal::from_ten_thousandths(0))),
        Ty::Ip => Ok(Value::Ip(Ip::V4 {
            address: 0,
            prefix: 32,
        })),
        Ty::Entity(kind) => Ok(Value::Entity(default_uid(alloc, s, &kind.name)?)),
        Ty::Set(_) => Ok(Value::Set(Seq::new(alloc))),
        Ty::Record(attributes) => Ok(Value::Record(default_fields(alloc, s, attributes)?)),
    }
}

/// The fields that a record may not lack, each with its type's default.
#[cycle(defaults)]
pub(crate) fn default_fields(
    alloc: Global,
    s: &Schema,
    attributes: &Attributes,
) -> Result<Rec, AllocError>
    ensures { IfOk result (λ r. r ≡ flat_map (λ (a : List ℕ × AnyPresence
        × AnyTy). default_field a.1 a.0 (default_value s.now a.2)) attributes.now) }
{
    let mut fields = Seq::new(alloc);
    for attribute in attributes.as_slice() {
        put_field(alloc, s, attribute, &mut fields)?;
    }
    Ok(fields)
}

#[cycle(defaults)]
fn put_field(
    alloc: Global,
    s: &Schema,
    attribute: &(Text, Presence, Ty),
    fields: &mut Rec,
) -> Result<(), AllocError>
    ensures { OnOk result (fields.new ≡ fields.old
        ++ default_field attribute.now.1 attribute.now.0 (default_value s.now attribute.now.2)) }
{
    match attribute.1 {
        Presence::Required => {
            let value = default_value(alloc, s, &attribute.2)?;
            fields.push((attribute.0.try_clone(alloc)?, value))
        }
        Presence::Optional => Ok(()),
    }
}

/// The default entity of a type: its least action, and where it has none its first entity.
pub(crate) fn default_uid(alloc: Global, s: &Schema, name: &Name) -> Result<Uid, AllocError>
    ensures { IfOk result (λ u. u ≡ default_uid s.now name.now) }
{
    match first_action(s, name) {
        Some(action) => action.try_clone(alloc),
        None => first_entity(alloc, s, name),
    }
}

/// The first entity of a type: of its first choice if it is enumerated, and else with no id.
fn first_entity(alloc: Global, s: &Schema, name: &Name) -> Result<Uid, AllocError>
    ensures { IfOk result (λ u. u ≡ first_entity name.now (choices_of s.now name.now)) }
{
    match first_choice(s, name) {
        Some(id) => uid_of(alloc, name, id),
        None => Uid::nameless(alloc, name),
    }
}

/// The entity of a type with an id.
fn uid_of(alloc: Global, name: &Name, id: &Text) -> Result<Uid, AllocError>
    ensures { IfOk result (λ u. u ≡ record { type_name = name.now; id = id.now }) }
{
    Ok(Uid {
        type_name: name.try_clone(alloc)?,
        id: id.try_clone(alloc)?,
    })
}

/// The first choice of a type, if it is enumerated.
fn first_choice<'s>(s: &'s Schema, name: &Name) -> Option<&'s Text>
    ensures { option_copied result ≡ slice_get (choices_of s.now name.now) 0 }
{
    match choices_of(s, name) {
        Some(ids) => ids.first(),
        None => None,
    }
}

/// The least action of a type.
fn first_action<'s>(s: &'s Schema, name: &Name) -> Option<&'s Uid>
    ensures { option_copied result ≡ find (λ (u : AnyUid). bytes_eq name.now u.type_name) (action_uids s.now) }
{
    if is_action_type(s, name) {
        actions(s)
            .iter()
            .find(|uid| name.as_str() == uid.type_name.as_str())
    } else {
        None
    }
}
