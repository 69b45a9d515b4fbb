//! What is stored of an entity by default.
ghost use Rattle.std.specs.Prelude.{◌≡◌, [], unwrap_or, IfOk};
ghost use Rattle.std.specs.Option.{option_copied};
ghost use Rattle.sc_schema.specs.Declarations as schema;
ghost use Rattle.sc_values.specs.declared.value.Value.{out-Value};
ghost use Rattle.sc_world.specs.Defaults as defaults;

use crate::default_value::default_fields;
use crate::entity::EntityData;
use sc_lists::Seq;
use sc_names::Uid;
use sc_schema::{Schema, Ty, action_ancestors, attrs_of};
use sc_values::Rec;
use std::alloc::{AllocError, Global};

/// What is stored of an entity by default: the default attributes of its type, the declared
/// ancestors of an action, and no tags.
pub(crate) fn default_data(alloc: Global, s: &Schema, uid: &Uid) -> Result<EntityData, AllocError>
    ensures { IfOk result (λ e. e ≡ defaults.default_data s.now uid.now) }
{
    Ok(EntityData {
        attrs: fields_of(alloc, s, attrs_of(s, &uid.type_name))?,
        ancestors: default_ancestors(alloc, s, uid)?,
        tags: Seq::new(alloc),
    })
}

/// The default of a record type, and no fields without a type.
pub(crate) fn fields_of(alloc: Global, s: &Schema, ty: Option<&Ty>) -> Result<Rec, AllocError>
    ensures { IfOk result (λ r. r ≡ defaults.default_fields s.now (option_copied ty.entry)) }
{
    match ty {
        Some(ty) => fields_in(alloc, s, ty),
        None => Ok(Seq::new(alloc)),
    }
}

fn fields_in(alloc: Global, s: &Schema, ty: &Ty) -> Result<Rec, AllocError>
    ensures { IfOk result (λ r. r ≡ defaults.fields_in (out-Value (defaults.default_value s.now ty.now))) }
{
    match ty {
        Ty::Record(attributes) => default_fields(alloc, s, attributes),
        _ => Ok(Seq::new(alloc)),
    }
}

fn default_ancestors(alloc: Global, s: &Schema, uid: &Uid) -> Result<Seq<Uid>, AllocError>
    ensures { IfOk result (λ us. us ≡ unwrap_or (schema.action_ancestors s.now uid.now) []) }
{
    match action_ancestors(s, uid) {
        Some(ancestors) => copies_of(alloc, ancestors),
        None => Ok(Seq::new(alloc)),
    }
}

fn copies_of(alloc: Global, uids: &[Uid]) -> Result<Seq<Uid>, AllocError>
    ensures { IfOk result (λ copies. copies ≡ uids.now) }
{
    let mut copies = Seq::new(alloc);
    for uid in uids {
        copies.push(uid.try_clone(alloc)?)?;
    }
    Ok(copies)
}
