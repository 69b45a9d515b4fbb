//! The entities that values name.
ghost use Rattle.std.specs.Prelude.{◌≡◌, ◌++◌, ℕ, List, flat_map, OnOk};
ghost use Rattle.sc_values.specs.declared.value.Value.{Value as AnyValue};
ghost use Rattle.sc_values.specs.declared.value.Value.TheVariants.{Record};
ghost use Rattle.sc_world.specs.Named.{uids_in, uids_in_data};

use crate::entity::EntityData;
use sc_lists::Seq;
use sc_names::Uid;
use sc_values::{Rec, Set, Value};
use std::alloc::{AllocError, Global};

/// Puts the entities that a value names at the end of a list. Where memory runs out, some of them
/// may be put.
#[cycle(named)]
#[tactic(auto, using(crate::proofs::UidsLaws::uids_Set, crate::proofs::UidsLaws::uids_Record), unfolding(crate::specs::Named::uids_in))]
pub(crate) fn put_named(alloc: Global, uids: &mut Seq<Uid>, v: &Value) -> Result<(), AllocError>
    ensures { OnOk result (uids.new ≡ uids.old ++ uids_in v.now) }
{
    match v {
        Value::Bool(_) => Ok(()),
        Value::Long(_) => Ok(()),
        Value::String(_) => Ok(()),
        Value::Entity(uid) => uids.push(uid.try_clone(alloc)?),
        Value::Set(members) => put_members(alloc, uids, members),
        Value::Record(fields) => put_fields(alloc, uids, fields),
        Value::Decimal(_) => Ok(()),
        Value::Ip(_) => Ok(()),
    }
}

#[cycle(named)]
fn put_members(alloc: Global, uids: &mut Seq<Uid>, members: &Set) -> Result<(), AllocError>
    ensures { OnOk result (uids.new ≡ uids.old ++ flat_map uids_in members.now) }
{
    for member in members.as_slice() {
        put_named(alloc, uids, member)?;
    }
    Ok(())
}

#[cycle(named)]
fn put_fields(alloc: Global, uids: &mut Seq<Uid>, fields: &Rec) -> Result<(), AllocError>
    ensures { OnOk result (uids.new ≡ uids.old ++ flat_map (λ (f : List ℕ × AnyValue). uids_in f.1) fields.now) }
{
    for field in fields.as_slice() {
        put_named(alloc, uids, &field.1)?;
    }
    Ok(())
}

/// Puts the entities that a record names at the end of a list. Where memory runs out, some of them
/// may be put.
#[tactic(auto, using(crate::proofs::UidsLaws::uids_Record))]
pub(crate) fn put_in_record(
    alloc: Global,
    uids: &mut Seq<Uid>,
    fields: &Rec,
) -> Result<(), AllocError>
    ensures { OnOk result (uids.new ≡ uids.old ++ uids_in (Record fields.now)) }
{
    put_fields(alloc, uids, fields)
}

/// Puts the entities that a stored one names at the end of a list.
pub(crate) fn put_in_entity(
    alloc: Global,
    uids: &mut Seq<Uid>,
    entity: &EntityData,
) -> Result<(), AllocError>
    ensures { OnOk result (uids.new ≡ uids.old ++ uids_in_data entity.now) }
{
    put_in_record(alloc, uids, &entity.attrs)?;
    put_in_record(alloc, uids, &entity.tags)?;
    put_all(alloc, uids, entity.ancestors.as_slice())
}

/// Puts uids at the end of a list.
pub(crate) fn put_all(alloc: Global, uids: &mut Seq<Uid>, some: &[Uid]) -> Result<(), AllocError>
    ensures { OnOk result (uids.new ≡ uids.old ++ some.now) }
{
    for uid in some {
        uids.push(uid.try_clone(alloc)?)?;
    }
    Ok(())
}
