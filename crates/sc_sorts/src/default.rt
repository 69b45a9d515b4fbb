//! The default of each sort.
ghost use Rattle.std.specs.Prelude.{◌≡◌, ◌++◌, [], ℕ, List, flat_map, IfOk, OnOk};
ghost use Rattle.sc_sorts.specs.declared.sort.Sort.{Sort as AnySort};
ghost use Rattle.sc_sorts.specs.Defaults.{default_field, default_of, default_uid, is_option};

use crate::sort::Sort;
use sc_lists::{Seq, Text};
use sc_names::{Name, Uid};
use sc_values::{Decimal, Ip, Rec, Value};
use std::alloc::{AllocError, Global};

/// The default of a sort: what is false, zero or empty; of entities the first that is listed, and
/// where none is the one with no id; the record of just the fields that it may not lack; and of an
/// option sort the default of what it holds.
#[cycle(defaults)]
#[tactic(auto, using(crate::proofs::DefaultLaws::default_Record, crate::proofs::DefaultLaws::default_Option), unfolding(crate::specs::Defaults::default_of))]
pub fn default_of(alloc: Global, sort: &Sort) -> Result<Value, AllocError>
    ensures { IfOk result (λ x. x ≡ default_of sort.now) }
{
    match sort {
        Sort::Bool => Ok(Value::Bool(false)),
        Sort::Long => Ok(Value::Long(0)),
        Sort::String => Ok(Value::String(Text::from_str(alloc, "")?)),
        Sort::Decimal => Ok(Value::Decimal(Decimal::from_ten_thousandths(0))),
        Sort::Ip => Ok(Value::Ip(Ip::V4 {
            address: 0,
            prefix: 32,
        })),
        Sort::Entity(name, choices) => Ok(Value::Entity(default_uid(alloc, name, choices)?)),
        Sort::Set(_) => Ok(Value::Set(Seq::new(alloc))),
        Sort::Record(fields) => Ok(Value::Record(default_fields(alloc, fields)?)),
        Sort::Option(held) => default_of(alloc, held.get()),
    }
}

/// The fields that a record may not lack, each with its sort's default.
#[cycle(defaults)]
fn default_fields(alloc: Global, fields: &Seq<(Text, Sort)>) -> Result<Rec, AllocError>
    ensures { IfOk result (λ r. r ≡ flat_map (λ (f : List ℕ
        × AnySort). default_field f.0 (is_option f.1) (default_of f.1)) fields.now) }
{
    let mut defaults = Seq::new(alloc);
    for field in fields.as_slice() {
        put_field(alloc, field, &mut defaults)?;
    }
    Ok(defaults)
}

#[cycle(defaults)]
fn put_field(alloc: Global, field: &(Text, Sort), defaults: &mut Rec) -> Result<(), AllocError>
    ensures { OnOk result (defaults.new ≡ defaults.old
        ++ default_field field.now.0 (is_option field.now.1) (default_of field.now.1)) }
{
    if is_option(&field.1) {
        return Ok(());
    }
    let name = field.0.try_clone(alloc)?;
    let value = default_of(alloc, &field.1)?;
    defaults.push((name, value))
}

fn is_option(sort: &Sort) -> bool
    ensures { result ≡ is_option sort.now }
{
    matches!(sort, Sort::Option(_))
}

/// The default entity of a type of which these are listed: the first of them, and the one with no
/// id where none is.
pub fn default_uid(alloc: Global, name: &Name, choices: &Seq<Uid>) -> Result<Uid, AllocError>
    ensures { IfOk result (λ u. u ≡ default_uid name.now choices.now) }
{
    match choices.as_slice().split_first() {
        Some((first, _)) => first.try_clone(alloc),
        None => Uid::nameless(alloc, name),
    }
}
