//! Whether what a value's type can hold is a value: sets and records in order, addresses in range.
ghost use Rattle.std.specs.Prelude.{◌≡◌, ◌↔◌, ℕ, List, All, IsTrue, FitsSigned};
ghost use Rattle.std.specs.List.{AllByRecursion};
ghost use Rattle.std.specs.List.Sorted.{IsStrictlySortedBy};
ghost use Rattle.std.specs.Map.{keys_of};
ghost use Rattle.std.specs.Int.{w64};
ghost use Rattle.std.specs.Str.{IsUtf8};
ghost use Rattle.sc_ip.specs.Addresses.{IsIp};
ghost use Rattle.sc_names.specs.Uids.{text_cmp};
ghost use Rattle.sc_values.specs.declared.value.Value.{Value as AnyValue};
ghost use Rattle.sc_values.specs.Order.{value_cmp};
ghost use Rattle.sc_values.specs.Records.{Fields};
ghost use Rattle.sc_values.specs.Proper.{IsProper, IsProperRecord, IsUidText, HasTextName};

use crate::value::{Rec, Set, Value};
use sc_decimal::Decimal;
use sc_ip::Ip;
use sc_lists::{Text, members, pairs};
use sc_names::Uid;

/// Whether the members of each set and the names of each record in a value ascend and each address
/// is within its version's bits, as it takes to be a value. Numbers are in range and texts are UTF-8
/// by their types.
#[cycle(proper)]
pub fn is_proper(v: &Value) -> bool
    ensures { IsTrue result ↔ IsProper v.now }
{
    match v {
        Value::Bool(_) => true,
        Value::Long(n) => is_long(n),
        Value::String(text) => is_text(text),
        Value::Entity(uid) => is_uid_text(uid),
        Value::Set(members) => is_proper_set(members),
        Value::Record(fields) => is_proper_record(fields),
        Value::Decimal(number) => is_decimal(number),
        Value::Ip(ip) => is_ip(*ip),
    }
}

#[cycle(proper)]
fn is_proper_set(members: &Set) -> bool
    ensures { IsTrue result ↔ (IsStrictlySortedBy value_cmp members.now × All IsProper members.now) }
{
    let ascending = ascends(members);
    let proper = has_proper_members(members);
    ascending && proper
}

#[cycle(proper)]
fn has_proper_members(members: &Set) -> bool
    ensures { IsTrue result ↔ All IsProper members.now }
{
    for member in members.as_slice() {
        if !is_proper(member) {
            return false;
        }
    }
    true
}

/// Whether fields make a record: their names ascend, and their values are proper.
#[cycle(proper)]
pub fn is_proper_record(fields: &Rec) -> bool
    ensures { IsTrue result ↔ IsProperRecord fields.now }
{
    let named = has_proper_names(fields);
    let proper = has_proper_values(fields);
    named && proper
}

#[cycle(proper)]
fn has_proper_values(fields: &Rec) -> bool
    ensures { IsTrue result ↔ All (λ (f : List ℕ × AnyValue). IsProper f.1) fields.now }
{
    for field in fields.as_slice() {
        if !is_proper(&field.1) {
            return false;
        }
    }
    true
}

#[tactic(auto, unfolding(crate::specs::Order::value_cmp))]
/// Whether the members stand in the order of values, each once.
pub(crate) fn ascends(members: &Set) -> bool
    ensures { IsTrue result ↔ IsStrictlySortedBy value_cmp members.now }
{
    members::ascending(members.as_slice())
}

fn has_proper_names(fields: &Rec) -> bool
    ensures { IsTrue result ↔ (IsStrictlySortedBy text_cmp (keys_of fields.now) × All HasTextName fields.now) }
{
    let ascending = names_ascend(fields);
    let texts = has_text_names(fields);
    ascending && texts
}

fn names_ascend(fields: &Rec) -> bool
    ensures { IsTrue result ↔ IsStrictlySortedBy text_cmp (keys_of fields.now) }
{
    pairs::ascending(fields.as_slice())
}

fn has_text_names(fields: &Rec) -> bool
    ensures { IsTrue result ↔ All HasTextName fields.now }
{
    fields.as_slice().iter().all(|field| has_text_name(field))
}

#[tactic(auto, unfolding(crate::specs::Proper::HasTextName))]
fn has_text_name(field: &(Text, Value)) -> bool
    ensures { IsTrue result ↔ HasTextName field.now }
{
    is_text(&field.0)
}

fn is_text(text: &Text) -> bool
    ensures { IsTrue result ↔ IsUtf8 text.now }
{
    let _text = text.as_str();
    true
}

/// Whether a uid's name and id are texts, as they are by their types.
pub fn is_uid_text(uid: &Uid) -> bool
    ensures { IsTrue result ↔ IsUidText uid.now }
{
    let _type_name = uid.type_name.as_str();
    let _id = uid.id.as_str();
    true
}

fn is_long(n: &i64) -> bool
    ensures { IsTrue result ↔ FitsSigned w64 n.now }
{
    let _n = *n;
    true
}

fn is_decimal(number: &Decimal) -> bool
    ensures { IsTrue result ↔ FitsSigned w64 number.now }
{
    let _n = number.ten_thousandths();
    true
}

fn is_ip(ip: Ip) -> bool
    ensures { IsTrue result ↔ IsIp ip }
{
    match ip {
        Ip::V4 { prefix, .. } => prefix <= 32,
        Ip::V6 { prefix, .. } => prefix <= 128,
    }
}
