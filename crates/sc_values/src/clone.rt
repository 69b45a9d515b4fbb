//! Copies of values.
ghost use Rattle.std.specs.Prelude.{◌≡◌, IfOk};

use crate::value::{Rec, Set, Value};
use sc_lists::Seq;
use std::alloc::{AllocError, Global};

/// A copy, which equals the value.
#[cycle(clone)]
pub fn try_clone(alloc: Global, v: &Value) -> Result<Value, AllocError>
    ensures { IfOk result (λ copy. copy ≡ v.now) }
{
    match v {
        Value::Bool(b) => Ok(Value::Bool(*b)),
        Value::Long(n) => Ok(Value::Long(*n)),
        Value::String(text) => Ok(Value::String(text.try_clone(alloc)?)),
        Value::Entity(uid) => Ok(Value::Entity(uid.try_clone(alloc)?)),
        Value::Set(members) => Ok(Value::Set(clone_set(alloc, members)?)),
        Value::Record(fields) => Ok(Value::Record(clone_rec(alloc, fields)?)),
        Value::Decimal(d) => Ok(Value::Decimal(*d)),
        Value::Ip(ip) => Ok(Value::Ip(*ip)),
    }
}

/// A copy, which equals the set.
#[cycle(clone)]
pub fn clone_set(alloc: Global, s: &Set) -> Result<Set, AllocError>
    ensures { IfOk result (λ copy. copy ≡ s.now) }
{
    let mut copy = Seq::new(alloc);
    for member in s.as_slice() {
        copy.push(try_clone(alloc, member)?)?;
    }
    Ok(copy)
}

/// A copy, which equals the record.
#[cycle(clone)]
pub fn clone_rec(alloc: Global, r: &Rec) -> Result<Rec, AllocError>
    ensures { IfOk result (λ copy. copy ≡ r.now) }
{
    let mut copy = Seq::new(alloc);
    for field in r.as_slice() {
        copy.push((field.0.try_clone(alloc)?, try_clone(alloc, &field.1)?))?;
    }
    Ok(copy)
}
