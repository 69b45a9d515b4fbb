//! Records that are written in a policy.
ghost use Rattle.std.specs.Prelude.{◌≡◌, IfOk, fold};
ghost use Rattle.sc_eval.specs.Collections.{fields_of, record_value};

use sc_lists::{Seq, Text};
use sc_values::{Rec, Value};
use std::alloc::{AllocError, Global};
use std::collections::BTreeMap;

/// The record of these fields, in the order in which they are written; of two fields of one name the
/// last stays.
pub(crate) fn record_value(alloc: Global, pairs: Seq<(Text, Value)>) -> Result<Value, AllocError>
    ensures { IfOk result (λ v. v ≡ record_value pairs) }
{
    let map = map_of(alloc, pairs.into_vec())?;
    Ok(Value::Record(fields_of(alloc, map)?))
}

fn map_of(alloc: Global, pairs: Vec<(Text, Value)>) -> Result<BTreeMap<Text, Value>, AllocError>
    ensures { IfOk result (λ map. map.entries ≡ fields_of pairs.items) }
{
    let mut map = BTreeMap::new(alloc);
    for (name, value) in pairs {
        map.insert(name, value)?;
    }
    Ok(map)
}

fn fields_of(alloc: Global, map: BTreeMap<Text, Value>) -> Result<Rec, AllocError>
    ensures { IfOk result (λ fields. fields ≡ map.entries) }
{
    let mut fields = Seq::new(alloc);
    for (name, value) in map {
        fields.push((name, value))?;
    }
    Ok(fields)
}
