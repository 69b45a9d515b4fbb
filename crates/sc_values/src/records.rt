//! Records of values: how one is made, and the value of a field.
ghost use Rattle.std.specs.Prelude.{◌≡◌, ◌↔◌, ℕ, List, IfOk, IfErr};
ghost use Rattle.std.specs.Option.{option_copied};
ghost use Rattle.std.specs.Map.{keys_of};
ghost use Rattle.sc_values.specs.Records.{Fields, field, IsRecOf, IsRepeated, IsDuplicateKey, Refuses};
ghost use Rattle.sc_values.specs.Repeats.{first_repeated};

use crate::clone::try_clone;
use crate::duplicate_key::DuplicateKey;
use crate::value::{Rec, Value};
use sc_lists::{Fault, Seq, Text};
use std::alloc::{AllocError, Global};

/// The record of just these pairs, in any order. Where two of them have one key, the fault tells the
/// least such key.
pub fn rec_of(alloc: Global, pairs: &[(Text, Value)]) -> Result<Rec, Fault<DuplicateKey>>
    ensures ok { IfOk result (IsRecOf pairs.now) }
    ensures err { IfErr result (Refuses pairs.now) }
{
    let mut fields = copies_of(alloc, pairs)?;
    fields.sort()?;
    if let Some(key) = repeated_key(fields.as_slice()) {
        let key = key.try_clone(alloc)?;
        return Err(Fault::Told(DuplicateKey { key }));
    }
    Ok(Seq::from_vec(fields))
}

fn copies_of(alloc: Global, pairs: &[(Text, Value)]) -> Result<Vec<(Text, Value)>, AllocError>
    ensures { IfOk result (λ copies. copies.items ≡ pairs.now) }
{
    let mut copies = Vec::new(alloc);
    for pair in pairs {
        copies.push((pair.0.try_clone(alloc)?, try_clone(alloc, &pair.1)?))?;
    }
    Ok(copies)
}

/// The first key that is the one before it again.
fn repeated_key(fields: &[(Text, Value)]) -> Option<&Text>
    ensures { option_copied result ≡ first_repeated (keys_of fields.now) }
{
    let Some((first, rest)) = fields.split_first() else {
        return None;
    };
    let mut last = &first.0;
    for pair in rest {
        if pair.0.is_same(last) {
            return Some(last);
        }
        last = &pair.0;
    }
    None
}

/// Pairs make one record, or have one least key that is repeated, and never both.
pub fn rec_laws()
    ensures one_record { (pairs r s : Fields) → IsRecOf pairs r → IsRecOf pairs s → r ≡ s }
    ensures one_duplicate { (pairs : Fields) (a b : List ℕ) → IsDuplicateKey pairs a → IsDuplicateKey pairs b → a ≡ b }
    ensures distinct { (pairs r : Fields) (key : List ℕ) → IsRecOf pairs r → ¬ IsRepeated pairs key }
{}

/// The value of a field, where the record has it.
pub fn field<'r>(r: &'r Rec, name: &str) -> Option<&'r Value>
    ensures { option_copied result ≡ field name.now r.now }
{
    for pair in r.as_slice() {
        if name == pair.0.as_str() {
            return Some(&pair.1);
        }
    }
    None
}
