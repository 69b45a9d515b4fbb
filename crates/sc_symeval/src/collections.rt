//! Sets and records that are written, of members that are compiled.
ghost use Rattle.std.specs.Prelude.{◌≡◌, ◌<◌, ℕ, List, All, length, map, IfOk};
ghost use Rattle.sc_terms.specs.Tables.{tree, Keeps};
ghost use Rattle.sc_constructs.specs.declared.opt.Opt.{Opt as AnyOpt};
ghost use Rattle.sc_constructs.specs.Code.{first_sort as sort_of_first, set_code, record_code};
ghost use Rattle.sc_constructs.specs.Numbers.{AreCodes, AreFields, StandsAs, codes_at, field_at};
ghost use Rattle.sc_symeval.specs.Parts.{numbers_in_order};

use sc_constructs::{Opt, Setting};
use sc_lists::{Seq, Text};
use sc_sorts::{Parts, Sort, try_clone};
use sc_terms::Terms;
use std::alloc::{AllocError, Global};
use std::collections::BTreeMap;

/// `[a, b]`.
#[tactic(auto, using(crate::proofs::CollectionLaws::conditions_within, crate::proofs::CollectionLaws::values_within))]
pub(crate) fn set_of(
    setting: &Setting<'_>,
    terms: &mut Terms,
    codes: &[Opt],
) -> Result<Opt, AllocError>
    requires { AreCodes terms.old codes.now }
    ensures ok { IfOk result (λ o. StandsAs terms.new o (set_code (codes_at terms.old codes.now))) }
    ensures kept { Keeps terms.old terms.new }
{
    let values = vals(setting.alloc, codes)?;
    let member = first_sort(setting.alloc, terms, values.as_slice())?;
    let val = terms.set(member, values.as_slice())?;
    let conditions = oks(setting.alloc, codes)?;
    let ok = terms.all_of(conditions.as_slice())?;
    Ok(Opt { ok, val })
}

/// The numbers of the terms that are true where members have values.
fn oks(alloc: Global, codes: &[Opt]) -> Result<Seq<u64>, AllocError>
    ensures { IfOk result (λ ns. ns ≡ map (λ (o : AnyOpt). o.ok) codes.now) }
{
    let mut numbers = Seq::new(alloc);
    for code in codes {
        numbers.push(code.ok)?;
    }
    Ok(numbers)
}

/// The numbers of the members' values.
fn vals(alloc: Global, codes: &[Opt]) -> Result<Seq<u64>, AllocError>
    ensures { IfOk result (λ ns. ns ≡ map (λ (o : AnyOpt). o.val) codes.now) }
{
    let mut numbers = Seq::new(alloc);
    for code in codes {
        numbers.push(code.val)?;
    }
    Ok(numbers)
}

/// The sort of the first of some terms, which all have. Of no terms that of truth values.
fn first_sort(alloc: Global, terms: &Terms, numbers: &[u64]) -> Result<Sort, AllocError>
    requires { All (λ n. n < length terms.now) numbers.now }
    ensures { IfOk result (λ s. s ≡ sort_of_first (map (tree terms.now) numbers.now)) }
{
    match numbers.split_first() {
        Some((n, _)) => try_clone(alloc, terms.sort(*n)),
        None => Ok(Sort::Bool),
    }
}

/// `{a: x, b: y}`.
#[tactic(auto, using(crate::proofs::CollectionLaws::field_conditions_within, crate::proofs::CollectionLaws::parts_within))]
pub(crate) fn record_of(
    setting: &Setting<'_>,
    terms: &mut Terms,
    fields: &[(Text, Opt)],
) -> Result<Opt, AllocError>
    requires { AreFields terms.old fields.now }
    ensures ok { IfOk result (λ o. StandsAs terms.new o (record_code (map (field_at terms.old) fields.now))) }
    ensures kept { Keeps terms.old terms.new }
{
    let conditions = field_oks(setting.alloc, fields)?;
    let ok = terms.all_of(conditions.as_slice())?;
    let parts = parts(setting.alloc, fields)?;
    let val = terms.record(parts)?;
    Ok(Opt { ok, val })
}

/// The numbers of the terms that are true where fields have values, in the order in which the fields
/// are written.
fn field_oks(alloc: Global, fields: &[(Text, Opt)]) -> Result<Seq<u64>, AllocError>
    ensures { IfOk result (λ ns. ns ≡ map (λ (f : List ℕ × AnyOpt). f.1.ok) fields.now) }
{
    let mut numbers = Seq::new(alloc);
    for field in fields {
        numbers.push(field.1.ok)?;
    }
    Ok(numbers)
}

/// The numbers of the fields' values, in the order of names. Of two fields of one name the last stays.
fn parts(alloc: Global, fields: &[(Text, Opt)]) -> Result<Parts, AllocError>
    ensures { IfOk result (λ ps. ps ≡ numbers_in_order fields.now) }
{
    let mut named = BTreeMap::new(alloc);
    for field in fields {
        named.insert(field.0.try_clone(alloc)?, field.1.val)?;
    }
    listed(alloc, named)
}

fn listed(alloc: Global, named: BTreeMap<Text, u64>) -> Result<Parts, AllocError>
    ensures { IfOk result (λ ps. ps ≡ named.entries) }
{
    let mut parts = Seq::new(alloc);
    for (name, n) in named {
        parts.push((name, n))?;
    }
    Ok(parts)
}
