//! Sorts as a script writes them.
ghost use Rattle.std.specs.Prelude.{◌≡◌, IfOk};
ghost use Rattle.sc_smtlib_terms.specs.Sorts as sorts;

use crate::numbers::numeral;
use sc_smtlib_forms::{Form, plain, with_one};
use sc_sorts::Sort;
use std::alloc::{AllocError, Global};

/// The place of a sort's kind in the order of kinds.
fn kind(sort: &Sort) -> u8
    ensures { result ≡ sorts.kind_of sort.now }
{
    match sort {
        Sort::Bool => 0,
        Sort::Long => 1,
        Sort::String => 2,
        Sort::Decimal => 3,
        Sort::Ip => 4,
        Sort::Entity(_, _) => 5,
        Sort::Set(_) => 6,
        Sort::Record(_) => 7,
        Sort::Option(_) => 8,
    }
}

/// How many of a sort's kind stand before it among the datatypes.
pub fn number_among(sort: &Sort, datatypes: &[Sort]) -> u64
    ensures { result ≡ sorts.number_among sort.now datatypes.now }
{
    let mut before = 0;
    for d in datatypes {
        if d == sort {
            return before;
        }
        if kind(d) == kind(sort) {
            before += 1;
        }
    }
    before
}

/// The same in decimal.
#[tactic(auto, unfolding(crate::specs::Sorts::number))]
pub fn number(alloc: Global, datatypes: &[Sort], sort: &Sort) -> Result<Vec<u8>, AllocError>
    ensures { IfOk result (λ v. v.items ≡ sorts.number datatypes.now sort.now) }
{
    numeral(alloc, number_among(sort, datatypes))
}

/// The name of the datatype of a sort of entities.
pub fn entity_name(alloc: Global, datatypes: &[Sort], sort: &Sort) -> Result<Vec<u8>, AllocError>
    ensures { IfOk result (λ v. v.items ≡ sorts.entity_name datatypes.now sort.now) }
{
    with_one(
        alloc,
        Form::EntityName,
        number(alloc, datatypes, sort)?.as_slice(),
    )
}

/// The name of the datatype of a sort of records.
pub fn record_name(alloc: Global, datatypes: &[Sort], sort: &Sort) -> Result<Vec<u8>, AllocError>
    ensures { IfOk result (λ v. v.items ≡ sorts.record_name datatypes.now sort.now) }
{
    with_one(
        alloc,
        Form::RecordName,
        number(alloc, datatypes, sort)?.as_slice(),
    )
}

/// The name of the datatype of a sort of options.
pub fn option_name(alloc: Global, datatypes: &[Sort], sort: &Sort) -> Result<Vec<u8>, AllocError>
    ensures { IfOk result (λ v. v.items ≡ sorts.option_name datatypes.now sort.now) }
{
    with_one(
        alloc,
        Form::OptionName,
        number(alloc, datatypes, sort)?.as_slice(),
    )
}

/// A sort as a script writes it.
#[tactic(auto, using(crate::proofs::SortTextLaws::text_Bool, crate::proofs::SortTextLaws::text_Long, crate::proofs::SortTextLaws::text_String, crate::proofs::SortTextLaws::text_Decimal, crate::proofs::SortTextLaws::text_Ip, crate::proofs::SortTextLaws::text_Entity, crate::proofs::SortTextLaws::text_Set, crate::proofs::SortTextLaws::text_Record, crate::proofs::SortTextLaws::text_Option))]
pub fn sort_text(alloc: Global, datatypes: &[Sort], sort: &Sort) -> Result<Vec<u8>, AllocError>
    ensures { IfOk result (λ v. v.items ≡ sorts.sort_text datatypes.now sort.now) }
{
    match sort {
        Sort::Bool => plain(alloc, Form::Bool),
        Sort::Long => plain(alloc, Form::Long),
        Sort::String => plain(alloc, Form::String),
        Sort::Decimal => plain(alloc, Form::Decimal),
        Sort::Ip => plain(alloc, Form::Ip),
        Sort::Entity(_, _) => entity_name(alloc, datatypes, sort),
        Sort::Set(member) => {
            let inner = sort_text(alloc, datatypes, member.get())?;
            with_one(alloc, Form::SetSort, inner.as_slice())
        }
        Sort::Record(_) => record_name(alloc, datatypes, sort),
        Sort::Option(_) => option_name(alloc, datatypes, sort),
    }
}
