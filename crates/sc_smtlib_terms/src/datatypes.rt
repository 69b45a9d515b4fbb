//! The lines that declare the datatypes of sorts.
ghost use Rattle.std.specs.Prelude.{◌≡◌, ◌++◌, ◌∷◌, [], flat_map, map, IfOk, OnOk};
ghost use Rattle.sc_smtlib_terms.specs.Sorts as sorts;

use crate::literals::{constructor_word, string_text};
use crate::sets::set_text;
use crate::sorts::{entity_name, option_name, record_name, sort_text};
use sc_lists::{Boxed, Seq, Text};
use sc_names::{Name, Uid};
use sc_smtlib_forms::{Form, plain, put_filled, with_one, with_three, with_two, written_label};
use sc_sorts::Sort;
use std::alloc::{AllocError, Global};

fn entity_data(
    alloc: Global,
    datatypes: &[Sort],
    sort: &Sort,
    name: &Name,
    choices: &Seq<Uid>,
) -> Result<Vec<u8>, AllocError>
    ensures { IfOk result (λ v. v.items ≡ sorts.entity_data datatypes.now sort.now name.now choices.now) }
{
    let own = entity_name(alloc, datatypes, sort)?;
    let word = constructor_word(alloc, choices.as_slice())?;
    let name = name.as_str().as_bytes();
    with_three(
        alloc,
        Form::EntityData,
        own.as_slice(),
        name,
        word.as_slice(),
    )
}

fn put_field(
    out: &mut Vec<u8>,
    alloc: Global,
    datatypes: &[Sort],
    sort: &Sort,
    field: &(Text, Sort),
) -> Result<(), AllocError>
    ensures { OnOk result (out.new.items ≡ out.old.items ++ sorts.field_data datatypes.now sort.now field.now) }
{
    let own = record_name(alloc, datatypes, sort)?;
    let label = written_label(alloc, field.0.as_str())?;
    let text = sort_text(alloc, datatypes, &field.1)?;
    put_filled(
        out,
        Form::FieldData,
        own.as_slice(),
        label.as_slice(),
        text.as_slice(),
    )
}

fn record_data(
    alloc: Global,
    datatypes: &[Sort],
    sort: &Sort,
    fields: &Seq<(Text, Sort)>,
) -> Result<Vec<u8>, AllocError>
    ensures { IfOk result (λ v. v.items ≡ sorts.record_data datatypes.now sort.now fields.now) }
{
    let mut out = Vec::new(alloc);
    for field in fields.as_slice() {
        put_field(&mut out, alloc, datatypes, sort, field)?;
    }
    let own = record_name(alloc, datatypes, sort)?;
    with_two(alloc, Form::RecordData, own.as_slice(), out.as_slice())
}

fn option_data(
    alloc: Global,
    datatypes: &[Sort],
    sort: &Sort,
    held: &Boxed<Sort>,
) -> Result<Vec<u8>, AllocError>
    ensures { IfOk result (λ v. v.items ≡ sorts.option_data datatypes.now sort.now held.now) }
{
    let own = option_name(alloc, datatypes, sort)?;
    let text = sort_text(alloc, datatypes, held.get())?;
    with_two(alloc, Form::OptionData, own.as_slice(), text.as_slice())
}

/// The line that declares the datatype of a sort; no text where the sort has none.
#[tactic(auto, using(crate::proofs::LineLaws::data_Bool, crate::proofs::LineLaws::data_Long, crate::proofs::LineLaws::data_String, crate::proofs::LineLaws::data_Decimal, crate::proofs::LineLaws::data_Ip, crate::proofs::LineLaws::data_Entity, crate::proofs::LineLaws::data_Set, crate::proofs::LineLaws::data_Record, crate::proofs::LineLaws::data_Option))]
pub fn data_line(alloc: Global, datatypes: &[Sort], sort: &Sort) -> Result<Vec<u8>, AllocError>
    ensures { IfOk result (λ v. v.items ≡ sorts.data_line datatypes.now sort.now) }
{
    match sort {
        Sort::Bool => Ok(Vec::new(alloc)),
        Sort::Long => Ok(Vec::new(alloc)),
        Sort::String => Ok(Vec::new(alloc)),
        Sort::Decimal => Ok(Vec::new(alloc)),
        Sort::Ip => plain(alloc, Form::AddressData),
        Sort::Entity(name, choices) => entity_data(alloc, datatypes, sort, name, choices),
        Sort::Set(_) => Ok(Vec::new(alloc)),
        Sort::Record(fields) => record_data(alloc, datatypes, sort, fields),
        Sort::Option(held) => option_data(alloc, datatypes, sort, held),
    }
}

fn put_id(alloc: Global, uid: &Uid, ids: &mut Seq<Seq<u8>>) -> Result<(), AllocError>
    ensures { OnOk result (ids.new ≡ ids.old ++ sorts.id_text uid.now ∷ []) }
{
    let text = string_text(alloc, uid.id.as_str())?;
    ids.push(Seq::from_vec(text))
}

fn ids_of(alloc: Global, choices: &[Uid]) -> Result<Seq<Seq<u8>>, AllocError>
    ensures { IfOk result (λ ids. ids ≡ map sorts.id_text choices.now) }
{
    let mut ids = Seq::new(alloc);
    for uid in choices {
        put_id(alloc, uid, &mut ids)?;
    }
    Ok(ids)
}

/// The line of the ids that the entities of a sort have; no text where they aren't listed.
pub fn choice_line(
    alloc: Global,
    datatypes: &[Sort],
    sort: &Sort,
    choices: &[Uid],
) -> Result<Vec<u8>, AllocError>
    ensures { IfOk result (λ v. v.items ≡ sorts.choice_line datatypes.now sort.now choices.now) }
{
    let own = entity_name(alloc, datatypes, sort)?;
    let ids = ids_of(alloc, choices)?;
    let of_texts = plain(alloc, Form::String)?;
    let of_sets = with_one(alloc, Form::SetSort, of_texts.as_slice())?;
    let set = set_text(alloc, of_sets.as_slice(), ids.as_slice())?;
    with_two(alloc, Form::Choices, own.as_slice(), set.as_slice())
}
