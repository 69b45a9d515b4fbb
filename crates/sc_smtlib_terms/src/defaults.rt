//! The default of a sort, written out whole.
ghost use Rattle.std.specs.Prelude.{◌≡◌, ◌++◌, ◌∷◌, [], map, ℕ, List, IfOk, OnOk};
ghost use Rattle.sc_sorts.specs.declared.sort.Sort.{Sort as AnySort};
ghost use Rattle.sc_smtlib_terms.specs.Defaults as defaults;

use crate::bodies::{none_text, record_text};
use crate::literals::{ip_text, long_text, truth_text, uid_text};
use crate::sets::set_text;
use crate::sorts::{record_name, sort_text};
use sc_ip::Ip;
use sc_lists::{Seq, Text};
use sc_names::{Name, Uid};
use sc_smtlib_forms::{Form, with_one};
use sc_sorts::{Sort, default_uid};
use std::alloc::{AllocError, Global};

/// The default of a sort, written out whole: what is false, zero or empty, a record of defaults, or
/// the absent option.
#[cycle(defaults)]
#[tactic(auto, using(crate::proofs::DefaultTextLaws::default_Bool, crate::proofs::DefaultTextLaws::default_Long, crate::proofs::DefaultTextLaws::default_String, crate::proofs::DefaultTextLaws::default_Decimal, crate::proofs::DefaultTextLaws::default_Ip, crate::proofs::DefaultTextLaws::default_Entity, crate::proofs::DefaultTextLaws::default_Set, crate::proofs::DefaultTextLaws::default_Record, crate::proofs::DefaultTextLaws::default_Option))]
pub(crate) fn default_text(
    alloc: Global,
    datatypes: &[Sort],
    sort: &Sort,
) -> Result<Vec<u8>, AllocError>
    ensures { IfOk result (λ v. v.items ≡ defaults.default_text datatypes.now sort.now) }
{
    match sort {
        Sort::Bool => truth_text(alloc, false),
        Sort::Long => long_text(alloc, 0),
        Sort::String => with_one(alloc, Form::Text, b""),
        Sort::Decimal => long_text(alloc, 0),
        Sort::Ip => ip_text(
            alloc,
            Ip::V4 {
                address: 0,
                prefix: 32,
            },
        ),
        Sort::Entity(name, choices) => entity_default(alloc, name, choices),
        Sort::Set(_) => empty_set(alloc, datatypes, sort),
        Sort::Record(fields) => {
            let parts = default_parts(alloc, datatypes, fields)?;
            let name = record_name(alloc, datatypes, sort)?;
            record_text(alloc, name.as_slice(), parts.as_slice())
        }
        Sort::Option(_) => none_text(alloc, datatypes, sort),
    }
}

fn entity_default(alloc: Global, name: &Name, choices: &Seq<Uid>) -> Result<Vec<u8>, AllocError>
    ensures { IfOk result (λ v. v.items ≡ defaults.entity_default name.now choices.now) }
{
    let uid = default_uid(alloc, name, choices)?;
    uid_text(alloc, &uid, choices)
}

fn empty_set(alloc: Global, datatypes: &[Sort], sort: &Sort) -> Result<Vec<u8>, AllocError>
    ensures { IfOk result (λ v. v.items ≡ defaults.empty_set datatypes.now sort.now) }
{
    let text = sort_text(alloc, datatypes, sort)?;
    with_one(alloc, Form::EmptySet, text.as_slice())
}

#[cycle(defaults)]
fn default_parts(
    alloc: Global,
    datatypes: &[Sort],
    fields: &Seq<(Text, Sort)>,
) -> Result<Seq<Seq<u8>>, AllocError>
    ensures { IfOk result (λ ps. ps ≡ map (λ (f : List ℕ
        × AnySort). defaults.default_text datatypes.now f.1) fields.now) }
{
    let mut parts = Seq::new(alloc);
    for field in fields.as_slice() {
        put_default(alloc, datatypes, field, &mut parts)?;
    }
    Ok(parts)
}

#[cycle(defaults)]
fn put_default(
    alloc: Global,
    datatypes: &[Sort],
    field: &(Text, Sort),
    parts: &mut Seq<Seq<u8>>,
) -> Result<(), AllocError>
    ensures { OnOk result (parts.new ≡ parts.old ++ defaults.default_text datatypes.now field.now.1 ∷ []) }
{
    let text = default_text(alloc, datatypes, &field.1)?;
    parts.push(Seq::from_vec(text))
}
