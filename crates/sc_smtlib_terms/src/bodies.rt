//! The bodies of leaves and records.
ghost use Rattle.std.specs.Prelude.{◌≡◌, IfOk};
ghost use Rattle.sc_sorts.specs.declared.sort.Sort.TheVariants.{Option as option_of};
ghost use Rattle.sc_smtlib_terms.specs.Bodies as bodies;
ghost use Rattle.sc_smtlib_terms.specs.Defaults as defaults;

use crate::literals::literal_body;
use crate::patterns::put_spaced;
use crate::sorts::option_name;
use sc_lists::{Boxed, Seq};
use sc_smtlib_forms::{Form, plain, with_one, with_two};
use sc_sorts::{Leaf, Sort, try_clone};
use std::alloc::{AllocError, Global};

/// The absent option of a sort of options.
pub(crate) fn none_text(
    alloc: Global,
    datatypes: &[Sort],
    option: &Sort,
) -> Result<Vec<u8>, AllocError>
    ensures { IfOk result (λ v. v.items ≡ defaults.none_text datatypes.now option.now) }
{
    with_one(
        alloc,
        Form::None,
        option_name(alloc, datatypes, option)?.as_slice(),
    )
}

/// The same, of a sort of what options hold.
fn none_of(alloc: Global, datatypes: &[Sort], held: &Sort) -> Result<Vec<u8>, AllocError>
    ensures { IfOk result (λ v. v.items ≡ defaults.none_text datatypes.now (option_of held.now)) }
{
    let option = Sort::Option(Boxed::new(alloc, try_clone(alloc, held)?)?);
    none_text(alloc, datatypes, &option)
}

/// The body of a leaf.
#[tactic(auto, unfolding(crate::specs::Bodies::leaf_body))]
pub fn leaf_body(alloc: Global, datatypes: &[Sort], leaf: &Leaf) -> Result<Vec<u8>, AllocError>
    ensures { IfOk result (λ v. v.items ≡ bodies.leaf_body datatypes.now leaf.now) }
{
    match leaf {
        Leaf::Literal(literal) => literal_body(alloc, literal),
        Leaf::None(held) => none_of(alloc, datatypes, held),
        Leaf::Principal(_) => plain(alloc, Form::Principal),
        Leaf::Resource(_) => plain(alloc, Form::Resource),
        Leaf::Context(_) => plain(alloc, Form::Context),
    }
}

/// The record of a sort, of the texts of its fields.
pub fn record_text(alloc: Global, name: &[u8], fields: &[Seq<u8>]) -> Result<Vec<u8>, AllocError>
    ensures { IfOk result (λ v. v.items ≡ defaults.record_text name.now fields.now) }
{
    match fields.split_first() {
        None => with_one(alloc, Form::EmptyRecord, name),
        Some(_) => {
            let mut out = Vec::new(alloc);
            put_spaced(&mut out, fields)?;
            with_two(alloc, Form::Record, name, out.as_slice())
        }
    }
}
