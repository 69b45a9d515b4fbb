//! The lines that declare: sorts, ids, constants and functions.
ghost use Rattle.std.specs.Prelude.{◌≡◌, ◌<◌, ◌++◌, length, map, flat_map, OnOk};
ghost use Rattle.sc_terms.specs.Tables.{tree};
ghost use Rattle.sc_smtlib_terms.specs.Sorts as declared;
ghost use Rattle.sc_smtlib_lines.specs.declared.functions.Function.{Function as AnyFunction};
ghost use Rattle.sc_smtlib_lines.specs.Gaining.{AreNames, terms_of};
ghost use Rattle.sc_smtlib_lines.specs.Scripts as scripts;

use crate::functions::Function;
use crate::names::Names;
use crate::put::{put_line, put_plain};
use sc_lists::Seq;
use sc_names::Uid;
use sc_smtlib_forms::{Form, plain, with_two};
use sc_smtlib_terms::{choice_line, data_line, sort_text};
use sc_sorts::{Leaf, Node, Sort};
use std::alloc::{AllocError, Global};

/// Puts the lines that stand in every script.
#[tactic(auto, using(crate::proofs::PutLaws::header_put))]
pub(crate) fn put_header(out: &mut Vec<u8>, alloc: Global) -> Result<(), AllocError>
    ensures { OnOk result (out.new.items ≡ out.old.items ++ flat_map scripts.with_newline scripts.header) }
{
    put_plain(out, alloc, Form::Logic)?;
    put_plain(out, alloc, Form::LongSort)?;
    put_plain(out, alloc, Form::DecimalSort)
}

fn put_datatype(
    out: &mut Vec<u8>,
    alloc: Global,
    sorts: &[Sort],
    sort: &Sort,
) -> Result<(), AllocError>
    ensures { OnOk result (out.new.items ≡ out.old.items
        ++ scripts.with_newline (declared.data_line sorts.now sort.now)) }
{
    let line = data_line(alloc, sorts, sort)?;
    put_line(out, line.as_slice())
}

/// Puts the lines of datatypes.
pub(crate) fn put_datatypes(
    out: &mut Vec<u8>,
    alloc: Global,
    sorts: &[Sort],
) -> Result<(), AllocError>
    ensures { OnOk result (out.new.items ≡ out.old.items
        ++ flat_map scripts.with_newline (map (declared.data_line sorts.now) sorts.now)) }
{
    for sort in sorts {
        put_datatype(out, alloc, sorts, sort)?;
    }
    Ok(())
}

fn put_ids(
    out: &mut Vec<u8>,
    alloc: Global,
    sorts: &[Sort],
    sort: &Sort,
    choices: &[Uid],
) -> Result<(), AllocError>
    ensures { OnOk result (out.new.items ≡ out.old.items
        ++ flat_map scripts.with_newline (scripts.ids_lines sorts.now sort.now choices.now)) }
{
    match choices.split_first() {
        None => Ok(()),
        Some(_) => {
            let line = choice_line(alloc, sorts, sort, choices)?;
            put_line(out, line.as_slice())
        }
    }
}

#[tactic(auto, using(crate::proofs::ChoiceLaws::of_Bool, crate::proofs::ChoiceLaws::of_Long, crate::proofs::ChoiceLaws::of_String, crate::proofs::ChoiceLaws::of_Decimal, crate::proofs::ChoiceLaws::of_Ip, crate::proofs::ChoiceLaws::of_Entity, crate::proofs::ChoiceLaws::of_Set, crate::proofs::ChoiceLaws::of_Record, crate::proofs::ChoiceLaws::of_Option))]
fn put_choices_of(
    out: &mut Vec<u8>,
    alloc: Global,
    sorts: &[Sort],
    sort: &Sort,
) -> Result<(), AllocError>
    ensures { OnOk result (out.new.items ≡ out.old.items
        ++ flat_map scripts.with_newline (scripts.choices_lines sorts.now sort.now)) }
{
    match sort {
        Sort::Bool => Ok(()),
        Sort::Long => Ok(()),
        Sort::String => Ok(()),
        Sort::Decimal => Ok(()),
        Sort::Ip => Ok(()),
        Sort::Entity(_, choices) => put_ids(out, alloc, sorts, sort, choices.as_slice()),
        Sort::Set(_) => Ok(()),
        Sort::Record(_) => Ok(()),
        Sort::Option(_) => Ok(()),
    }
}

/// Puts the lines of ids, where types list them.
pub(crate) fn put_choices(
    out: &mut Vec<u8>,
    alloc: Global,
    sorts: &[Sort],
) -> Result<(), AllocError>
    ensures { OnOk result (out.new.items ≡ out.old.items
        ++ flat_map scripts.with_newline (flat_map (scripts.choices_lines sorts.now) sorts.now)) }
{
    for sort in sorts {
        put_choices_of(out, alloc, sorts, sort)?;
    }
    Ok(())
}

fn put_constant(
    out: &mut Vec<u8>,
    alloc: Global,
    sorts: &[Sort],
    form: Form,
    sort: &Sort,
) -> Result<(), AllocError>
    ensures { OnOk result (out.new.items ≡ out.old.items
        ++ scripts.with_newline (scripts.constant_line sorts.now form sort.now)) }
{
    let variable = plain(alloc, form)?;
    let text = sort_text(alloc, sorts, sort)?;
    let line = with_two(alloc, Form::Constant, variable.as_slice(), text.as_slice())?;
    put_line(out, line.as_slice())
}

fn put_variable(
    out: &mut Vec<u8>,
    alloc: Global,
    names: &Names<'_>,
    n: u64,
) -> Result<(), AllocError>
    requires { n < length names.now.terms.now }
    ensures { OnOk result (out.new.items ≡ out.old.items
        ++ flat_map scripts.with_newline (scripts.constant_lines names.now.sorts.now (tree names.now.terms.now n))) }
{
    match names.terms.node(n) {
        Node::Leaf(leaf) => put_leaf(out, alloc, names.sorts, leaf),
        Node::One(_, _) => Ok(()),
        Node::Two(_, _, _) => Ok(()),
        Node::Choice(_, _, _) => Ok(()),
        Node::Many(_, _) => Ok(()),
    }
}

fn put_leaf(out: &mut Vec<u8>, alloc: Global, sorts: &[Sort], leaf: &Leaf) -> Result<(), AllocError>
    ensures { OnOk result (out.new.items ≡ out.old.items
        ++ flat_map scripts.with_newline (scripts.leaf_lines sorts.now leaf.now)) }
{
    match leaf {
        Leaf::Literal(_) => Ok(()),
        Leaf::None(_) => Ok(()),
        Leaf::Principal(sort) => put_constant(out, alloc, sorts, Form::Principal, sort),
        Leaf::Resource(sort) => put_constant(out, alloc, sorts, Form::Resource, sort),
        Leaf::Context(sort) => put_constant(out, alloc, sorts, Form::Context, sort),
    }
}

/// Puts the lines of the variables that are subterms.
pub(crate) fn put_constants(
    out: &mut Vec<u8>,
    alloc: Global,
    names: &Names<'_>,
) -> Result<(), AllocError>
    requires { AreNames names.now }
    ensures { OnOk result (out.new.items ≡ out.old.items ++ flat_map scripts.with_newline
        (flat_map (scripts.constant_lines names.now.sorts.now) (terms_of names.now))) }
{
    let mut rest = names.numbers.as_slice();
    while let Some((n, later)) = rest.split_first() {
        put_variable(out, alloc, names, *n)?;
        rest = later;
    }
    Ok(())
}

/// Puts the lines of functions.
pub(crate) fn put_functions(out: &mut Vec<u8>, functions: &[Function]) -> Result<(), AllocError>
    ensures { OnOk result (out.new.items ≡ out.old.items
        ++ flat_map scripts.with_newline (map (λ (f : AnyFunction). f.line) functions.now)) }
{
    for f in functions {
        put_line(out, f.line.as_slice())?;
    }
    Ok(())
}
