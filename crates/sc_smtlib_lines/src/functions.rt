//! The functions of entities that a goal uses.
ghost use Rattle.std.specs.Prelude.{◌≡◌, ◌<◌, ◌∷◌, [], length, flat_map, map, IfOk, OnOk};
ghost use Rattle.std.specs.List.Sorted.{IsStrictlySortedBy};
ghost use Rattle.sc_sorts.specs.declared.sort.Sort.TheVariants.{Set as set_sort, String as text_sort};
ghost use Rattle.sc_terms.specs.Tables.{tree};
ghost use Rattle.sc_smtlib_terms.specs.Sorts.{sort_text};
ghost use Rattle.sc_smtlib_lines.specs.Functions as functions;
ghost use Rattle.sc_smtlib_lines.specs.Gaining.{AreNames, Gains};

use crate::names::Names;
use sc_lists::{Seq, members};
use sc_smtlib_forms::{Form, with_one, with_three};
use sc_smtlib_terms::{ancestors_name, function_name, number_among, sort_text};
use sc_sorts::{BinaryOp, Node, Sort, UnaryOp};
use std::alloc::{AllocError, Global};

/// A function of entities: which one (attributes, ancestors, keys, tags), the numbers of the entities'
/// sort and, of ancestors, of theirs, and the line that declares it.
#[derive(PartialEq, Eq, PartialOrd, Ord, Drop)]
pub struct Function {
    pub kind: u64,
    pub owner: u64,
    pub other: u64,
    pub line: Seq<u8>,
}

/// The line of a function of a form, by its name, the entities' sort and the text of its values' sort.
fn declared(
    alloc: Global,
    sorts: &[Sort],
    form: Form,
    name: &[u8],
    of: &Sort,
    to: &[u8],
) -> Result<Seq<u8>, AllocError>
    ensures { IfOk result (λ line. line ≡ functions.declared sorts.now form name.now of.now to.now) }
{
    let from = sort_text(alloc, sorts, of)?;
    let line = with_three(alloc, form, name, from.as_slice(), to)?;
    Ok(Seq::from_vec(line))
}

fn attributes_function(
    alloc: Global,
    sorts: &[Sort],
    of: &Sort,
    own: &Sort,
) -> Result<Function, AllocError>
    ensures { IfOk result (λ f. f ≡ functions.attributes_function sorts.now of.now own.now) }
{
    let name = function_name(alloc, sorts, Form::AttributesName, of)?;
    let to = sort_text(alloc, sorts, own)?;
    let line = declared(
        alloc,
        sorts,
        Form::Function,
        name.as_slice(),
        of,
        to.as_slice(),
    )?;
    Ok(Function {
        kind: 0,
        owner: number_among(of, sorts),
        other: 0,
        line,
    })
}

#[tactic(auto, using(sc_smtlib_terms::proofs::SortTextLaws::text_Set))]
fn set_of(alloc: Global, sorts: &[Sort], member: &Sort) -> Result<Vec<u8>, AllocError>
    ensures { IfOk result (λ v. v.items ≡ sort_text sorts.now (set_sort member.now)) }
{
    let text = sort_text(alloc, sorts, member)?;
    with_one(alloc, Form::SetSort, text.as_slice())
}

/// The function that gives the ancestors of one sort of entities in another.
pub(crate) fn ancestors_function(
    alloc: Global,
    sorts: &[Sort],
    of: &Sort,
    among: &Sort,
) -> Result<Function, AllocError>
    ensures { IfOk result (λ f. f ≡ functions.ancestors_function sorts.now of.now among.now) }
{
    let name = ancestors_name(alloc, sorts, of, among)?;
    let to = set_of(alloc, sorts, among)?;
    let line = declared(
        alloc,
        sorts,
        Form::Function,
        name.as_slice(),
        of,
        to.as_slice(),
    )?;
    Ok(Function {
        kind: 1,
        owner: number_among(of, sorts),
        other: number_among(among, sorts),
        line,
    })
}

fn keys_function(alloc: Global, sorts: &[Sort], of: &Sort) -> Result<Function, AllocError>
    ensures { IfOk result (λ f. f ≡ functions.keys_function sorts.now of.now) }
{
    let name = function_name(alloc, sorts, Form::KeysName, of)?;
    let to = set_of(alloc, sorts, &Sort::String)?;
    let line = declared(
        alloc,
        sorts,
        Form::Function,
        name.as_slice(),
        of,
        to.as_slice(),
    )?;
    Ok(Function {
        kind: 2,
        owner: number_among(of, sorts),
        other: 0,
        line,
    })
}

fn tag_function(
    alloc: Global,
    sorts: &[Sort],
    of: &Sort,
    own: &Sort,
) -> Result<Function, AllocError>
    ensures { IfOk result (λ f. f ≡ functions.tag_function sorts.now of.now own.now) }
{
    let name = function_name(alloc, sorts, Form::TagName, of)?;
    let to = sort_text(alloc, sorts, own)?;
    let line = declared(
        alloc,
        sorts,
        Form::TagFunction,
        name.as_slice(),
        of,
        to.as_slice(),
    )?;
    Ok(Function {
        kind: 3,
        owner: number_among(of, sorts),
        other: 0,
        line,
    })
}

/// Puts a function into an ascending list, unless it is there.
pub(crate) fn put_function(set: &mut Seq<Function>, f: Function) -> Result<(), AllocError>
    requires { IsStrictlySortedBy functions.function_cmp set.old }
    ensures ascending { IsStrictlySortedBy functions.function_cmp set.new }
    ensures gains { OnOk result (Gains set.old set.new (f ∷ [])) }
{
    members::put(set, f)
}

/// Puts the function that a term calls, if it calls one.
fn put_called(
    alloc: Global,
    names: &Names<'_>,
    n: u64,
    set: &mut Seq<Function>,
) -> Result<(), AllocError>
    requires within { n < length names.now.terms.now }
    requires ascending { IsStrictlySortedBy functions.function_cmp set.old }
    ensures ascending { OnOk result (IsStrictlySortedBy functions.function_cmp set.new) }
    ensures gains { OnOk result (Gains set.old set.new (functions.called names.now.sorts.now
        (tree names.now.terms.now n))) }
{
    match names.terms.node(n) {
        Node::One(UnaryOp::Attributes(own), e) => {
            let f = attributes_function(alloc, names.sorts, names.terms.sort(*e), own)?;
            put_function(set, f)
        }
        Node::One(UnaryOp::Ancestors(among), e) => {
            let f = ancestors_function(alloc, names.sorts, names.terms.sort(*e), among)?;
            put_function(set, f)
        }
        Node::One(UnaryOp::Keys, e) => {
            let f = keys_function(alloc, names.sorts, names.terms.sort(*e))?;
            put_function(set, f)
        }
        Node::Two(BinaryOp::Tag(own), e, _) => {
            let f = tag_function(alloc, names.sorts, names.terms.sort(*e), own)?;
            put_function(set, f)
        }
        _ => Ok(()),
    }
}

/// Puts the functions that terms call.
pub(crate) fn put_all_called(
    alloc: Global,
    names: &Names<'_>,
    set: &mut Seq<Function>,
) -> Result<(), AllocError>
    requires named { AreNames names.now }
    requires ascending { IsStrictlySortedBy functions.function_cmp set.old }
    ensures ascending { OnOk result (IsStrictlySortedBy functions.function_cmp set.new) }
    ensures gains { OnOk result (Gains set.old set.new (flat_map (functions.called names.now.sorts.now)
        (map (tree names.now.terms.now) names.now.numbers.now.keys))) }
{
    let mut rest = names.numbers.as_slice();
    while let Some((n, later)) = rest.split_first() {
        put_called(alloc, names, *n, set)?;
        rest = later;
    }
    Ok(())
}
