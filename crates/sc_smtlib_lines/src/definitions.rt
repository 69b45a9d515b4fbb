//! The definitions of terms.
ghost use Rattle.std.specs.Prelude.{◌≡◌, ◌<◌, map, length, IfOk, OnOk, ◌++◌, ◌∷◌, []};
ghost use Rattle.sc_closure_rules.specs.Closure.{trees_in};
ghost use Rattle.sc_terms.specs.Tables.{tree, node_parts, AreBelow};
ghost use Rattle.sc_terms.specs.TreeSorts.{tree_sort};
ghost use Rattle.sc_smtlib_forms.specs.Forms as forms;
ghost use Rattle.sc_smtlib_forms.specs.declared.form.Form.TheVariants as form;
ghost use Rattle.sc_smtlib_terms.specs.Bodies as bodies;
ghost use Rattle.sc_smtlib_lines.specs.Gaining.{AreNames, terms_of};
ghost use Rattle.sc_smtlib_lines.specs.Names as named;

use crate::names::{Names, term_name};
use sc_lists::{Seq, Text};
use sc_smtlib_forms::{Form, with_three};
use sc_smtlib_terms::{
    binary_body, leaf_body, record_name, record_text, set_text, sort_text, unary_body,
};
use sc_sorts::{BinaryOp, ManyOp, Node, Parts, Sort, UnaryOp};
use std::alloc::{AllocError, Global};

fn one(alloc: Global, names: &Names<'_>, op: &UnaryOp, a: u64) -> Result<Vec<u8>, AllocError>
    requires named { AreNames names.now }
    requires a_in { a < length names.now.terms.now }
    ensures { IfOk result (λ v. v.items ≡ bodies.unary_body names.now.sorts.now op.now
        (tree_sort (tree names.now.terms.now a))
        (named.term_name (terms_of names.now) (tree names.now.terms.now a))) }
{
    let part = term_name(alloc, names, a)?;
    unary_body(alloc, names.sorts, op, names.terms.sort(a), part.as_slice())
}

fn two(
    alloc: Global,
    names: &Names<'_>,
    op: &BinaryOp,
    a: u64,
    b: u64,
) -> Result<Vec<u8>, AllocError>
    requires named { AreNames names.now }
    requires a_in { a < length names.now.terms.now }
    requires b_in { b < length names.now.terms.now }
    ensures { IfOk result (λ v. v.items ≡ bodies.binary_body names.now.sorts.now op.now
        (tree_sort (tree names.now.terms.now a))
        (named.term_name (terms_of names.now) (tree names.now.terms.now a))
        (named.term_name (terms_of names.now) (tree names.now.terms.now b))) }
{
    let first = term_name(alloc, names, a)?;
    let second = term_name(alloc, names, b)?;
    let sort = names.terms.sort(a);
    binary_body(
        alloc,
        names.sorts,
        op,
        sort,
        first.as_slice(),
        second.as_slice(),
    )
}

fn choice(alloc: Global, names: &Names<'_>, c: u64, a: u64, b: u64) -> Result<Vec<u8>, AllocError>
    requires named { AreNames names.now }
    requires c_in { c < length names.now.terms.now }
    requires a_in { a < length names.now.terms.now }
    requires b_in { b < length names.now.terms.now }
    ensures { IfOk result (λ v. v.items ≡ forms.with_three form.Choice
        (named.term_name (terms_of names.now) (tree names.now.terms.now c))
        (named.term_name (terms_of names.now) (tree names.now.terms.now a))
        (named.term_name (terms_of names.now) (tree names.now.terms.now b))) }
{
    let condition = term_name(alloc, names, c)?;
    let first = term_name(alloc, names, a)?;
    let second = term_name(alloc, names, b)?;
    with_three(
        alloc,
        Form::Choice,
        condition.as_slice(),
        first.as_slice(),
        second.as_slice(),
    )
}

fn put_name(
    alloc: Global,
    names: &Names<'_>,
    n: u64,
    texts: &mut Seq<Seq<u8>>,
) -> Result<(), AllocError>
    requires named { AreNames names.now }
    requires within { n < length names.now.terms.now }
    ensures { OnOk result (texts.new ≡ texts.old
        ++ named.term_name (terms_of names.now) (tree names.now.terms.now n) ∷ []) }
{
    let name = term_name(alloc, names, n)?;
    texts.push(Seq::from_vec(name))
}

fn part_names(
    alloc: Global,
    names: &Names<'_>,
    parts: &[(Text, u64)],
) -> Result<Seq<Seq<u8>>, AllocError>
    requires named { AreNames names.now }
    requires parts_in { AreBelow (length names.now.terms.now) parts.now }
    ensures { IfOk result (λ texts. texts ≡ map (named.term_name (terms_of names.now))
        (trees_in (node_parts names.now.terms.now parts.now))) }
{
    let mut texts = Seq::new(alloc);
    let mut rest = parts;
    while let Some((part, later)) = rest.split_first() {
        put_name(alloc, names, part.1, &mut texts)?;
        rest = later;
    }
    Ok(texts)
}

fn many_text(
    alloc: Global,
    sorts: &[Sort],
    op: &ManyOp,
    sort: &Sort,
    texts: &[Seq<u8>],
) -> Result<Vec<u8>, AllocError>
    ensures { IfOk result (λ v. v.items ≡ named.many_body sorts.now op.now sort.now texts.now) }
{
    match op {
        ManyOp::Record => {
            let own = record_name(alloc, sorts, sort)?;
            record_text(alloc, own.as_slice(), texts)
        }
        ManyOp::Set(_) => {
            let own = sort_text(alloc, sorts, sort)?;
            set_text(alloc, own.as_slice(), texts)
        }
    }
}

fn many(
    alloc: Global,
    names: &Names<'_>,
    op: &ManyOp,
    sort: &Sort,
    parts: &Parts,
) -> Result<Vec<u8>, AllocError>
    requires named { AreNames names.now }
    requires parts_in { AreBelow (length names.now.terms.now) parts.now }
    ensures { IfOk result (λ v. v.items ≡ named.many_body names.now.sorts.now op.now sort.now
        (map (named.term_name (terms_of names.now)) (trees_in (node_parts names.now.terms.now parts.now)))) }
{
    let texts = part_names(alloc, names, parts.as_slice())?;
    many_text(alloc, names.sorts, op, sort, texts.as_slice())
}

/// A term by the names of its parts.
fn body(alloc: Global, names: &Names<'_>, n: u64) -> Result<Vec<u8>, AllocError>
    requires named { AreNames names.now }
    requires within { n < length names.now.terms.now }
    ensures { IfOk result (λ v. v.items ≡ named.body names.now.sorts.now (terms_of names.now)
        (tree names.now.terms.now n)) }
{
    match names.terms.node(n) {
        Node::Leaf(leaf) => leaf_body(alloc, names.sorts, leaf),
        Node::One(op, a) => one(alloc, names, op, *a),
        Node::Two(op, a, b) => two(alloc, names, op, *a, *b),
        Node::Choice(c, a, b) => choice(alloc, names, *c, *a, *b),
        Node::Many(op, parts) => many(alloc, names, op, names.terms.sort(n), parts),
    }
}

/// The line that defines a term.
pub(crate) fn definition(alloc: Global, names: &Names<'_>, n: u64) -> Result<Vec<u8>, AllocError>
    requires named { AreNames names.now }
    requires within { n < length names.now.terms.now }
    ensures { IfOk result (λ v. v.items ≡ named.definition names.now.sorts.now (terms_of names.now)
        (tree names.now.terms.now n)) }
{
    let name = term_name(alloc, names, n)?;
    let sort = sort_text(alloc, names.sorts, names.terms.sort(n))?;
    let body = body(alloc, names, n)?;
    with_three(
        alloc,
        Form::Definition,
        name.as_slice(),
        sort.as_slice(),
        body.as_slice(),
    )
}
