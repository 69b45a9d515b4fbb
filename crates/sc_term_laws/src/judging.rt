//! Which numbers of a table stand for terms: each is told by its node, once its parts are.
ghost use Rattle.std.specs.Prelude.{◌≡◌, ◌≤◌, ◌<◌, ◌↔◌, length, IsTrue, IfOk};
ghost use Rattle.sc_terms.specs.Tables.{tree, node_tree, PartsAreBelow, AreBelow};
ghost use Rattle.sc_term_laws.specs.Judging.{IsTerm};
ghost use Rattle.sc_term_laws.specs.Judged.{AreJudged, IsMany, IsManyBy, is_one, is_two, is_choice};
ghost use Rattle.sc_term_laws.specs.Judged.{is_good as good_is, are_good as both_good, all_good as each_good};

use crate::binary::{binary_test, choice_test};
use crate::leaves::leaf_test;
use crate::many::set_test;
use crate::names::are_names;
use crate::unary::unary_test;
use sc_lists::{Seq, Text};
use sc_names::Lits;
use sc_schema::{Env, Schema};
use sc_sorts::{BinaryOp, ManyOp, Node, Parts, UnaryOp};
use sc_terms::Terms;
use std::alloc::{AllocError, Global};

/// Whether a number stands for a term of its sort, in an environment of a schema and with the
/// entities that policies write: it is well-sorted, and as the constructors make it.
#[tactic(auto, using(crate::proofs::NodesJudged::more_judged, crate::proofs::NodesJudged::judged_at, crate::proofs::NodesJudged::parts_at))]
pub fn is_term(
    alloc: Global,
    schema: &Schema,
    env: &Env,
    lits: &Lits,
    terms: &Terms,
    n: u64,
) -> Result<bool, AllocError>
    requires { n < length terms.now }
    ensures { IfOk result (λ b. IsTrue b ↔ IsTerm schema.now env.now lits.now (tree terms.now n)) }
{
    let _ = terms.len();
    let mut good = Seq::new(alloc);
    let mut i = 0;
    while i <= n {
        let b = node_test(
            alloc,
            schema,
            env,
            lits,
            terms,
            good.as_slice(),
            terms.node(i),
        )?;
        good.push(b)?;
        i += 1;
    }
    Ok(is_good(good.as_slice(), n))
}

/// Whether a node's term is one of its sort, its parts being told.
#[tactic(auto, using(crate::proofs::NodesJudged::one_below, crate::proofs::NodesJudged::first_below, crate::proofs::NodesJudged::second_below, crate::proofs::NodesJudged::condition_below, crate::proofs::NodesJudged::then_below, crate::proofs::NodesJudged::else_below, crate::proofs::NodesJudged::many_below))]
fn node_test(
    alloc: Global,
    schema: &Schema,
    env: &Env,
    lits: &Lits,
    terms: &Terms,
    good: &[bool],
    node: &Node,
) -> Result<bool, AllocError>
    requires told { AreJudged schema.now env.now lits.now terms.now good.now }
    requires within { length good.now ≤ length terms.now }
    requires parts { PartsAreBelow (length good.now) node.now }
    ensures { IfOk result (λ b. IsTrue b ↔ IsTerm schema.now env.now lits.now (node_tree terms.now node.now)) }
{
    match node {
        Node::Leaf(leaf) => leaf_test(alloc, schema, env, lits, leaf),
        Node::One(op, a) => one_test(alloc, schema, terms, good, op, *a),
        Node::Two(op, a, b) => two_test(alloc, schema, terms, good, op, *a, *b),
        Node::Choice(c, a, b) => Ok(three_test(terms, good, *c, *a, *b)),
        Node::Many(op, parts) => many_test(alloc, schema, terms, good, op, parts),
    }
}

fn one_test(
    alloc: Global,
    schema: &Schema,
    terms: &Terms,
    good: &[bool],
    op: &UnaryOp,
    a: u64,
) -> Result<bool, AllocError>
    requires { a < length terms.now }
    ensures { IfOk result (λ b. b ≡ is_one schema.now terms.now good.now op.now a) }
{
    if !is_good(good, a) {
        return Ok(false);
    }
    let passes = unary_test(alloc, schema, terms, op, a)?;
    Ok(passes)
}

fn two_test(
    alloc: Global,
    schema: &Schema,
    terms: &Terms,
    good: &[bool],
    op: &BinaryOp,
    a: u64,
    b: u64,
) -> Result<bool, AllocError>
    requires a_in { a < length terms.now }
    requires b_in { b < length terms.now }
    ensures { IfOk result (λ t. t ≡ is_two schema.now terms.now good.now op.now a b) }
{
    if !are_good(good, a, b) {
        return Ok(false);
    }
    let passes = binary_test(alloc, schema, terms, op, a, b)?;
    Ok(passes)
}

fn three_test(terms: &Terms, good: &[bool], c: u64, a: u64, b: u64) -> bool
    requires c_in { c < length terms.now }
    requires a_in { a < length terms.now }
    requires b_in { b < length terms.now }
    ensures { result ≡ is_choice terms.now good.now c a b }
{
    is_good(good, c) && (are_good(good, a, b) && choice_test(terms, c, a, b))
}

#[tactic(auto, using(crate::proofs::NodesJudged::all_below, crate::proofs::NodesJudged::parts_fail, crate::proofs::NodesJudged::parts_hold))]
fn many_test(
    alloc: Global,
    schema: &Schema,
    terms: &Terms,
    good: &[bool],
    op: &ManyOp,
    parts: &Parts,
) -> Result<bool, AllocError>
    requires within { length good.now ≤ length terms.now }
    requires parts { AreBelow (length good.now) parts.now }
    ensures { IfOk result (λ b. IsTrue b ↔ IsMany schema.now terms.now good.now op.now parts.now) }
{
    if !all_good(good, parts.as_slice()) {
        return Ok(false);
    }
    let passes = labels_test(alloc, schema, terms, op, parts)?;
    Ok(passes)
}

#[tactic(auto, using(crate::proofs::NodesJudged::names_labelled, crate::proofs::NodesJudged::set_labelled))]
fn labels_test(
    alloc: Global,
    schema: &Schema,
    terms: &Terms,
    op: &ManyOp,
    parts: &Parts,
) -> Result<bool, AllocError>
    requires { AreBelow (length terms.now) parts.now }
    ensures { IfOk result (λ b. IsTrue b ↔ IsManyBy schema.now terms.now op.now parts.now) }
{
    match op {
        ManyOp::Record => Ok(are_names(parts.as_slice())),
        ManyOp::Set(member) => set_test(alloc, schema, terms, member, parts.as_slice()),
    }
}

fn is_good(good: &[bool], n: u64) -> bool
    ensures { result ≡ good_is good.now n }
{
    match good.get(n as usize) {
        Some(b) => *b,
        None => false,
    }
}

fn are_good(good: &[bool], a: u64, b: u64) -> bool
    ensures { result ≡ both_good good.now a b }
{
    is_good(good, a) && is_good(good, b)
}

fn all_good(good: &[bool], parts: &[(Text, u64)]) -> bool
    ensures { result ≡ each_good good.now parts.now }
{
    let mut rest = parts;
    while let Some((part, later)) = rest.split_first() {
        if !is_good(good, part.1) {
            return false;
        }
        rest = later;
    }
    true
}
