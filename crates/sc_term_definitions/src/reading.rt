//! Which row of the table of definitions a term has.
ghost use Rattle.std.specs.Prelude.{◌≡◌, ◌<◌, length};
ghost use Rattle.sc_sorts.specs.declared.sort.Sort.{out-Sort};
ghost use Rattle.sc_terms.specs.Tables.{tree};
ghost use Rattle.sc_term_definitions.specs.Definitions.{bit_count as count_of};
ghost use Rattle.sc_term_definitions.specs.Making.{IsRowOf};
ghost use Rattle.sc_term_definitions.specs.Rows as rows;

use crate::function::Function;
use crate::row::Row;
use sc_sorts::{BinaryOp, Leaf, Literal, Node, Sort, UnaryOp};
use sc_terms::Terms;

/// How many bits the values of a sort have.
pub fn bit_count(sort: &Sort) -> u64
    ensures { result ≡ count_of sort.now }
{
    match sort {
        Sort::Long => 64,
        Sort::Decimal => 64,
        Sort::Ip => 257,
        _ => 0,
    }
}

/// The row of a term.
pub(crate) fn row_at(terms: &Terms, n: u64) -> Row
    requires { n < length terms.now }
    ensures { IsRowOf terms.now (tree terms.now n) result }
{
    match terms.node(n) {
        Node::Leaf(leaf) => leaf_row(leaf),
        Node::One(op, part) => one_row(op, *part, terms.node(*part)),
        Node::Two(op, a, b) => two_row(op, *a, *b, terms.sort(*a)),
        Node::Choice(c, a, b) => choice_row(*c, *a, *b, terms.sort(*a)),
        Node::Many(_, _) => Row::Free,
    }
}

/// The row of a term with no parts.
fn leaf_row(leaf: &Leaf) -> Row
    ensures { result ≡ rows.leaf_row leaf.now }
{
    match leaf {
        Leaf::Literal(Literal::Bool(true)) => Row::Fixed(true),
        _ => Row::Free,
    }
}

/// The row of a choice between terms of a sort.
fn choice_row(c: u64, a: u64, b: u64, sort: &Sort) -> Row
    ensures { result ≡ rows.choice_row c a b (out-Sort sort.now) }
{
    match sort {
        Sort::Bool => Row::Choice(c, a, b),
        _ => Row::Free,
    }
}

/// The row of an operator on a term of this number and node.
fn one_row(op: &UnaryOp, part: u64, node: &Node) -> Row
    ensures { result ≡ rows.one_row op.now part node.now }
{
    match op {
        UnaryOp::Bit(place) => bit_row(part, node, *place),
        UnaryOp::CarryIn(place) => carry_row(part, node, *place),
        UnaryOp::ProductRow(added, place) => partial_row(part, node, *added, *place),
        UnaryOp::ProductCarry(number, place) => partial_carry(part, node, *number, *place),
        _ => Row::Free,
    }
}

/// The row of a bit.
fn bit_row(part: u64, node: &Node, place: u64) -> Row
    ensures { result ≡ rows.bit_row part node.now place }
{
    match node {
        Node::Two(op, a, b) => bit_row_of(op, part, *a, *b, place),
        _ => Row::Free,
    }
}

fn bit_row_of(op: &BinaryOp, part: u64, a: u64, b: u64, place: u64) -> Row
    ensures { result ≡ rows.bit_row_of op.now part a b place }
{
    match op {
        BinaryOp::Add => Row::Sum(Function::Odd, false, part, a, b, place),
        BinaryOp::Subtract => Row::Sum(Function::Odd, true, part, a, b, place),
        BinaryOp::Multiply => Row::ProductBit(part, place),
        _ => Row::Free,
    }
}

/// The row of the carry into a place of a sum or a difference.
fn carry_row(part: u64, node: &Node, place: u64) -> Row
    ensures { result ≡ rows.carry_row part node.now place }
{
    match node {
        Node::Two(op, a, b) => carry_row_of(op, part, *a, *b, place),
        _ => Row::Free,
    }
}

fn carry_row_of(op: &BinaryOp, part: u64, a: u64, b: u64, place: u64) -> Row
    ensures { result ≡ rows.carry_row_of op.now part a b place }
{
    match op {
        BinaryOp::Add => carry_row_at(false, part, a, b, place),
        BinaryOp::Subtract => carry_row_at(true, part, a, b, place),
        _ => Row::Free,
    }
}

fn carry_row_at(difference: bool, part: u64, a: u64, b: u64, place: u64) -> Row
    ensures { result ≡ rows.carry_row_at difference part a b place }
{
    if place == 0 {
        return Row::Fixed(difference);
    }
    Row::Sum(Function::Majority, difference, part, a, b, place - 1)
}

/// The row of a bit of a row of partial products.
fn partial_row(part: u64, node: &Node, added: u64, place: u64) -> Row
    ensures { result ≡ rows.partial_row part node.now added place }
{
    match node {
        Node::Two(op, a, b) => partial_row_of(op, part, *a, *b, added, place),
        _ => Row::Free,
    }
}

fn partial_row_of(op: &BinaryOp, part: u64, a: u64, b: u64, added: u64, place: u64) -> Row
    ensures { result ≡ rows.partial_row_of op.now part a b added place }
{
    match op {
        BinaryOp::Multiply => partial_row_at(part, a, b, added, place),
        _ => Row::Free,
    }
}

fn partial_row_at(part: u64, a: u64, b: u64, added: u64, place: u64) -> Row
    ensures { result ≡ rows.partial_row_at part a b added place }
{
    if added == 0 {
        return Row::Fixed(false);
    }
    Row::Product(Function::Odd, part, a, b, added - 1, place)
}

/// The row of the carry into a place when a partial product is added.
fn partial_carry(part: u64, node: &Node, number: u64, place: u64) -> Row
    ensures { result ≡ rows.partial_carry part node.now number place }
{
    match node {
        Node::Two(op, a, b) => partial_carry_of(op, part, *a, *b, number, place),
        _ => Row::Free,
    }
}

fn partial_carry_of(op: &BinaryOp, part: u64, a: u64, b: u64, number: u64, place: u64) -> Row
    ensures { result ≡ rows.partial_carry_of op.now part a b number place }
{
    match op {
        BinaryOp::Multiply => partial_carry_at(part, a, b, number, place),
        _ => Row::Free,
    }
}

fn partial_carry_at(part: u64, a: u64, b: u64, number: u64, place: u64) -> Row
    ensures { result ≡ rows.partial_carry_at part a b number place }
{
    if place == 0 {
        return Row::Fixed(false);
    }
    Row::Product(Function::Majority, part, a, b, number, place - 1)
}

/// The row of an operator on two terms, the first of a sort.
fn two_row(op: &BinaryOp, a: u64, b: u64, sort: &Sort) -> Row
    ensures { result ≡ rows.two_row op.now a b sort.now }
{
    match op {
        BinaryOp::And => Row::Pair(Function::Both, a, b),
        BinaryOp::Or => Row::Pair(Function::Either, a, b),
        BinaryOp::Equal => equal_row(sort, a, b),
        BinaryOp::AddOverflows => Row::Overflow(false, a, b),
        BinaryOp::SubtractOverflows => Row::Overflow(true, a, b),
        BinaryOp::MultiplyOverflows => Row::ProductOverflow(a, b),
        BinaryOp::Less => Row::Less(a, b),
        BinaryOp::InRange => Row::Range(a, b),
        BinaryOp::Low(place) => low_row(a, b, *place),
        _ => Row::Free,
    }
}

/// The row of an equation: of truth values and of what has bits.
fn equal_row(sort: &Sort, a: u64, b: u64) -> Row
    ensures { result ≡ rows.equal_row (out-Sort sort.now) a b }
{
    match sort {
        Sort::Bool => Row::Pair(Function::Same, a, b),
        _ => bits_row(bit_count(sort), a, b),
    }
}

fn bits_row(count: u64, a: u64, b: u64) -> Row
    ensures { result ≡ rows.bits_row count a b }
{
    if count == 0 {
        return Row::Free;
    }
    Row::Bits(count, a, b)
}

fn low_row(a: u64, b: u64, place: u64) -> Row
    ensures { result ≡ rows.low_row a b place }
{
    if place == 0 {
        return Row::Fixed(false);
    }
    Row::Low(a, b, place - 1)
}
