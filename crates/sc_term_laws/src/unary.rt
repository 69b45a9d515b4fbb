//! Whether an operator on one term makes a term.
ghost use Rattle.std.specs.Prelude.{◌≡◌, ◌<◌, length, IfOk};
ghost use Rattle.std.specs.List.{list_any};
ghost use Rattle.std.specs.Str.{bytes_eq};
ghost use Rattle.sc_sorts.specs.Inside.{SortField};
ghost use Rattle.sc_terms.specs.Tables.{tree};
ghost use Rattle.sc_terms.specs.TreeSorts.{tree_sort};
ghost use Rattle.sc_term_laws.specs.Tests as tests;

use crate::schema_sorts::{ancestors_test, attributes_test, keys_test};
use crate::sort_tests::{has_place, is_bool, is_option, is_string};
use crate::stays::{stays_field, stays_literal, stays_not, stays_option};
use sc_lists::Text;
use sc_schema::Schema;
use sc_sorts::{BinaryOp, Node, Sort, UnaryOp};
use sc_terms::Terms;
use std::alloc::{AllocError, Global};

/// Whether an operator on a term makes a term.
pub(crate) fn unary_test(
    alloc: Global,
    schema: &Schema,
    terms: &Terms,
    op: &UnaryOp,
    a: u64,
) -> Result<bool, AllocError>
    requires { a < length terms.now }
    ensures { IfOk result (λ b. b ≡
        tests.unary_test schema.now op.now (tree_sort (tree terms.now a)) (tree terms.now a)) }
{
    let sort = terms.sort(a);
    match op {
        UnaryOp::Not => Ok(is_bool(sort) && stays_not(terms, a)),
        UnaryOp::Bit(place) => Ok(has_place(sort, *place) && stays_literal(terms, a)),
        UnaryOp::CarryIn(place) => Ok(is_sum(terms, a) && *place <= 64),
        UnaryOp::ProductRow(row, place) => {
            Ok(is_product(terms, a) && (*row <= 128 && *place < 128))
        }
        UnaryOp::ProductCarry(row, place) => {
            Ok(is_product(terms, a) && (*row < 128 && *place <= 128))
        }
        UnaryOp::Attributes(own) => attributes_test(alloc, schema, own, sort),
        UnaryOp::Ancestors(own) => ancestors_test(alloc, schema, own, sort),
        UnaryOp::Keys => keys_test(alloc, schema, sort),
        UnaryOp::Field(name) => Ok(has_field(sort, name) && stays_field(terms, name, a)),
        UnaryOp::Present => Ok(is_option(sort) && stays_option(terms, a)),
        UnaryOp::Held => Ok(is_option(sort) && stays_option(terms, a)),
        UnaryOp::Like(_) => Ok(is_string(sort) && stays_literal(terms, a)),
    }
}

/// Whether a term is a sum or a difference.
fn is_sum(terms: &Terms, n: u64) -> bool
    requires { n < length terms.now }
    ensures { result ≡ tests.is_sum (tree terms.now n) }
{
    match terms.node(n) {
        Node::Two(BinaryOp::Add, _, _) => true,
        Node::Two(BinaryOp::Subtract, _, _) => true,
        _ => false,
    }
}

fn is_product(terms: &Terms, n: u64) -> bool
    requires { n < length terms.now }
    ensures { result ≡ tests.is_product (tree terms.now n) }
{
    matches!(terms.node(n), Node::Two(BinaryOp::Multiply, _, _))
}

/// Whether a sort is one of records that have a field of this name.
fn has_field(sort: &Sort, name: &Text) -> bool
    ensures { result ≡ tests.has_field name.now sort.now }
{
    match sort {
        Sort::Record(fields) => is_among(fields.as_slice(), name),
        _ => false,
    }
}

fn is_among(fields: &[(Text, Sort)], name: &Text) -> bool
    ensures { result ≡ list_any (λ (f : SortField). bytes_eq name.now f.0) fields.now }
{
    fields.iter().any(|field| name.as_str() == field.0.as_str())
}
