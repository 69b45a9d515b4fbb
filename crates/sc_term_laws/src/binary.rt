//! Whether an operator on two terms makes a term.
ghost use Rattle.std.specs.Prelude.{◌≡◌, ◌<◌, length, IfOk};
ghost use Rattle.sc_terms.specs.Tables.{tree};
ghost use Rattle.sc_terms.specs.TreeSorts.{tree_sort};
ghost use Rattle.sc_term_laws.specs.Tests as tests;

use crate::schema_sorts::tag_test;
use crate::sort_tests::{both_long, both_sets, is_bool, is_ip, is_number, is_set_of};
use crate::stays::{stays_choice, stays_equal, stays_two};
use sc_schema::Schema;
use sc_sorts::{BinaryOp, Sort};
use sc_terms::Terms;
use std::alloc::{AllocError, Global};

/// Whether an operator on two terms makes a term.
pub(crate) fn binary_test(
    alloc: Global,
    schema: &Schema,
    terms: &Terms,
    op: &BinaryOp,
    a: u64,
    b: u64,
) -> Result<bool, AllocError>
    requires a_in { a < length terms.now }
    requires b_in { b < length terms.now }
    ensures { IfOk result (λ t. t ≡ tests.binary_test schema.now op.now (tree_sort (tree terms.now a)) (tree_sort
        (tree terms.now b)) (tree terms.now a) (tree terms.now b)) }
{
    let k = terms.sort(a);
    let l = terms.sort(b);
    match op {
        BinaryOp::And => Ok(both_bool(k, l) && stays_two(terms, a, b)),
        BinaryOp::Or => Ok(both_bool(k, l) && stays_two(terms, a, b)),
        BinaryOp::Equal => Ok(*k == *l && stays_equal(terms, a, b)),
        BinaryOp::Add => Ok(both_long(k, l)),
        BinaryOp::Subtract => Ok(both_long(k, l)),
        BinaryOp::Multiply => Ok(both_long(k, l)),
        BinaryOp::AddOverflows => Ok(both_long(k, l)),
        BinaryOp::SubtractOverflows => Ok(both_long(k, l)),
        BinaryOp::MultiplyOverflows => Ok(both_long(k, l)),
        BinaryOp::Less => Ok(both_numbers(k, l)),
        BinaryOp::InRange => Ok(is_ip(k) && is_ip(l)),
        BinaryOp::Low(count) => Ok(both_numbers(k, l) && *count <= 64),
        BinaryOp::Tag(own) => tag_test(alloc, schema, own, k, l),
        BinaryOp::Member => Ok(is_set_of(l, k)),
        BinaryOp::Subset => Ok(both_sets(k, l)),
        BinaryOp::Common => Ok(both_sets(k, l)),
        BinaryOp::DifferencePick => Ok(both_sets(k, l)),
        BinaryOp::CommonPick => Ok(both_sets(k, l)),
    }
}

fn both_bool(k: &Sort, l: &Sort) -> bool
    ensures { result ≡ tests.both_bool k.now l.now }
{
    is_bool(k) && is_bool(l)
}

/// Whether two sorts are one, and of numbers.
fn both_numbers(k: &Sort, l: &Sort) -> bool
    ensures { result ≡ tests.both_numbers k.now l.now }
{
    is_number(k) && *k == *l
}

/// Whether a choice is a term, its parts being terms.
pub(crate) fn choice_test(terms: &Terms, c: u64, a: u64, b: u64) -> bool
    requires c_in { c < length terms.now }
    requires a_in { a < length terms.now }
    requires b_in { b < length terms.now }
    ensures { result ≡ tests.choice_test (tree_sort (tree terms.now c)) (tree_sort (tree terms.now a)) (tree_sort
        (tree terms.now b)) (tree terms.now c) (tree terms.now a) (tree terms.now b) }
{
    is_bool(terms.sort(c)) && (*terms.sort(a) == *terms.sort(b) && stays_choice(terms, c, a, b))
}
