//! The terms that a definition names, by their numbers.
ghost use Rattle.std.specs.Prelude.{◌≡◌, ◌<◌, ◌≤◌, ◌++◌, [], ◌∷◌, length, min, nat_le, if◌then◌else◌, IfOk, OnOk};
ghost use Rattle.sc_sorts.specs.declared.node.UnaryOp.TheVariants as unary;
ghost use Rattle.sc_sorts.specs.declared.node.BinaryOp.TheVariants as binary;
ghost use Rattle.sc_terms.specs.Trees.{one, two};
ghost use Rattle.sc_terms.specs.TreeSorts.{tree_sort};
ghost use Rattle.sc_terms.specs.Tables.{tree, Keeps, StandsFor};
ghost use Rattle.sc_terms.specs.Folds.{bit_term, equal_term};
ghost use Rattle.sc_term_definitions.specs.Definitions.{shape_of, inputs_of, bit_count, equal_bits, partial_term, sign_equations, upper_bits, place_agrees, agreements, range_inputs, row_inputs};
ghost use Rattle.sc_term_definitions.specs.Making.{IsSomeTerm, HasBit, HasPlaces, Stands, Puts, inputs_by, operator};

use crate::function::Shape;
use crate::reading::row_at;
use crate::row::Row;
use sc_terms::Terms;
use std::alloc::AllocError;

/// How a term is defined.
pub fn shape_at(terms: &Terms, n: u64) -> Shape
    requires { n < length terms.now }
    ensures { result ≡ shape_of (tree terms.now n) }
{
    row_at(terms, n).shape()
}

/// How many terms a term's definition names.
pub fn input_count(terms: &Terms, n: u64) -> u64
    requires { n < length terms.now }
    ensures { result ≡ length (inputs_of (tree terms.now n)) }
{
    row_at(terms, n).count()
}

/// Puts the terms that a term's definition names behind others, in the definition's order.
pub fn put_inputs(terms: &mut Terms, n: u64, numbers: &mut Vec<u64>) -> Result<(), AllocError>
    requires within { n < length terms.old }
    requires term { IsSomeTerm (tree terms.old n) }
    ensures ok { OnOk result (Puts terms.old terms.new numbers.old.items numbers.new.items (inputs_of
        (tree terms.old n))) }
    ensures kept { Keeps terms.old terms.new }
{
    let row = row_at(terms, n);
    put_row(terms, row, numbers)
}

/// Puts the terms that a row names.
#[tactic(auto, using(crate::proofs::MakingLaws::puts_nothing))]
fn put_row(terms: &mut Terms, row: Row, numbers: &mut Vec<u64>) -> Result<(), AllocError>
    requires stands { Stands terms.old row }
    requires places { HasPlaces terms.old row }
    ensures ok { OnOk result (Puts terms.old terms.new numbers.old.items numbers.new.items (inputs_by terms.old row)) }
    ensures kept { Keeps terms.old terms.new }
{
    match row {
        Row::Free => Ok(()),
        Row::Fixed(_) => Ok(()),
        Row::Pair(_, a, b) => put_pair(terms, a, b, numbers),
        Row::Choice(c, a, b) => put_choice(terms, c, a, b, numbers),
        Row::Bits(count, a, b) => put_equal_bits(terms, a, b, count, numbers),
        Row::Sum(_, difference, sum, a, b, place) => {
            put_sum(terms, difference, sum, a, b, place, numbers)
        }
        Row::ProductBit(product, place) => put_last_row(terms, product, place, numbers),
        Row::Product(_, product, a, b, added, place) => {
            put_product(terms, product, a, b, added, place, numbers)
        }
        Row::Overflow(difference, a, b) => put_overflow(terms, difference, a, b, numbers),
        Row::ProductOverflow(a, b) => put_upper_bits(terms, a, b, numbers),
        Row::Low(a, b, place) => put_low(terms, a, b, place, numbers),
        Row::Less(a, b) => put_low(terms, a, b, 63, numbers),
        Row::Range(a, b) => put_range(terms, a, b, numbers),
    }
}

/// Puts three numbers.
fn put_three(first: u64, second: u64, third: u64, numbers: &mut Vec<u64>) -> Result<(), AllocError>
    ensures { OnOk result (numbers.new.items ≡ numbers.old.items ++ first ∷ second ∷ third ∷ []) }
{
    numbers.extend_from_slice(&[first, second, third])?;
    Ok(())
}

/// Puts two terms of the table.
#[tactic(auto, using(crate::proofs::MakingLaws::puts_these))]
fn put_pair(terms: &Terms, a: u64, b: u64, numbers: &mut Vec<u64>) -> Result<(), AllocError>
    requires a_in { a < length terms.now }
    requires b_in { b < length terms.now }
    ensures { OnOk result (Puts terms.now terms.now numbers.old.items numbers.new.items (tree terms.now a
        ∷ tree terms.now b ∷ [])) }
{
    let _ = terms;
    numbers.extend_from_slice(&[a, b])?;
    Ok(())
}

/// Puts three terms of the table.
#[tactic(auto, using(crate::proofs::MakingLaws::puts_those))]
fn put_choice(
    terms: &Terms,
    c: u64,
    a: u64,
    b: u64,
    numbers: &mut Vec<u64>,
) -> Result<(), AllocError>
    requires c_in { c < length terms.now }
    requires a_in { a < length terms.now }
    requires b_in { b < length terms.now }
    ensures { OnOk result (Puts terms.now terms.now numbers.old.items numbers.new.items (tree terms.now c
        ∷ tree terms.now a ∷ tree terms.now b ∷ [])) }
{
    let _ = terms;
    put_three(c, a, b, numbers)?;
    Ok(())
}

/// The number of a bit of a term.
#[tactic(auto, using(crate::proofs::PlaceLaws::place_in))]
fn bit(terms: &mut Terms, a: u64, place: u64) -> Result<u64, AllocError>
    requires within { a < length terms.old }
    requires place { HasBit terms.old a place }
    ensures ok { IfOk result (λ n. StandsFor terms.new n (bit_term (tree terms.old a) place)) }
    ensures kept { Keeps terms.old terms.new }
{
    terms.bit(a, place)
}

/// The number of the equation of two terms' bits at a place.
#[tactic(auto, using(crate::proofs::MakingLaws::bit_later))]
fn equal_bit(terms: &mut Terms, a: u64, b: u64, place: u64) -> Result<u64, AllocError>
    requires a_in { a < length terms.old }
    requires b_in { b < length terms.old }
    requires a_place { HasBit terms.old a place }
    requires b_place { HasBit terms.old b place }
    ensures ok { IfOk result (λ n. StandsFor terms.new n (equal_term (bit_term (tree terms.old a) place)
        (bit_term (tree terms.old b) place))) }
    ensures kept { Keeps terms.old terms.new }
{
    let first = bit(terms, a, place)?;
    let second = bit(terms, b, place)?;
    let n = terms.equal(first, second)?;
    Ok(n)
}

/// Puts the equations of so many bits of two terms.
fn put_equal_bits(
    terms: &mut Terms,
    a: u64,
    b: u64,
    count: u64,
    numbers: &mut Vec<u64>,
) -> Result<(), AllocError>
    requires a_in { a < length terms.old }
    requires b_in { b < length terms.old }
    requires a_places { count ≤ bit_count (tree_sort (tree terms.old a)) }
    requires b_places { count ≤ bit_count (tree_sort (tree terms.old b)) }
    ensures ok { OnOk result (Puts terms.old terms.new numbers.old.items numbers.new.items (equal_bits
        (tree terms.old a) (tree terms.old b) count)) }
    ensures kept { Keeps terms.old terms.new }
{
    for place in 0..count {
        let n = equal_bit(terms, a, b, place)?;
        numbers.push(n)?;
    }
    Ok(())
}

/// Puts what a place of a sum or of a difference adds.
#[tactic(auto, using(crate::proofs::MakingLaws::bit_later, crate::proofs::MakingLaws::puts_three))]
fn put_sum(
    terms: &mut Terms,
    difference: bool,
    sum: u64,
    a: u64,
    b: u64,
    place: u64,
    numbers: &mut Vec<u64>,
) -> Result<(), AllocError>
    requires sum_in { sum < length terms.old }
    requires a_in { a < length terms.old }
    requires b_in { b < length terms.old }
    requires is { tree terms.old sum ≡ two (operator difference) (tree terms.old a) (tree terms.old b) }
    requires a_place { HasBit terms.old a place }
    requires b_place { HasBit terms.old b place }
    ensures ok { OnOk result (Puts terms.old terms.new numbers.old.items numbers.new.items (bit_term (tree terms.old a)
        place ∷ bit_term (tree terms.old b) place ∷ one (unary.CarryIn place) (two (operator difference)
        (tree terms.old a) (tree terms.old b)) ∷ [])) }
    ensures kept { Keeps terms.old terms.new }
{
    let _ = difference;
    let first = bit(terms, a, place)?;
    let second = bit(terms, b, place)?;
    let carry = terms.carry_in(sum, place)?;
    put_three(first, second, carry, numbers)?;
    Ok(())
}

/// Puts a bit of a product's last row.
#[tactic(auto, using(crate::proofs::MakingLaws::puts_one))]
fn put_last_row(
    terms: &mut Terms,
    product: u64,
    place: u64,
    numbers: &mut Vec<u64>,
) -> Result<(), AllocError>
    requires { product < length terms.old }
    ensures ok { OnOk result (Puts terms.old terms.new numbers.old.items numbers.new.items (one
        (unary.ProductRow 128 place) (tree terms.old product) ∷ [])) }
    ensures kept { Keeps terms.old terms.new }
{
    let n = terms.product_row(product, 128, place)?;
    numbers.push(n)?;
    Ok(())
}

/// The number of a bit of a partial product.
#[tactic(auto, using(crate::proofs::MakingLaws::bit_later, crate::proofs::MakingLaws::bit_below))]
fn partial(terms: &mut Terms, a: u64, b: u64, number: u64, place: u64) -> Result<u64, AllocError>
    requires a_in { a < length terms.old }
    requires b_in { b < length terms.old }
    requires a_place { HasBit terms.old a 63 }
    requires b_place { HasBit terms.old b 63 }
    ensures ok { IfOk result (λ n. StandsFor terms.new n (partial_term (tree terms.old a)
        (tree terms.old b) number place)) }
    ensures kept { Keeps terms.old terms.new }
{
    if number <= place {
        let first = bit(terms, a, (place - number).min(63))?;
        let second = bit(terms, b, number.min(63))?;
        return terms.and(first, second);
    }
    terms.truth(false)
}

/// Puts what a place of a row of partial products adds.
#[tactic(auto, using(crate::proofs::MakingLaws::bit_later, crate::proofs::MakingLaws::puts_three))]
fn put_product(
    terms: &mut Terms,
    product: u64,
    a: u64,
    b: u64,
    added: u64,
    place: u64,
    numbers: &mut Vec<u64>,
) -> Result<(), AllocError>
    requires product_in { product < length terms.old }
    requires a_in { a < length terms.old }
    requires b_in { b < length terms.old }
    requires is { tree terms.old product ≡ two binary.Multiply (tree terms.old a) (tree terms.old b) }
    requires a_place { HasBit terms.old a 63 }
    requires b_place { HasBit terms.old b 63 }
    ensures ok { OnOk result (Puts terms.old terms.new numbers.old.items numbers.new.items (row_inputs
        (tree terms.old a) (tree terms.old b) added place)) }
    ensures kept { Keeps terms.old terms.new }
{
    let before = terms.product_row(product, added, place)?;
    let bit = partial(terms, a, b, added, place)?;
    let carry = terms.product_carry(product, added, place)?;
    put_three(before, bit, carry, numbers)?;
    Ok(())
}

/// The number of a sum or of a difference.
fn total(terms: &mut Terms, difference: bool, a: u64, b: u64) -> Result<u64, AllocError>
    requires a_in { a < length terms.old }
    requires b_in { b < length terms.old }
    ensures ok { IfOk result (λ n. StandsFor terms.new n (two (operator difference) (tree terms.old a)
        (tree terms.old b))) }
    ensures kept { Keeps terms.old terms.new }
{
    if difference {
        terms.difference(a, b)
    } else {
        terms.sum(a, b)
    }
}

/// Puts the signs of two numbers and of their sum or difference.
#[tactic(auto, using(crate::proofs::MakingLaws::bit_later, crate::proofs::MakingLaws::sum_has, crate::proofs::MakingLaws::puts_three))]
fn put_overflow(
    terms: &mut Terms,
    difference: bool,
    a: u64,
    b: u64,
    numbers: &mut Vec<u64>,
) -> Result<(), AllocError>
    requires a_in { a < length terms.old }
    requires b_in { b < length terms.old }
    requires a_place { HasBit terms.old a 63 }
    requires b_place { HasBit terms.old b 63 }
    ensures ok { OnOk result (Puts terms.old terms.new numbers.old.items numbers.new.items (bit_term (tree terms.old a)
        63 ∷ bit_term (tree terms.old b) 63 ∷ bit_term (two (operator difference) (tree terms.old a)
        (tree terms.old b)) 63 ∷ [])) }
    ensures kept { Keeps terms.old terms.new }
{
    let first = bit(terms, a, 63)?;
    let second = bit(terms, b, 63)?;
    let sum = total(terms, difference, a, b)?;
    let sign = bit(terms, sum, 63)?;
    put_three(first, second, sign, numbers)?;
    Ok(())
}

/// The number of the equation of two bits of a product's last row.
fn equal_row_bits(
    terms: &mut Terms,
    product: u64,
    first: u64,
    second: u64,
) -> Result<u64, AllocError>
    requires { product < length terms.old }
    ensures ok { IfOk result (λ n. StandsFor terms.new n (equal_term (one (unary.ProductRow 128 first)
        (tree terms.old product)) (one (unary.ProductRow 128 second) (tree terms.old product)))) }
    ensures kept { Keeps terms.old terms.new }
{
    let one = terms.product_row(product, 128, first)?;
    let other = terms.product_row(product, 128, second)?;
    let n = terms.equal(one, other)?;
    Ok(n)
}

/// Puts the equations of the upper bits of a product's last row with its sign.
fn put_sign_equations(
    terms: &mut Terms,
    product: u64,
    numbers: &mut Vec<u64>,
) -> Result<(), AllocError>
    requires { product < length terms.old }
    ensures ok { OnOk result (Puts terms.old terms.new numbers.old.items numbers.new.items (sign_equations
        (tree terms.old product))) }
    ensures kept { Keeps terms.old terms.new }
{
    for place in 64..128 {
        let n = equal_row_bits(terms, product, 63, place)?;
        numbers.push(n)?;
    }
    Ok(())
}

/// Puts the equations of the upper bits of two numbers' product with its sign.
#[tactic(auto, using(crate::proofs::MakingLaws::upper_put))]
fn put_upper_bits(
    terms: &mut Terms,
    a: u64,
    b: u64,
    numbers: &mut Vec<u64>,
) -> Result<(), AllocError>
    requires a_in { a < length terms.old }
    requires b_in { b < length terms.old }
    ensures ok { OnOk result (Puts terms.old terms.new numbers.old.items numbers.new.items (upper_bits
        (tree terms.old a) (tree terms.old b))) }
    ensures kept { Keeps terms.old terms.new }
{
    let product = terms.product(a, b)?;
    put_sign_equations(terms, product, numbers)?;
    Ok(())
}

/// Puts the bits of two numbers at a place, and whether the first is less in the bits below.
#[tactic(auto, using(crate::proofs::MakingLaws::bit_later, crate::proofs::MakingLaws::puts_three))]
fn put_low(
    terms: &mut Terms,
    a: u64,
    b: u64,
    place: u64,
    numbers: &mut Vec<u64>,
) -> Result<(), AllocError>
    requires a_in { a < length terms.old }
    requires b_in { b < length terms.old }
    requires a_place { HasBit terms.old a place }
    requires b_place { HasBit terms.old b place }
    ensures ok { OnOk result (Puts terms.old terms.new numbers.old.items numbers.new.items (bit_term (tree terms.old a)
        place ∷ bit_term (tree terms.old b) place
        ∷ two (binary.Low place) (tree terms.old a) (tree terms.old b) ∷ [])) }
    ensures kept { Keeps terms.old terms.new }
{
    let first = bit(terms, a, place)?;
    let second = bit(terms, b, place)?;
    let lower = terms.low(a, b, place)?;
    put_three(first, second, lower, numbers)?;
    Ok(())
}

/// The number of: this place of the second address's prefix is free, or held fast in the first too,
/// where the addresses agree.
#[tactic(auto, using(crate::proofs::MakingLaws::bit_later, crate::proofs::MakingLaws::bit_below))]
fn agreement(terms: &mut Terms, a: u64, b: u64, place: u64) -> Result<u64, AllocError>
    requires a_in { a < length terms.old }
    requires b_in { b < length terms.old }
    requires place { place < 128 }
    requires a_place { HasBit terms.old a 256 }
    requires b_place { HasBit terms.old b 256 }
    ensures ok { IfOk result (λ n. StandsFor terms.new n (place_agrees (tree terms.old a) (tree terms.old b) place)) }
    ensures kept { Keeps terms.old terms.new }
{
    let fast = bit(terms, b, 1 + place)?;
    let free = terms.not(fast)?;
    let also_fast = bit(terms, a, 1 + place)?;
    let alike = equal_bit(terms, a, b, 129 + place)?;
    let agrees = terms.and(also_fast, alike)?;
    let n = terms.or(free, agrees)?;
    Ok(n)
}

/// Puts for each place of the prefixes of two addresses that the ranges agree there.
fn put_agreements(
    terms: &mut Terms,
    a: u64,
    b: u64,
    numbers: &mut Vec<u64>,
) -> Result<(), AllocError>
    requires a_in { a < length terms.old }
    requires b_in { b < length terms.old }
    requires a_place { HasBit terms.old a 256 }
    requires b_place { HasBit terms.old b 256 }
    ensures ok { OnOk result (Puts terms.old terms.new numbers.old.items numbers.new.items (agreements
        (tree terms.old a) (tree terms.old b))) }
    ensures kept { Keeps terms.old terms.new }
{
    for place in 0..128 {
        let n = agreement(terms, a, b, place)?;
        numbers.push(n)?;
    }
    Ok(())
}

/// Puts what is to hold where a range of addresses lies within another.
#[tactic(auto, using(crate::proofs::MakingLaws::bit_later, crate::proofs::MakingLaws::first_bit, crate::proofs::MakingLaws::range_put))]
fn put_range(terms: &mut Terms, a: u64, b: u64, numbers: &mut Vec<u64>) -> Result<(), AllocError>
    requires a_in { a < length terms.old }
    requires b_in { b < length terms.old }
    requires a_place { HasBit terms.old a 256 }
    requires b_place { HasBit terms.old b 256 }
    ensures ok { OnOk result (Puts terms.old terms.new numbers.old.items numbers.new.items (range_inputs
        (tree terms.old a) (tree terms.old b))) }
    ensures kept { Keeps terms.old terms.new }
{
    let version = equal_bit(terms, a, b, 0)?;
    numbers.push(version)?;
    put_agreements(terms, a, b, numbers)?;
    Ok(())
}
