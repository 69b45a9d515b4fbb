//! The equations that go with a term, by numbers: of a choice and of an equation.
ghost use Rattle.std.specs.Prelude.{◌≡◌, ◌<◌, ◌++◌, [], ◌∷◌, length, map, IfOk, OnOk};
ghost use Rattle.sc_sorts.specs.declared.sort.Sort.{out-Sort};
ghost use Rattle.sc_term_laws.specs.Tests.{is_bool as truth_sort};
ghost use Rattle.sc_sorts.specs.declared.node.BinaryOp.TheVariants as binary;
ghost use Rattle.sc_terms.specs.Trees.{two};
ghost use Rattle.sc_terms.specs.TreeSorts.{tree_sort};
ghost use Rattle.sc_terms.specs.Tables.{tree, Keeps, StandsFor};
ghost use Rattle.sc_terms.specs.Folds.{equal_term, field_term, held_term};
ghost use Rattle.sc_term_definitions.specs.Making.{Puts};
ghost use Rattle.sc_closure_rules.specs.Closure as closing;
ghost use Rattle.sc_closure_rules.specs.Beside.{equated_by};

use crate::inside::{field, field_names};
use sc_lists::Text;
use sc_sorts::Sort;
use sc_terms::Terms;
use std::alloc::{AllocError, Global};

/// Puts two numbers.
fn put_two(first: u64, second: u64, numbers: &mut Vec<u64>) -> Result<(), AllocError>
    ensures { OnOk result (numbers.new.items ≡ numbers.old.items ++ first ∷ second ∷ []) }
{
    numbers.extend_from_slice(&[first, second])?;
    Ok(())
}

/// Puts the equations of a term with two others.
#[tactic(auto, using(crate::proofs::FollowLaws::puts_two))]
fn put_equal_to(
    terms: &mut Terms,
    n: u64,
    a: u64,
    b: u64,
    numbers: &mut Vec<u64>,
) -> Result<(), AllocError>
    requires n_in { n < length terms.old }
    requires a_in { a < length terms.old }
    requires b_in { b < length terms.old }
    ensures ok { OnOk result (Puts terms.old terms.new numbers.old.items numbers.new.items (equal_term
        (tree terms.old n) (tree terms.old a) ∷ equal_term (tree terms.old n) (tree terms.old b) ∷ [])) }
    ensures kept { Keeps terms.old terms.new }
{
    let first = terms.equal(n, a)?;
    let second = terms.equal(n, b)?;
    put_two(first, second, numbers)?;
    Ok(())
}

fn is_bool(sort: &Sort) -> bool
    ensures { result ≡ truth_sort sort.now }
{
    matches!(sort, Sort::Bool)
}

/// Puts the equations of a choice with what it chooses from, unless it is a truth value.
pub(crate) fn put_branches(
    terms: &mut Terms,
    n: u64,
    a: u64,
    b: u64,
    numbers: &mut Vec<u64>,
) -> Result<(), AllocError>
    requires n_in { n < length terms.old }
    requires a_in { a < length terms.old }
    requires b_in { b < length terms.old }
    ensures ok { OnOk result (Puts terms.old terms.new numbers.old.items numbers.new.items (closing.branches
        (out-Sort (tree_sort (tree terms.old a))) (tree terms.old n) (tree terms.old a) (tree terms.old b))) }
    ensures kept { Keeps terms.old terms.new }
{
    if is_bool(terms.sort(a)) {
        return Ok(());
    }
    put_equal_to(terms, n, a, b, numbers)
}

/// The number of the equation of two records' fields of a name.
fn equal_field(
    alloc: Global,
    terms: &mut Terms,
    a: u64,
    b: u64,
    name: &Text,
) -> Result<u64, AllocError>
    requires a_in { a < length terms.old }
    requires b_in { b < length terms.old }
    ensures ok { IfOk result (λ m. StandsFor terms.new m (equal_term (field_term name.now (tree terms.old a))
        (field_term name.now (tree terms.old b)))) }
    ensures kept { Keeps terms.old terms.new }
{
    let first = field(alloc, terms, a, name)?;
    let second = field(alloc, terms, b, name)?;
    let equation = terms.equal(first, second)?;
    Ok(equation)
}

/// Puts the equations of two records' fields.
fn put_equal_fields(
    alloc: Global,
    terms: &mut Terms,
    a: u64,
    b: u64,
    names: &[Text],
    numbers: &mut Vec<u64>,
) -> Result<(), AllocError>
    requires a_in { a < length terms.old }
    requires b_in { b < length terms.old }
    ensures ok { OnOk result (Puts terms.old terms.new numbers.old.items numbers.new.items (map (λ name. equal_term
        (field_term name (tree terms.old a)) (field_term name (tree terms.old b))) names.now)) }
    ensures kept { Keeps terms.old terms.new }
{
    for name in names {
        let m = equal_field(alloc, terms, a, b, name)?;
        numbers.push(m)?;
    }
    Ok(())
}

/// What an equation of two terms of a sort is told by.
#[derive(Clone, Copy)]
enum Equated {
    /// The equations of their fields.
    Fields,
    /// That of what they hold.
    Held,
    /// Whether each is within the other.
    Inclusions,
    /// No other terms.
    Nothing,
}

fn equations_of(sort: &Sort) -> Equated
    ensures { result ≡ equated_by (out-Sort sort.now) }
{
    match sort {
        Sort::Record(_) => Equated::Fields,
        Sort::Option(_) => Equated::Held,
        Sort::Set(_) => Equated::Inclusions,
        _ => Equated::Nothing,
    }
}

/// Puts what tells whether two terms are equal, by their sort.
pub(crate) fn put_equations(
    alloc: Global,
    terms: &mut Terms,
    a: u64,
    b: u64,
    numbers: &mut Vec<u64>,
) -> Result<(), AllocError>
    requires a_in { a < length terms.old }
    requires b_in { b < length terms.old }
    ensures ok { OnOk result (Puts terms.old terms.new numbers.old.items numbers.new.items (closing.equations
        (out-Sort (tree_sort (tree terms.old a))) (tree terms.old a) (tree terms.old b))) }
    ensures kept { Keeps terms.old terms.new }
{
    match equations_of(terms.sort(a)) {
        Equated::Fields => {
            let names = field_names(alloc, terms.sort(a))?;
            put_equal_fields(alloc, terms, a, b, names.as_slice(), numbers)
        }
        Equated::Held => put_equal_held(terms, a, b, numbers),
        Equated::Inclusions => put_inclusions(terms, a, b, numbers),
        Equated::Nothing => Ok(()),
    }
}

/// Puts the equation of what two options hold.
#[tactic(auto, using(sc_term_definitions::proofs::MakingLaws::puts_one))]
fn put_equal_held(
    terms: &mut Terms,
    a: u64,
    b: u64,
    numbers: &mut Vec<u64>,
) -> Result<(), AllocError>
    requires a_in { a < length terms.old }
    requires b_in { b < length terms.old }
    ensures ok { OnOk result (Puts terms.old terms.new numbers.old.items numbers.new.items (equal_term (held_term
        (tree terms.old a)) (held_term (tree terms.old b)) ∷ [])) }
    ensures kept { Keeps terms.old terms.new }
{
    let first = terms.held(a)?;
    let second = terms.held(b)?;
    let equation = terms.equal(first, second)?;
    numbers.push(equation)?;
    Ok(())
}

/// Puts whether each of two sets is within the other.
#[tactic(auto, using(crate::proofs::FollowLaws::puts_two))]
fn put_inclusions(
    terms: &mut Terms,
    a: u64,
    b: u64,
    numbers: &mut Vec<u64>,
) -> Result<(), AllocError>
    requires a_in { a < length terms.old }
    requires b_in { b < length terms.old }
    ensures ok { OnOk result (Puts terms.old terms.new numbers.old.items numbers.new.items (two binary.Subset
        (tree terms.old a) (tree terms.old b) ∷ two binary.Subset (tree terms.old b) (tree terms.old a) ∷ [])) }
    ensures kept { Keeps terms.old terms.new }
{
    let there = terms.subset(a, b)?;
    let back = terms.subset(b, a)?;
    put_two(there, back, numbers)?;
    Ok(())
}
