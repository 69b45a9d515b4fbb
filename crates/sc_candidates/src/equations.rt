//! Equations of a new term with others. Two values are equal or they aren't, so that of many values
//! there are two equations alone.
ghost use Rattle.std.specs.Prelude.{◌≡◌, ◌<◌, true, false, length, IfOk, OnOk};
ghost use Rattle.std.specs.List.{AllByRecursion, list_any};
ghost use Rattle.sc_terms.specs.Folds.{truth_term, literal_of, equal_term};
ghost use Rattle.sc_terms.specs.Order.{tree_eq};
ghost use Rattle.sc_terms.specs.Tables.{tree, Keeps, StandsFor};
ghost use Rattle.sc_closure_rules.specs.Making.{Puts, stood};
ghost use Rattle.sc_candidates.specs.Equations.{Equates, equations_with, two_values, apart, apart_from, told_of};
ghost use Rattle.sc_candidates.specs.Values.{AreDivided, truth_value, value_in};

use sc_sorts::{Literal, same_entity};
use sc_terms::Terms;
use std::alloc::AllocError;

/// Whether a literal is a truth value.
fn is_truth(literal: &Literal) -> bool
    ensures { result ≡ truth_value literal.now }
{
    matches!(literal, Literal::Bool(_))
}

/// Whether a term is a value that is written out and no truth value.
pub fn is_value(terms: &Terms, n: u64) -> bool
    requires { n < length terms.now }
    ensures { result ≡ value_in (literal_of (tree terms.now n)) }
{
    match terms.literal_at(n) {
        Some(literal) => !is_truth(literal),
        None => false,
    }
}

/// Whether two literals that aren't one are of two values, and neither is a truth value.
fn have_two_values(l: &Literal, m: &Literal) -> bool
    ensures { result ≡ two_values l.now m.now }
{
    !is_truth(l) && !is_truth(m) && !same_entity(l, m)
}

/// Whether two terms are literals of two values, as two names are.
fn are_apart(terms: &Terms, a: u64, b: u64) -> bool
    requires a_in { a < length terms.now }
    requires b_in { b < length terms.now }
    ensures { result ≡ apart (tree_eq (tree terms.now a) (tree terms.now b)) (literal_of (tree terms.now a))
        (literal_of (tree terms.now b)) }
{
    if terms.is_same(a, b) {
        return false;
    }
    match (terms.literal_at(a), terms.literal_at(b)) {
        (Some(l), Some(m)) => have_two_values(l, m),
        _ => false,
    }
}

/// The number of an equation, given that of `false`, which an equation of two values is.
#[tactic(auto, using(crate::proofs::EquationLaws::stands_apart))]
fn equated(terms: &mut Terms, a: u64, b: u64, never: u64) -> Result<u64, AllocError>
    requires a_in { a < length terms.old }
    requires b_in { b < length terms.old }
    requires never { StandsFor terms.old never (truth_term false) }
    ensures ok { IfOk result (λ n. StandsFor terms.new n (equal_term (tree terms.old a) (tree terms.old b))) }
    ensures kept { Keeps terms.old terms.new }
{
    if are_apart(terms, a, b) {
        Ok(never)
    } else {
        terms.equal(a, b)
    }
}

/// Puts the equations of each of these and a term.
fn put_equations(
    terms: &mut Terms,
    members: &[u64],
    term: u64,
    numbers: &mut Vec<u64>,
) -> Result<(), AllocError>
    requires members_in { AllByRecursion (λ n. n < length terms.old) members.now }
    requires term_in { term < length terms.old }
    ensures ok { OnOk result (Puts terms.old terms.new numbers.old.items numbers.new.items (equations_with
        (stood terms.old members.now) (tree terms.old term))) }
    ensures kept { Keeps terms.old terms.new }
{
    let never = terms.truth(false)?;
    for member in members {
        let m = equated(terms, *member, term, never)?;
        numbers.push(m)?;
    }
    Ok(())
}

/// Whether one of these and a term are two values.
fn is_any_apart(terms: &Terms, members: &[u64], term: u64) -> bool
    requires members_in { AllByRecursion (λ n. n < length terms.now) members.now }
    requires term_in { term < length terms.now }
    ensures { result ≡ list_any (apart_from terms.now (tree terms.now term)) members.now }
{
    for member in members {
        if are_apart(terms, *member, term) {
            return true;
        }
    }
    false
}

/// Puts the equation of a value with itself and, if one of these is another value, that of two.
fn put_own(
    terms: &mut Terms,
    members: &[u64],
    term: u64,
    numbers: &mut Vec<u64>,
) -> Result<(), AllocError>
    requires members_in { AllByRecursion (λ n. n < length terms.old) members.now }
    requires term_in { term < length terms.old }
    ensures ok { OnOk result (Puts terms.old terms.new numbers.old.items numbers.new.items (told_of (list_any
        (apart_from terms.old (tree terms.old term)) members.now) (tree terms.old term))) }
    ensures kept { Keeps terms.old terms.new }
{
    let is_apart = is_any_apart(terms, members, term);
    let own = terms.equal(term, term)?;
    numbers.push(own)?;
    if is_apart {
        let never = terms.truth(false)?;
        numbers.push(never)?;
    }
    Ok(())
}

/// Puts the equations of a value and these.
fn equate_value(
    terms: &mut Terms,
    members: &[u64],
    others: &[u64],
    term: u64,
    numbers: &mut Vec<u64>,
) -> Result<(), AllocError>
    requires members_in { AllByRecursion (λ n. n < length terms.old) members.now }
    requires divided { AreDivided terms.old members.now others.now }
    requires term_in { term < length terms.old }
    requires value { value_in (literal_of (tree terms.old term)) ≡ true }
    ensures ok { OnOk result (Equates terms.old terms.new numbers.old.items numbers.new.items (equations_with
        (stood terms.old members.now) (tree terms.old term)) (tree terms.old term)) }
    ensures kept { Keeps terms.old terms.new }
{
    put_own(terms, members, term, numbers)?;
    put_equations(terms, others, term, numbers)?;
    Ok(())
}

/// Puts the equations of a term and these, behind the other numbers. `others` are those of the members
/// that aren't values.
pub fn equate_members(
    terms: &mut Terms,
    members: &[u64],
    others: &[u64],
    term: u64,
    numbers: &mut Vec<u64>,
) -> Result<(), AllocError>
    requires members_in { AllByRecursion (λ n. n < length terms.old) members.now }
    requires divided { AreDivided terms.old members.now others.now }
    requires term_in { term < length terms.old }
    ensures ok { OnOk result (Equates terms.old terms.new numbers.old.items numbers.new.items (equations_with
        (stood terms.old members.now) (tree terms.old term)) (tree terms.old term)) }
    ensures kept { Keeps terms.old terms.new }
{
    if is_value(terms, term) {
        equate_value(terms, members, others, term, numbers)
    } else {
        put_equations(terms, members, term, numbers)
    }
}
