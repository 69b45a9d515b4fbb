//! The clauses of an item: counted, tested and made.
ghost use Rattle.std.specs.Prelude.{◌≡◌, ◌<◌, ◌≤◌, ◌-◌, ◌++◌, [], length, OnOk};
ghost use Rattle.std.specs.List.{slice_index_or};
ghost use Rattle.sc_clauses.specs.Clauses.{is_in as stands_in, negation as negation_of};
ghost use Rattle.sc_clauses.specs.Assignments.{falsifies as falsified};
ghost use Rattle.sc_footprint.specs.Definitions.{is_tautology as tautology};
ghost use Rattle.th_defs.specs.Items.{IsItem, clause_at, item_clauses, kept_clauses};
ghost use Rattle.th_defs.specs.Places.{IsFirstFalsified, IsPlaceOf};

use crate::item::{Item, clause_count, clause_length, literal_at};
use sc_clauses::{Assignment, Clauses, Lit, is_false, is_in, is_same, negation};
use sc_footprint::Problem;
use std::alloc::AllocError;

/// Whether a clause holds the negation of a literal of it.
fn has_negation(problem: &Problem<'_>, item: Item, clause: u64, count: u64, literal: Lit) -> bool
    requires item { IsItem item }
    requires clause { clause < length (item_clauses problem.now item) }
    requires count { count ≡ length (clause_at problem.now item clause) }
    ensures { result ≡ stands_in (clause_at problem.now item clause) (negation_of literal) }
{
    for place in 0..count {
        if is_same(negation(literal), literal_at(problem, item, clause, place)) {
            return true;
        }
    }
    false
}

/// Whether some atom stands in a clause with its negation.
fn is_tautology(problem: &Problem<'_>, item: Item, clause: u64) -> bool
    requires item { IsItem item }
    requires clause { clause < length (item_clauses problem.now item) }
    ensures { result ≡ tautology (clause_at problem.now item clause) }
{
    let count = clause_length(item, clause);
    for place in 0..count {
        let literal = literal_at(problem, item, clause, place);
        if has_negation(problem, item, clause, count, literal) {
            return true;
        }
    }
    false
}

/// Whether an assignment makes every literal of a clause false.
fn is_falsified(problem: &Problem<'_>, m: &Assignment, item: Item, clause: u64) -> bool
    requires item { IsItem item }
    requires clause { clause < length (item_clauses problem.now item) }
    ensures { result ≡ falsified m.now (clause_at problem.now item clause) }
{
    for place in 0..clause_length(item, clause) {
        if !is_false(m, literal_at(problem, item, clause, place)) {
            return false;
        }
    }
    true
}

/// How many clauses of an item are kept.
pub(crate) fn kept_count(problem: &Problem<'_>, item: Item) -> u64
    requires { IsItem item }
    ensures { result ≡ length (kept_clauses problem.now item) }
{
    let mut count = 0;
    for clause in 0..clause_count(item) {
        if !is_tautology(problem, item, clause) {
            count += 1;
        }
    }
    count
}

/// The number, among those that are kept and counted from 1, of the first clause of an item that an
/// assignment falsifies.
pub(crate) fn falsified_number(problem: &Problem<'_>, m: &Assignment, item: Item) -> Option<u64>
    requires { IsItem item }
    ensures { IsFirstFalsified m.now (kept_clauses problem.now item) result }
{
    let mut number = 0;
    for clause in 0..clause_count(item) {
        if !is_tautology(problem, item, clause) {
            number += 1;
            if is_falsified(problem, m, item, clause) {
                return Some(number);
            }
        }
    }
    None
}

/// The place, among all clauses of an item, of the one of a number among those that are kept.
fn place_of(problem: &Problem<'_>, item: Item, number: u64) -> Option<u64>
    requires item { IsItem item }
    requires positive { 0 < number }
    ensures { IsPlaceOf problem.now item number result }
{
    let mut left = number;
    for clause in 0..clause_count(item) {
        if !is_tautology(problem, item, clause) {
            if left == 1 {
                return Some(clause);
            }
            left -= 1;
        }
    }
    None
}

/// Puts the literals of a clause into an empty list.
fn fill(
    problem: &Problem<'_>,
    item: Item,
    clause: u64,
    literals: &mut Vec<Lit>,
) -> Result<(), AllocError>
    requires item { IsItem item }
    requires clause { clause < length (item_clauses problem.now item) }
    ensures { OnOk result (literals.new.items ≡ clause_at problem.now item clause) }
{
    literals.clear();
    for place in 0..clause_length(item, clause) {
        literals.push(literal_at(problem, item, clause, place))?;
    }
    Ok(())
}

/// Puts the literals of the clause of a number, among those of an item that are kept, into an empty
/// list.
pub(crate) fn fill_kept(
    problem: &Problem<'_>,
    item: Item,
    number: u64,
    literals: &mut Vec<Lit>,
) -> Result<(), AllocError>
    requires item { IsItem item }
    requires positive { 0 < number }
    requires number { number ≤ length (kept_clauses problem.now item) }
    ensures { OnOk result (literals.new.items ≡ slice_index_or (kept_clauses problem.now item) (number - 1) []) }
{
    match place_of(problem, item, number) {
        Some(clause) => fill(problem, item, clause, literals),
        None => unreachable!(),
    }
}

/// Whether some atom stands among literals with its negation.
fn are_opposed(literals: &[Lit]) -> bool
    ensures { result ≡ tautology literals.now }
{
    literals
        .iter()
        .any(|literal| is_in(negation(*literal), literals))
}

/// Adds the clauses of an item that are kept.
pub(crate) fn push_kept(
    problem: &Problem<'_>,
    item: Item,
    literals: &mut Vec<Lit>,
    clauses: &mut Clauses,
) -> Result<(), AllocError>
    requires { IsItem item }
    ensures { OnOk result (clauses.new ≡ clauses.old ++ kept_clauses problem.now item) }
{
    for clause in 0..clause_count(item) {
        fill(problem, item, clause, literals)?;
        if !are_opposed(literals.as_slice()) {
            clauses.push(literals)?;
        }
    }
    Ok(())
}
