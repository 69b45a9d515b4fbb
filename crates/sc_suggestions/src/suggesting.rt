//! Instances by an equation that is known to be true, by memberships that are, or by what is known of like places.

use crate::alike::put_alike;
use crate::climbing::put_climbs;
use crate::known::{Known, equation, is_constant, tell_equation};
use sc_clauses::{Instance, Lit};
use sc_footprint::Problem;
use sc_rule_instances::{EqualRule, write_equal};
use std::alloc::{AllocError, Global};

/// The instance by which two terms are equal or not, since the first equals a third. Of terms that are equal one has
/// to be a constant, since there may be very many pairs of others.
fn rule_at(problem: &Problem<'_>, known: &Known, one: u64, other: u64) -> Option<EqualRule> {
    let third = known.partner(one);
    if third == 0 || third == other {
        return None;
    }
    if !known.are_equal(problem, third, other)? {
        return Some(EqualRule::Eq1(third, one, other));
    }
    if is_constant(problem, one) || is_constant(problem, other) {
        return Some(EqualRule::Eq1(one, third, other));
    }
    None
}

/// The instance that tells the truth of an atom, if that isn't known.
fn rule_of(problem: &Problem<'_>, known: &Known, atom: u64) -> Option<EqualRule> {
    if known.truth(atom).is_some() {
        return None;
    }
    let (one, other) = equation(problem, atom)?;
    match rule_at(problem, known, one, other) {
        Some(rule) => Some(rule),
        None => rule_at(problem, known, other, one),
    }
}

/// Puts the instances of EQ1 by the equations that new literals say are true.
pub fn put_equal(
    alloc: Global,
    problem: &Problem<'_>,
    lits: &[Lit],
    new: &[Lit],
    found: &mut Vec<Instance>,
) -> Result<(), AllocError> {
    if !tell_equation(problem, new) {
        return Ok(());
    }
    let known = Known::new(alloc, problem, lits, new)?;
    for place in 0..problem.atom_count() {
        if let Some(rule) = rule_of(problem, &known, place.saturating_add(1)) {
            found.push(write_equal(alloc, rule)?)?;
        }
    }
    Ok(())
}

/// Instances that may give a literal where these are all that are known: by the equations, the memberships and the
/// places of which they tell, if one is told after the first `seen` of them.
pub fn suggested(
    alloc: Global,
    problem: &Problem<'_>,
    lits: &[Lit],
    seen: usize,
) -> Result<Vec<Instance>, AllocError> {
    let mut found = Vec::new(alloc);
    let new = match lits.get(seen..) {
        Some(new) => new,
        None => &[],
    };
    put_equal(alloc, problem, lits, new, &mut found)?;
    put_climbs(alloc, problem, lits, new, &mut found)?;
    put_alike(alloc, problem, lits, new, &mut found)?;
    Ok(found)
}
