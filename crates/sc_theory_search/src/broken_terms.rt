//! Instances of rules on equations, choices, options and tags that an assignment of all atoms may break.

use crate::look::Look;
use sc_clauses::Instance;
use sc_rule_instances::{EntityRule, EqualRule, SetRule, field_count};
use sc_sorts::{BinaryOp, Node, Sort};
use std::alloc::AllocError;

/// Puts those of two equal or unequal sets.
fn put_sets(
    look: &Look<'_, '_>,
    one: u64,
    other: u64,
    holds: bool,
    found: &mut Vec<Instance>,
) -> Result<(), AllocError> {
    if !holds {
        return look.put_set(SetRule::Se8(one, other, 2), found);
    }
    look.put_set(SetRule::Se8(one, other, 0), found)?;
    look.put_set(SetRule::Se8(one, other, 1), found)
}

/// Puts those of two equal or unequal options.
fn put_options(
    look: &Look<'_, '_>,
    one: u64,
    other: u64,
    holds: bool,
    found: &mut Vec<Instance>,
) -> Result<(), AllocError> {
    if holds {
        look.put_equal(EqualRule::Eq5(one, other), found)?;
        look.put_equal(EqualRule::Eq5(other, one), found)?;
        return look.put_equal(EqualRule::Eq6(one, other), found);
    }
    look.put_equal(EqualRule::Eq7(one, other, 0), found)?;
    look.put_equal(EqualRule::Eq7(one, other, 1), found)
}

/// Puts those of two equal or unequal records of so many fields.
fn put_records(
    look: &Look<'_, '_>,
    one: u64,
    other: u64,
    holds: bool,
    count: u64,
    found: &mut Vec<Instance>,
) -> Result<(), AllocError> {
    if !holds {
        return look.put_equal(EqualRule::Eq4(one, other), found);
    }
    for place in 0..count {
        look.put_equal(EqualRule::Eq3(one, other, place), found)?;
    }
    Ok(())
}

/// Puts those of two terms that are equal or not, by what these are made of.
pub(crate) fn put_equation(
    look: &Look<'_, '_>,
    one: u64,
    other: u64,
    holds: bool,
    found: &mut Vec<Instance>,
) -> Result<(), AllocError> {
    let Some(term) = look.problem.term(one) else {
        return Ok(());
    };
    match look.problem.terms().sort(term) {
        Sort::Set(_) => put_sets(look, one, other, holds, found),
        Sort::Option(_) => put_options(look, one, other, holds, found),
        Sort::Record(_) => match field_count(look.problem, term) {
            Some(count) => put_records(look, one, other, holds, count, found),
            None => Ok(()),
        },
        _ => Ok(()),
    }
}

/// Whether a closed term is an option, by its number.
fn is_option(look: &Look<'_, '_>, number: u64) -> bool {
    match look.problem.term(number) {
        Some(term) => match look.problem.terms().sort(term) {
            Sort::Option(_) => true,
            _ => false,
        },
        None => false,
    }
}

/// Puts those of one closed term: a choice, a tag, or an option.
pub(crate) fn put_term(
    look: &Look<'_, '_>,
    number: u64,
    found: &mut Vec<Instance>,
) -> Result<(), AllocError> {
    let Some(term) = look.problem.term(number) else {
        return Ok(());
    };
    match look.problem.terms().node(term) {
        Node::Choice(_, _, _) => {
            look.put_equal(EqualRule::Eq2(number, 0), found)?;
            look.put_equal(EqualRule::Eq2(number, 1), found)?;
        }
        Node::Two(BinaryOp::Tag(_), _, _) => look.put_entity(EntityRule::En6(number), found)?,
        _ => {}
    }
    if is_option(look, number) {
        look.put_equal(EqualRule::Eq8(number), found)?;
    }
    Ok(())
}
