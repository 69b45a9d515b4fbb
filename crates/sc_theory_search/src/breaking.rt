//! Instances of rules that an assignment of all atoms may break.

use crate::broken_sets::{
    put_above, put_apart, put_listed, put_not_within, put_same, put_shared, put_within,
};
use crate::broken_terms::{put_equation, put_term};
use crate::look::Look;
use sc_clauses::{Assignment, Instance, Lit};
use sc_footprint::Problem;
use sc_sorts::{BinaryOp, Node};
use sc_suggestions::{Told, Tolds, put_alike, put_equal};
use std::alloc::{AllocError, Global};

/// Puts those by what an operator says of two closed terms, by their numbers.
fn put_operator(
    look: &Look<'_, '_>,
    op: &BinaryOp,
    sides: (u64, u64),
    holds: bool,
    found: &mut Vec<Instance>,
) -> Result<(), AllocError> {
    let (one, other) = sides;
    match (op, holds) {
        (BinaryOp::Subset, true) => put_within(look, one, other, found),
        (BinaryOp::Subset, false) => put_not_within(look, one, other, found),
        (BinaryOp::Common, true) => put_shared(look, one, other, found),
        (BinaryOp::Common, false) => put_apart(look, one, other, found),
        (BinaryOp::Equal, true) => {
            put_equation(look, one, other, true, found)?;
            put_same(look, one, other, found)
        }
        (BinaryOp::Equal, false) => put_equation(look, one, other, false, found),
        (BinaryOp::Member, _) => {
            let told = Told {
                set: other,
                candidate: one,
                holds,
            };
            put_listed(look, told, found)?;
            put_above(look, told, found)
        }
        _ => Ok(()),
    }
}

/// Puts those by the truth of an atom.
fn put_atom(look: &Look<'_, '_>, lit: Lit, found: &mut Vec<Instance>) -> Result<(), AllocError> {
    let Some(term) = look.problem.atom(lit.atom) else {
        return Ok(());
    };
    let Node::Two(op, a, b) = look.problem.terms().node(term) else {
        return Ok(());
    };
    let Some(one) = look.problem.number_of(*a) else {
        return Ok(());
    };
    let Some(other) = look.problem.number_of(*b) else {
        return Ok(());
    };
    put_operator(look, op, (one, other), !lit.negated, found)
}

/// The literals that an assignment makes true.
fn true_literals(
    alloc: Global,
    problem: &Problem<'_>,
    m: &Assignment,
) -> Result<Vec<Lit>, AllocError> {
    let mut lits = Vec::new(alloc);
    for before in 0..problem.atom_count() {
        let atom = before.saturating_add(1);
        if let Some(value) = m.value(atom) {
            lits.push(Lit {
                atom,
                negated: !value,
            })?;
        }
    }
    Ok(lits)
}

/// Instances of the rules on equations, sets and entities that an assignment of all atoms may break. Nothing is promised
/// of them.
pub fn broken(
    alloc: Global,
    problem: &Problem<'_>,
    m: &Assignment,
) -> Result<Vec<Instance>, AllocError> {
    let mut found = Vec::new(alloc);
    let lits = true_literals(alloc, problem, m)?;
    let tolds = Tolds::new(alloc, problem, &lits)?;
    let look = Look {
        alloc,
        problem,
        m,
        tolds: &tolds,
    };
    for lit in &lits {
        put_atom(&look, *lit, &mut found)?;
    }
    for before in 0..problem.closed_count() {
        put_term(&look, before.saturating_add(1), &mut found)?;
    }
    put_equal(alloc, problem, &lits, &lits, &mut found)?;
    put_alike(alloc, problem, &lits, &lits, &mut found)?;
    Ok(found)
}
