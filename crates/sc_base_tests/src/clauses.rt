//! Tests of clauses, lists of them and assignments.
use sc_clauses::{Assignment, Clauses, Lit, contained, falsifies, negation};
use sc_lists::Seq;
use std::alloc::{AllocError, Global};
use std::test::Fail;

fn clause(alloc: Global, lits: &[(u64, bool)]) -> Result<Seq<Lit>, AllocError> {
    let mut clause = Seq::new(alloc);
    for (atom, negated) in lits {
        clause.push(Lit {
            atom: *atom,
            negated: *negated,
        })?;
    }
    Ok(clause)
}

/// The assignment in which atom 1 is true, atom 2 has no value, and atom 3 is false.
fn assignment(alloc: Global) -> Result<Assignment, AllocError> {
    let mut values = Seq::new(alloc);
    values.push(Some(true))?;
    values.push(None)?;
    values.push(Some(false))?;
    Ok(Assignment::from_values(values))
}

fn is_falsified(alloc: Global, lits: &[(u64, bool)]) -> Result<bool, AllocError> {
    let m = assignment(alloc)?;
    let c = clause(alloc, lits)?;
    Ok(falsifies(&m, &c))
}

fn is_contained(alloc: Global, c: &[(u64, bool)], d: &[(u64, bool)]) -> Result<bool, AllocError> {
    let c = clause(alloc, c)?;
    let d = clause(alloc, d)?;
    Ok(contained(&c, &d))
}

fn put(alloc: Global, clauses: &mut Clauses, lits: &[(u64, bool)]) -> Result<(), AllocError> {
    let clause = clause(alloc, lits)?;
    clauses.push(clause.as_slice())
}

/// Three clauses, the second one empty.
fn clauses(alloc: Global) -> Result<Clauses, AllocError> {
    let mut clauses = Clauses::new(alloc);
    put(alloc, &mut clauses, &[(1, true), (2, false)])?;
    put(alloc, &mut clauses, &[])?;
    put(alloc, &mut clauses, &[(3, false)])?;
    Ok(clauses)
}

fn length_at(clauses: &Clauses, place: usize) -> Option<usize> {
    let clause = clauses.get(place)?;
    Some(clause.len())
}

#[test]
fn falsified_where_each_literal_is_false(rt: HostRuntime) -> Result<(), Fail> {
    assert!(rt; is_falsified(rt.alloc(), &[(1, true), (3, false)])?);
    assert!(rt; !is_falsified(rt.alloc(), &[(1, true), (2, false)])?);
    assert!(rt; !is_falsified(rt.alloc(), &[(1, true), (4, true)])?);
    assert!(rt; is_falsified(rt.alloc(), &[])?);
    Ok(())
}

#[test]
fn contained_where_each_literal_is_in_the_other(rt: HostRuntime) -> Result<(), Fail> {
    assert!(rt; is_contained(rt.alloc(), &[], &[(1, true)])?);
    assert!(rt;
        is_contained(
            rt.alloc(),
            &[(2, false), (2, false)],
            &[(1, true), (2, false)]
        )?
    );
    assert!(rt; !is_contained(rt.alloc(), &[(2, true)], &[(1, true), (2, false)])?);
    Ok(())
}

#[test]
fn negation_of_a_literal(rt: HostRuntime) {
    let lit = Lit {
        atom: 3,
        negated: false,
    };
    let other = negation(lit);
    assert!(rt; other.atom == 3 && other.negated);
    assert!(rt; negation(other) == lit);
}

#[test]
fn clauses_by_their_places(rt: HostRuntime) -> Result<(), Fail> {
    let clauses = clauses(rt.alloc())?;
    assert!(rt; clauses.len() == 3);
    assert!(rt; length_at(&clauses, 0) == Some(2));
    assert!(rt; length_at(&clauses, 1) == Some(0));
    assert!(rt; length_at(&clauses, 2) == Some(1));
    assert!(rt; length_at(&clauses, 3).is_none());
    Ok(())
}
