//! Tests of clauses in one array of numbers, more of them than 16 bits can count.
use sc_refutations::{Arena, Known};
use std::alloc::{AllocError, Global};
use std::test::Fail;

/// So many clauses, each of the two literals whose numbers are twice and thrice its place, and 2 more.
fn clauses(alloc: Global, count: u32) -> Result<Arena, AllocError> {
    let mut clauses = Arena::new(alloc);
    for place in 0..count {
        let (twice, thrice) = (place.wrapping_mul(2), place.wrapping_mul(3));
        clauses.push(&[twice.wrapping_add(2), thrice.wrapping_add(2)])?;
    }
    Ok(clauses)
}

/// Whether the clause at a place has these numbers.
fn is_at(clauses: &Arena, place: usize, codes: &[u32]) -> bool {
    match clauses.clause(place) {
        Some(clause) => clause == codes,
        None => false,
    }
}

#[test]
fn more_literals_than_sixteen_bits_count(rt: HostRuntime) -> Result<(), Fail> {
    let clauses = clauses(rt.alloc(), 70000)?;
    assert!(rt; clauses.len() == 70000);
    assert!(rt; is_at(&clauses, 0, &[2, 2]));
    assert!(rt; is_at(&clauses, 32768, &[65538, 98306]));
    assert!(rt; is_at(&clauses, 69999, &[140000, 209999]));
    assert!(rt; clauses.clause(70000).is_none());
    Ok(())
}

/// Whether so many atoms are few enough.
fn may_be_known(alloc: Global, count: u64) -> bool {
    match Known::new(alloc, count) {
        Ok(known) => known.count == count,
        Err(_) => false,
    }
}

#[test]
fn more_atoms_than_sixteen_bits_count(rt: HostRuntime) {
    assert!(rt; may_be_known(rt.alloc(), 70000));
}
