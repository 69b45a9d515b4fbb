//! Which atom to decide on, and which value to try.

use crate::cases::Cases;
use crate::definitions::Definitions;
use crate::heap::Heap;
use sc_clauses::{Clauses, Lit};
use std::alloc::{AllocError, Global};

/// What an atom's activity grows by where the first conflict meets it.
const FIRST_STEP: u64 = 1_024;

/// Above this step all activities are made smaller.
const LARGEST_STEP: u64 = 1_099_511_627_776;

/// The atoms in the order in which they are decided on: first the parts of what defines an atom that is true, then
/// those of long disjunctions that are true, and then those that conflicts met most of late, since a later one counts
/// more.
#[derive(Drop)]
pub struct Order {
    heap: Heap,
    /// What an atom's activity grows by where a conflict meets it.
    step: u64,
    /// Whether the last value of each atom was false; before it has one too.
    phases: Vec<bool>,
    definitions: Definitions,
    cases: Cases,
    /// Whether each atom stands in a clause that was given.
    occurring: Vec<bool>,
    /// The literal of the atom that was taken, if a definition or a disjunction gave it.
    tried: Option<Lit>,
}

/// Marks the atoms of a clause.
fn mark(marks: &mut Vec<bool>, clause: &[Lit]) {
    for lit in clause {
        if let Some(mark) = marks.get_mut(lit.atom as usize) {
            *mark = true;
        }
    }
}

/// Whether each atom stands in one of these clauses.
fn atoms_of(alloc: Global, cells: usize, clauses: &Clauses) -> Result<Vec<bool>, AllocError> {
    let mut marks = Vec::from_elem(alloc, false, cells)?;
    for place in 0..clauses.len() {
        if let Some(clause) = clauses.get(place) {
            mark(&mut marks, clause);
        }
    }
    Ok(marks)
}

impl Order {
    /// The order of the atoms' numbers, which are less than `cells`, and the definitions that clauses tell.
    pub fn new(alloc: Global, cells: usize, clauses: &Clauses) -> Result<Order, AllocError> {
        let definitions = Definitions::new(alloc, cells, clauses)?;
        let cases = Cases::new(alloc, cells, &definitions)?;
        Ok(Order {
            heap: Heap::new(alloc, cells)?,
            step: FIRST_STEP,
            phases: Vec::from_elem(alloc, true, cells)?,
            definitions,
            cases,
            occurring: atoms_of(alloc, cells, clauses)?,
            tried: None,
        })
    }

    /// Takes the first atom out of the order, if there is one, where these literals are true.
    pub fn take(&mut self, lits: &[Lit]) -> Option<usize> {
        self.tried = match self.definitions.next_part(lits) {
            Some(part) => Some(part),
            None => self.cases.next(&self.heap, lits),
        };
        match self.tried {
            Some(lit) => Some(lit.atom as usize),
            None => self.heap.take(),
        }
    }

    /// Comes back to where so many literals were true.
    pub fn come_back(&mut self, count: usize) {
        self.definitions.come_back(count);
        self.cases.come_back(count);
    }

    /// Whether to try an atom as false: one that a definition or a disjunction gave as that says, and one that had a
    /// value as that says, if the search keeps phases.
    pub fn is_negated(&self, atom: usize, keeps_phases: bool) -> bool {
        if let Some(lit) = self.tried {
            if lit.atom as usize == atom {
                return lit.negated;
            }
        }
        if !keeps_phases {
            return true;
        }
        match self.phases.get(atom) {
            Some(phase) => *phase,
            None => true,
        }
    }

    /// Takes an atom back into the order which was false, or true, and has no value any more.
    pub fn put_back(&mut self, atom: usize, negated: bool) {
        if let Some(phase) = self.phases.get_mut(atom) {
            *phase = negated;
        }
        self.cases.put_back(atom);
        self.heap.put_back(atom);
    }

    /// Whether it's worth to know that a literal is true: that an atom is false which stands in no clause given is
    /// not, since it would be tried as false.
    pub fn is_of_use(&self, lit: Lit) -> bool {
        if !lit.negated {
            return true;
        }
        match self.occurring.get(lit.atom as usize) {
            Some(occurs) => *occurs,
            None => false,
        }
    }

    /// Counts a conflict that met these atoms.
    pub fn raise(&mut self, met: &[usize]) {
        for atom in met {
            self.heap.raise(*atom, self.step);
        }
        self.step = self.step.saturating_add(self.step / 20);
        if self.step > LARGEST_STEP {
            self.step = FIRST_STEP;
            self.heap.scale();
        }
    }
}
