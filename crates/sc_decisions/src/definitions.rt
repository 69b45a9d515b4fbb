//! Which literals to try where another one is true: those of which its truth table gives the values, though no clause
//! alone does.

use sc_clauses::{Clauses, Lit, negation};
use std::alloc::{AllocError, Global};

/// How many clauses a table has.
const ROWS: u64 = 4;

/// The clauses of three literals that end in one literal.
#[derive(Clone, Copy)]
struct Rows {
    count: u64,
    /// The other literals of the last of them.
    first: Lit,
    second: Lit,
}

/// Truth tables of atoms, each of two others. A table that gives a value in one row has one clause that ends in a
/// literal of its atom, and three that end in the other: where the former literal is true, the other two of its
/// clause are false, and each of them leads to a conflict at once if it is tried. A table that gives each value in
/// two rows has two clauses for each: where its atom has a value, the second of the two others has one as soon as the
/// first has. So what a table gives is learned, or propagated, as soon as it matters.
#[derive(Drop)]
pub(crate) struct Definitions {
    /// The clauses that end in an atom, by its number.
    atoms: Vec<Rows>,
    /// Those that end in an atom's negation, by the atom's number.
    negations: Vec<Rows>,
    /// In how many clauses of three literals each atom stands before the last one.
    uses: Vec<u64>,
    /// How many true literals were looked at, in the order in which they became true.
    passed: usize,
    /// The second literal to try by the table of the last of them.
    second: Option<Lit>,
}

/// As many times no clause.
fn no_rows(alloc: Global, cells: usize) -> Result<Vec<Rows>, AllocError> {
    let none = Lit {
        atom: 0,
        negated: false,
    };
    let rows = Rows {
        count: 0,
        first: none,
        second: none,
    };
    Vec::from_elem(alloc, rows, cells)
}

/// Counts a clause that ends in an atom, or in its negation.
fn count_row(rows: &mut Vec<Rows>, atom: usize, first: Lit, second: Lit) {
    if let Some(slot) = rows.get_mut(atom) {
        *slot = Rows {
            count: slot.count.saturating_add(1),
            first,
            second,
        };
    }
}

/// The clauses at an atom.
fn rows_at(rows: &[Rows], atom: usize) -> Option<Rows> {
    match rows.get(atom) {
        Some(rows) => Some(*rows),
        None => None,
    }
}

/// A literal of an atom.
fn literal(atom: usize, negated: bool) -> Lit {
    Lit {
        atom: atom as u64,
        negated,
    }
}

impl Definitions {
    /// Those that clauses tell, of atoms below `cells`.
    pub fn new(alloc: Global, cells: usize, clauses: &Clauses) -> Result<Definitions, AllocError> {
        let mut definitions = Definitions {
            atoms: no_rows(alloc, cells)?,
            negations: no_rows(alloc, cells)?,
            uses: Vec::from_elem(alloc, 0, cells)?,
            passed: 0,
            second: None,
        };
        for place in 0..clauses.len() {
            if let Some(clause) = clauses.get(place) {
                definitions.count(clause);
            }
        }
        Ok(definitions)
    }

    /// Counts a clause, if it has three literals.
    fn count(&mut self, clause: &[Lit]) {
        if clause.len() != 3 {
            return;
        }
        self.count_use(clause[0]);
        self.count_use(clause[1]);
        let last = clause[2];
        if last.negated {
            count_row(
                &mut self.negations,
                last.atom as usize,
                clause[0],
                clause[1],
            );
        } else {
            count_row(&mut self.atoms, last.atom as usize, clause[0], clause[1]);
        }
    }

    fn count_use(&mut self, lit: Lit) {
        if let Some(count) = self.uses.get_mut(lit.atom as usize) {
            *count = count.saturating_add(1);
        }
    }

    /// The clauses that end in a literal.
    fn rows(&self, lit: Lit) -> Option<Rows> {
        if lit.negated {
            return rows_at(&self.negations, lit.atom as usize);
        }
        rows_at(&self.atoms, lit.atom as usize)
    }

    /// Two literals to try, one after the other, where this one is true.
    fn parts(&self, lit: Lit) -> Option<(Lit, Lit)> {
        let rows = self.rows(lit)?;
        let others = self.rows(negation(lit))?;
        let is_even = rows.count == 2 && others.count == 2;
        let is_one = rows.count == 1 && others.count == 3;
        if is_even || is_one {
            return Some((rows.first, rows.second));
        }
        None
    }

    /// The literal of an atom that is a disjunction of two, if its table says so.
    pub fn disjunction(&self, atom: usize) -> Option<Lit> {
        let rows = rows_at(&self.atoms, atom)?;
        let others = rows_at(&self.negations, atom)?;
        if rows.count == 3 && others.count == 1 {
            return Some(literal(atom, false));
        }
        if rows.count == 1 && others.count == 3 {
            return Some(literal(atom, true));
        }
        None
    }

    /// Two literals of which one is true exactly where this one is.
    pub fn disjuncts(&self, lit: Lit) -> Option<(Lit, Lit)> {
        let rows = self.rows(lit)?;
        let others = self.rows(negation(lit))?;
        if rows.count == 3 && others.count == 1 {
            return Some((others.first, others.second));
        }
        None
    }

    /// Whether a table ends in a literal or in its negation.
    pub fn is_defined(&self, lit: Lit) -> bool {
        self.has_row(lit) || self.has_row(negation(lit))
    }

    /// Whether more than one table looks at a literal.
    pub fn is_shared(&self, lit: Lit) -> bool {
        match self.uses.get(lit.atom as usize) {
            Some(count) => *count > ROWS,
            None => false,
        }
    }

    fn has_row(&self, lit: Lit) -> bool {
        match self.rows(lit) {
            Some(rows) => rows.count > 0,
            None => false,
        }
    }

    /// The next literal to try by the tables of those which are true.
    pub fn next_part(&mut self, lits: &[Lit]) -> Option<Lit> {
        if let Some(second) = self.second {
            self.second = None;
            return Some(second);
        }
        for place in self.passed..lits.len() {
            self.passed = place + 1;
            if let Some((first, second)) = self.parts(lits[place]) {
                self.second = Some(second);
                return Some(first);
            }
        }
        None
    }

    /// Comes back to where so many literals were true.
    pub fn come_back(&mut self, count: usize) {
        if count < self.passed {
            self.passed = count;
            self.second = None;
        }
    }
}
