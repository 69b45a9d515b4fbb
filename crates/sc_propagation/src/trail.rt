//! The trail: the assignment in the order in which it was made.
ghost use Rattle.std.specs.Prelude.{◌≡◌, ◌↔◌, ◌+◌, ◌<◌, ◌≤◌, ◌++◌, [], ◌∷◌, ℕ, length, slice_set, slice_index_or, take, replicate, IfOk, IsTrue};
ghost use Rattle.sc_clauses.specs.Clauses.{negation};
ghost use Rattle.sc_propagation.specs.Readings.{HasTruth};
ghost use Rattle.sc_propagation.specs.Trails.{Agree, HoldsTrail, true_before};

use crate::cell::{Cell, Truth, is_set_before, truth_of};
use sc_clauses::Lit;
use sc_decisions::Order;
use sc_refutations::Arena;
use std::alloc::{AllocError, Global};

/// The assignment, in the order in which it was made.
#[derive(Drop)]
pub struct Trail {
    /// What is known of each atom, by its number; cell 0 is of no atom.
    pub cells: Vec<Cell>,
    /// The true literals, in the order in which they became true.
    pub lits: Vec<Lit>,
    /// The place at which each level begins, with its decision.
    pub levels: Vec<usize>,
}

/// Whether two literals are equal.
pub fn is_same(a: Lit, b: Lit) -> bool
    ensures { IsTrue result ↔ a ≡ b }
{
    a == b
}

impl Trail {
    /// The empty trail over this many cells.
    pub fn new(alloc: Global, cells: usize) -> Result<Trail, AllocError>
        ensures cells { IfOk result (λ t. t.cells.items ≡ replicate cells Cell.Free) }
        ensures lits { IfOk result (λ t. t.lits.items ≡ []) }
        ensures levels { IfOk result (λ t. t.levels.items ≡ []) }
    {
        Ok(Trail {
            cells: Vec::from_elem(alloc, Cell::Free, cells)?,
            lits: Vec::new(alloc),
            levels: Vec::new(alloc),
        })
    }

    /// What is known of a literal.
    pub fn truth(&self, lit: Lit) -> Truth
        requires in_cells { lit.atom < length self.now.cells.items }
        ensures { Agree self.now.cells.items self.now.lits.items
            → HasTruth self.now.cells.items (length self.now.lits.items) lit result }
    {
        truth_of(self.cells[lit.atom as usize], lit.negated)
    }

    /// Whether a literal became true before the place `end`.
    pub fn is_true_before(&self, lit: Lit, end: usize) -> bool
        requires in_cells { lit.atom < length self.now.cells.items }
        ensures { result ≡ true_before self.now.cells.items end lit }
    {
        is_set_before(self.cells[lit.atom as usize], end, lit.negated)
    }

    /// Makes a literal true that the clause at `reason` implies.
    pub fn imply(&mut self, lit: Lit, reason: usize) -> Result<(), AllocError>
        requires { lit.atom < length self.old.cells.items }
        ensures cells { self.new.cells.items ≡ slice_set self.old.cells.items lit.atom (Cell.Implied lit.negated
            (length self.old.lits.items) reason) }
        ensures lits { IfOk result (λ _. self.new.lits.items ≡ self.old.lits.items ++ lit ∷ []) }
        ensures levels { self.new.levels ≡ self.old.levels }
    {
        self.cells[lit.atom as usize] = Cell::Implied {
            negated: lit.negated,
            place: self.lits.len(),
            reason,
        };
        self.lits.push(lit)?;
        Ok(())
    }

    /// Decides on a literal, which begins a level.
    pub fn decide(&mut self, lit: Lit) -> Result<(), AllocError>
        requires { lit.atom < length self.old.cells.items }
        ensures cells { self.new.cells.items ≡ slice_set self.old.cells.items lit.atom (Cell.Decided lit.negated
            (length self.old.lits.items)) }
        ensures lits { IfOk result (λ _. self.new.lits.items ≡ self.old.lits.items ++ lit ∷ []) }
        ensures levels { IfOk result (λ _. self.new.levels.items ≡ self.old.levels.items
            ++ length self.old.lits.items ∷ []) }
    {
        self.cells[lit.atom as usize] = Cell::Decided {
            negated: lit.negated,
            place: self.lits.len(),
        };
        self.levels.push(self.lits.len())?;
        self.lits.push(lit)?;
        Ok(())
    }

    /// Takes the last literal back.
    fn pop(&mut self) -> Lit
        requires some { 0 < length self.old.lits.items }
        requires agree { Agree self.old.cells.items self.old.lits.items }
        ensures lits { self.old.lits.items ≡ self.new.lits.items ++ result ∷ [] }
        ensures cells { self.new.cells.items ≡ slice_set self.old.cells.items result.atom Cell.Free }
        ensures levels { self.new.levels ≡ self.old.levels }
    {
        let Some(lit) = self.lits.pop() else {
            unreachable!();
        };
        self.cells[lit.atom as usize] = Cell::Free;
        lit
    }

    /// Takes back the levels from one on, and gives their atoms back to the order.
    pub fn backtrack(&mut self, clauses: &Arena, order: &mut Order, level: usize)
        requires within { level < length self.old.levels.items }
        requires trail { HoldsTrail (length self.old.cells.items) clauses.now self.old }
        ensures trail { HoldsTrail (length self.old.cells.items) clauses.now self.new }
        ensures levels { self.new.levels.items ≡ take level self.old.levels.items }
        ensures place { length self.new.lits.items ≡ slice_index_or self.old.levels.items level 0 }
        ensures kept { (q : ℕ) → q ≤ slice_index_or self.old.levels.items level 0 → true_before self.new.cells.items q
            ≡ true_before self.old.cells.items q }
    {
        let place = self.levels[level];
        self.levels.truncate(level);
        order.come_back(place);
        'back: while self.lits.len() > place {
            let taken = self.pop();
            order.put_back(taken.atom as usize, taken.negated);
        }
    }
}
