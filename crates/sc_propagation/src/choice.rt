//! The atom to decide on.
ghost use Rattle.std.specs.Prelude.{◌≡◌, ◌↔◌, ℕ, MatchOption, IfSome, IsTrue};
ghost use Rattle.sc_propagation.specs.Trails.{IsChoice, AreAllSet};

use crate::cell::is_free;
use crate::trail::Trail;
use sc_decisions::Order;

impl Trail {
    fn is_choice(&self, atom: usize) -> bool
        ensures { IsTrue result ↔ IsChoice self.now.cells.items atom }
    {
        if atom == 0 {
            return false;
        }
        if atom >= self.cells.len() {
            return false;
        }
        is_free(self.cells[atom])
    }

    /// The first free atom that the order gives. For each true literal it gives at most two parts of its definition,
    /// and each atom once more: so it is asked at most three times for each cell.
    fn first_of_order(&self, order: &mut Order) -> Option<usize>
        ensures { IfSome result (IsChoice self.now.cells.items) }
    {
        for _taken in 0..self.cells.len().saturating_mul(3) {
            match order.take(&self.lits) {
                None => return None,
                Some(atom) => {
                    if self.is_choice(atom) {
                        return Some(atom);
                    }
                }
            }
        }
        None
    }

    /// The free atom with the least number.
    fn first_choice(&self) -> Option<usize>
        ensures { MatchOption result ((a : ℕ) → ¬ IsChoice self.now.cells.items a) (IsChoice self.now.cells.items) }
    {
        for atom in 0..self.cells.len() {
            if self.is_choice(atom) {
                return Some(atom);
            }
        }
        None
    }

    /// A free atom, the first one by the order if that gives one; none exactly where no atom is free.
    pub fn choose(&self, order: &mut Order) -> Option<usize>
        ensures { MatchOption result (AreAllSet self.now.cells.items) (IsChoice self.now.cells.items) }
    {
        if let Some(atom) = self.first_of_order(order) {
            return Some(atom);
        }
        self.first_choice()
    }
}
