//! Clauses that would imply a literal, or that are falsified.
ghost use Rattle.std.specs.Prelude.{◌≡◌, length, map, IsTrue};
ghost use Rattle.sc_refutations.specs.Arenas.{lit_of};
ghost use Rattle.sc_propagation.specs.Giving.{Gives, in_cells};
ghost use Rattle.sc_propagation.specs.Trails.{Agree, AllInCells};

use crate::propagation::Status;
use crate::trail::Trail;
use sc_clauses::Lit;
use sc_decisions::Order;
use sc_refutations::lit_of;

fn is_in_cells(count: usize, lit: Lit) -> bool
    ensures { result ≡ in_cells count lit }
{
    lit.atom > 0 && (lit.atom as usize) < count
}

impl Trail {
    fn are_in_cells(&self, clause: &[u32]) -> bool
        ensures { IsTrue result → AllInCells (length self.now.cells.items) (map lit_of clause.now) }
    {
        let count = self.cells.len();
        for code in clause {
            if !is_in_cells(count, lit_of(*code)) {
                return false;
            }
        }
        true
    }

    /// Whether a clause, by the numbers of its literals, is false but for one open literal, and that is of use.
    pub fn gives(&self, order: &Order, clause: &[u32]) -> bool
        requires { Agree self.now.cells.items self.now.lits.items }
        ensures { IsTrue result → Gives self.now (map lit_of clause.now) }
    {
        if !self.are_in_cells(clause) {
            return false;
        }
        match self.status(clause) {
            Status::Unit(lit) => order.is_of_use(lit),
            Status::Satisfied(_) | Status::Open(_) | Status::Falsified => false,
        }
    }

    /// Whether a clause, by the numbers of its literals, has some and is false but for one open literal at most.
    pub fn is_due(&self, clause: &[u32]) -> bool
        requires { Agree self.now.cells.items self.now.lits.items }
        ensures { IsTrue result → Gives self.now (map lit_of clause.now) }
    {
        if !self.are_in_cells(clause) {
            return false;
        }
        match self.status(clause) {
            Status::Unit(_) => true,
            Status::Falsified => !clause.is_empty(),
            Status::Satisfied(_) | Status::Open(_) => false,
        }
    }
}
