//! The level to jump back to for a new clause.
ghost use Rattle.std.specs.Prelude.{◌≡◌, ◌-◌, ◌<◌, ◌≤◌, ℕ, length, map, slice_index_or, take, IfSome};
ghost use Rattle.std.specs.List.{All};
ghost use Rattle.sc_refutations.specs.Arenas.{lit_of};
ghost use Rattle.sc_propagation.specs.Analyses.{IsHighest};
ghost use Rattle.sc_propagation.specs.Trails.{AreLevels, HoldsTrail, true_before};
ghost use Rattle.sc_propagation.specs.Rooms.{IsOpenPair, IsRoom};

use crate::trail::{Trail, is_same};
use crate::watches::Watch;
use sc_clauses::{Lit, negation};
use sc_decisions::Order;
use sc_refutations::{Arena, lit_of};

/// How many levels a new clause leaves, and the two literals that it may watch there.
#[derive(Clone, Copy)]
pub struct Room {
    pub level: usize,
    /// Two literals of the clause that aren't false where any of these levels begins; none where no level is left.
    pub watch: Option<Watch>,
}

impl Trail {
    /// The place of the trail at which the highest level begins.
    pub fn level_start(&self) -> usize
        requires some { 0 < length self.now.levels.items }
        requires levels { AreLevels self.now.cells.items self.now.levels.items (length self.now.lits.items) }
        ensures highest { IsHighest self.now.levels.items result }
        ensures value { result ≡ slice_index_or self.now.levels.items (length self.now.levels.items - 1) 0 }
    {
        self.levels[self.levels.len() - 1]
    }

    /// Two literals of a clause that aren't false before a place of the trail.
    #[tactic(auto, using(crate::proofs::NumberLaws::has_lit))]
    fn open_pair(&self, clause: &[u32], place: usize) -> Option<Watch>
        requires in_cells { All (λ m. m.atom < length self.now.cells.items) (map lit_of clause.now) }
        ensures { IfSome result (IsOpenPair self.now.cells.items place (map lit_of clause.now)) }
    {
        let mut open: Option<Lit> = None;
        for code in clause {
            let lit = lit_of(*code);
            if !self.is_true_before(negation(lit), place) {
                match open {
                    None => open = Some(lit),
                    Some(other) => {
                        if !is_same(other, lit) {
                            return Some(Watch {
                                first: other,
                                second: lit,
                            });
                        }
                    }
                }
            }
        }
        None
    }

    /// As many levels as can be left, at most `most`: each of them begins with two literals of the clause that aren't
    /// false.
    pub fn room(&self, clause: &[u32], most: usize) -> Room
        requires in_cells { All (λ m. m.atom < length self.now.cells.items) (map lit_of clause.now) }
        requires levels { AreLevels self.now.cells.items self.now.levels.items (length self.now.lits.items) }
        requires most { most ≤ length self.now.levels.items }
        ensures { IsRoom self.now.cells.items self.now.levels.items (map lit_of clause.now) most result }
    {
        let mut level = most;
        'down: while level > 0 {
            let place = self.levels[level - 1];
            if let Some(watch) = self.open_pair(clause, place) {
                return Room {
                    level,
                    watch: Some(watch),
                };
            }
            level -= 1;
        }
        Room { level, watch: None }
    }

    /// Jumps back so that this many levels are left; nothing is done where there are no more.
    pub fn go_back(&mut self, clauses: &Arena, order: &mut Order, level: usize)
        requires trail { HoldsTrail (length self.old.cells.items) clauses.now self.old }
        requires within { level ≤ length self.old.levels.items }
        ensures trail { HoldsTrail (length self.old.cells.items) clauses.now self.new }
        ensures levels { self.new.levels.items ≡ take level self.old.levels.items }
        ensures start { level < length self.old.levels.items → length self.new.lits.items
            ≡ slice_index_or self.old.levels.items level 0 }
        ensures end { level ≡ length self.old.levels.items → length self.new.lits.items ≡ length self.old.lits.items }
        ensures kept { (q : ℕ) → q ≤ length self.new.lits.items → true_before self.new.cells.items q
            ≡ true_before self.old.cells.items q }
    {
        if level >= self.levels.len() {
            return;
        }
        self.backtrack(clauses, order, level);
    }
}
