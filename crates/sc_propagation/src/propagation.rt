//! Unit propagation with two watched literals.
ghost use Rattle.std.specs.Prelude.{◌≡◌, ◌+◌, ◌<◌, length, map, Some, IfOk, IfSome, IsTrue, true};
ghost use Rattle.std.specs.List.{Contains};
ghost use Rattle.sc_clauses.specs.Clauses.{Clause};
ghost use Rattle.sc_clauses.specs.declared.lit.Lit.{Lit};
ghost use Rattle.sc_refutations.specs.Arenas.{lit_of};
ghost use Rattle.sc_propagation.specs.Readings.{HasStatus, IsOpen};
ghost use Rattle.sc_propagation.specs.Steps.{At};
ghost use Rattle.sc_propagation.specs.Trails.{Agree, AreLevels, HoldsTrail, AllInCells, AreInCells, true_before};
ghost use Rattle.sc_propagation.specs.Visits.{AreAliveBut, AreSeen, AreSeenBut, HasFollowed, HasPropagated, HasVisited, HasVisitedEach, IsLate, IsWellWatched, KeepsOthers, MovesOn};
ghost use Rattle.sc_propagation.specs.Watches.{IsWatched, watch_of};

use crate::cell::Truth;
use crate::clause::clause_at;
use crate::trail::{Trail, is_same};
use crate::watches::{Watch, Watches};
use sc_clauses::{Lit, negation};
use sc_refutations::{Arena, lit_of};
use std::alloc::AllocError;

/// The status of a clause under the assignment.
#[derive(Clone, Copy)]
pub enum Status {
    /// This literal of it is true.
    Satisfied(Lit),
    /// No literal is true, and these two are open.
    Open(Watch),
    /// This literal is open and the others are false, so it is implied.
    Unit(Lit),
    /// All its literals are false: a conflict.
    Falsified,
}

/// Which clauses are still to be visited; the others imply nothing.
#[derive(Clone, Copy)]
pub enum Pending {
    /// All of them.
    Each,
    /// The one at this place.
    One(usize),
    /// Those that watch a literal which became false at this place of the trail or later.
    From(usize),
}

impl Trail {
    /// The status of a clause, by the numbers of its literals.
    pub fn status(&self, clause: &[u32]) -> Status
        requires agree { Agree self.now.cells.items self.now.lits.items }
        requires in_cells { AllInCells (length self.now.cells.items) (map lit_of clause.now) }
        ensures { HasStatus self.now.cells.items (length self.now.lits.items) (map lit_of clause.now) result }
    {
        let mut open: Option<Lit> = None;
        for code in clause {
            let lit = lit_of(*code);
            match self.truth(lit) {
                Truth::True => return Status::Satisfied(lit),
                Truth::False => {}
                Truth::Open => match open {
                    None => open = Some(lit),
                    Some(other) => {
                        if !is_same(other, lit) {
                            return Status::Open(Watch {
                                first: other,
                                second: lit,
                            });
                        }
                    }
                },
            }
        }
        match open {
            None => Status::Falsified,
            Some(lit) => Status::Unit(lit),
        }
    }

    fn is_true(&self, lit: Lit) -> bool
        requires agree { Agree self.now.cells.items self.now.lits.items }
        requires in_cells { lit.atom < length self.now.cells.items }
        ensures { IsTrue result → true_before self.now.cells.items (length self.now.lits.items) lit ≡ true }
    {
        match self.truth(lit) {
            Truth::True => true,
            Truth::False => false,
            Truth::Open => false,
        }
    }

    /// Whether one of two literals is true.
    fn is_one_true(&self, watch: Watch) -> bool
        requires agree { Agree self.now.cells.items self.now.lits.items }
        requires first { watch.first.atom < length self.now.cells.items }
        requires second { watch.second.atom < length self.now.cells.items }
        ensures { IsTrue result → (l : Lit) × IsWatched (Some watch) l
            × (true_before self.now.cells.items (length self.now.lits.items) l ≡ true) }
    {
        if self.is_true(watch.first) {
            return true;
        }
        self.is_true(watch.second)
    }

    /// Whether a watched literal of the clause at a place is true.
    fn is_satisfied(&self, watches: &Watches, place: usize) -> bool
        requires agree { Agree self.now.cells.items self.now.lits.items }
        requires in_cells { (l : Lit) → IsWatched (watch_of watches.now place) l
            → l.atom < length self.now.cells.items }
        ensures { IsTrue result → (l : Lit) × IsWatched (watch_of watches.now place) l
            × (true_before self.now.cells.items (length self.now.lits.items) l ≡ true) }
    {
        match watches.pair(place) {
            None => false,
            Some(watch) => self.is_one_true(watch),
        }
    }

    fn is_open(&self, lit: Lit) -> bool
        requires agree { Agree self.now.cells.items self.now.lits.items }
        requires in_cells { lit.atom < length self.now.cells.items }
        ensures { IsTrue result → IsOpen self.now.cells.items lit }
    {
        match self.truth(lit) {
            Truth::Open => true,
            Truth::True | Truth::False => false,
        }
    }

    /// Whether a literal wasn't false before the last level.
    fn is_late(&self, lit: Lit) -> bool
        requires in_cells { lit.atom < length self.now.cells.items }
        requires levels { AreLevels self.now.cells.items self.now.levels.items (length self.now.lits.items) }
        ensures { IsTrue result → IsLate self.now lit }
    {
        if self.levels.is_empty() {
            return true;
        }
        let first = self.level_start();
        if self.is_true_before(negation(lit), first) {
            return false;
        }
        true
    }

    /// The watched literal of the clause at a place that stays watched beside a true one: an open one, if it is the
    /// first, or else one that wasn't false before the last level. So jumping back never leaves the clause with two
    /// false watched literals.
    fn kept_watched(&self, watches: &Watches, place: usize) -> Option<Lit>
        requires agree { Agree self.now.cells.items self.now.lits.items }
        requires levels { AreLevels self.now.cells.items self.now.levels.items (length self.now.lits.items) }
        requires in_cells { (l : Lit) → IsWatched (watch_of watches.now place) l
            → l.atom < length self.now.cells.items }
        ensures { IfSome result (λ l. IsWatched (watch_of watches.now place) l × IsLate self.now l) }
    {
        let Some(watch) = watches.pair(place) else {
            return None;
        };
        if self.is_open(watch.first) {
            return Some(watch.first);
        }
        if self.is_late(watch.second) {
            return Some(watch.second);
        }
        if self.is_late(watch.first) {
            return Some(watch.first);
        }
        None
    }

    /// Lets the clause at a place watch its true literal, beside a watched one that is open or became false in the
    /// last level: as long as that literal is true, the clause isn't read again.
    fn watch_true(
        &self,
        clauses: &Arena,
        watches: &mut Watches,
        place: usize,
        lit: Lit,
    ) -> Result<(), AllocError>
        requires in_cells { AreInCells (length self.now.cells.items) clauses.now }
        requires trail { HoldsTrail (length self.now.cells.items) clauses.now self.now }
        requires watched { IsWellWatched (length self.now.cells.items) clauses.now self.now watches.old }
        requires satisfied { (c : Clause) × At clauses.now place c × Contains c lit
            × (true_before self.now.cells.items (length self.now.lits.items) lit ≡ true) }
        ensures moves { IfOk result (λ _. MovesOn (length self.now.cells.items) clauses.now self.now watches.old
            self.now watches.new) }
        ensures others { IfOk result (λ _. KeepsOthers self.now place watches.old watches.new) }
    {
        let Some(kept) = self.kept_watched(watches, place) else {
            return Ok(());
        };
        if is_same(lit, kept) {
            return Ok(());
        }
        let watch = Watch {
            first: lit,
            second: kept,
        };
        watches.watch(place, watch)?;
        Ok(())
    }

    /// Reads the clause at a place: it then watches two open literals, or the literal that it implies is made true.
    /// The answer is whether it is falsified.
    #[inline(never)]
    fn read(
        &mut self,
        clauses: &Arena,
        watches: &mut Watches,
        place: usize,
    ) -> Result<bool, AllocError>
        requires in_cells { AreInCells (length self.old.cells.items) clauses.now }
        requires trail { HoldsTrail (length self.old.cells.items) clauses.now self.old }
        requires watched { IsWellWatched (length self.old.cells.items) clauses.now self.old watches.old }
        requires within { place < length clauses.now }
        ensures moves { IfOk result (λ _. MovesOn (length self.old.cells.items) clauses.now self.old watches.old
            self.new watches.new) }
        ensures visited { IfOk result (λ f. HasVisited clauses.now self.new watches.new place f) }
        ensures others { IfOk result (λ _. KeepsOthers self.old place watches.old watches.new) }
    {
        match self.status(clause_at(clauses, place)) {
            Status::Satisfied(lit) => {
                self.watch_true(clauses, watches, place, lit)?;
                Ok(false)
            }
            Status::Open(watch) => {
                watches.watch(place, watch)?;
                Ok(false)
            }
            Status::Unit(lit) => {
                self.imply(lit, place)?;
                Ok(false)
            }
            Status::Falsified => Ok(true),
        }
    }

    /// Reads the clause at a place, unless a literal that it watches is true. The answer is whether it is falsified.
    fn visit(
        &mut self,
        clauses: &Arena,
        watches: &mut Watches,
        place: usize,
    ) -> Result<bool, AllocError>
        requires in_cells { AreInCells (length self.old.cells.items) clauses.now }
        requires trail { HoldsTrail (length self.old.cells.items) clauses.now self.old }
        requires watched { IsWellWatched (length self.old.cells.items) clauses.now self.old watches.old }
        requires within { place < length clauses.now }
        ensures moves { IfOk result (λ _. MovesOn (length self.old.cells.items) clauses.now self.old watches.old
            self.new watches.new) }
        ensures visited { IfOk result (λ f. HasVisited clauses.now self.new watches.new place f) }
        ensures others { IfOk result (λ _. KeepsOthers self.old place watches.old watches.new) }
    {
        if self.is_satisfied(watches, place) {
            return Ok(false);
        }
        self.read(clauses, watches, place)
    }

    /// Visits every clause, until one is falsified: its place.
    fn visit_each(
        &mut self,
        clauses: &Arena,
        watches: &mut Watches,
    ) -> Result<Option<usize>, AllocError>
        requires in_cells { AreInCells (length self.old.cells.items) clauses.now }
        requires trail { HoldsTrail (length self.old.cells.items) clauses.now self.old }
        requires watched { IsWellWatched (length self.old.cells.items) clauses.now self.old watches.old }
        ensures moves { IfOk result (λ _. MovesOn (length self.old.cells.items) clauses.now self.old watches.old
            self.new watches.new) }
        ensures visited { IfOk result
            (λ r. HasVisitedEach clauses.now self.new watches.new (length self.old.lits.items) r) }
    {
        for place in 0..clauses.len() {
            if self.visit(clauses, watches, place)? {
                return Ok(Some(place));
            }
        }
        Ok(None)
    }

    /// Visits the clauses that watch the negation of the literal at a place of the trail, until one is falsified: its
    /// place. A clause that no longer watches it leaves the literal's list.
    fn visit_watching(
        &mut self,
        clauses: &Arena,
        watches: &mut Watches,
        first: usize,
    ) -> Result<Option<usize>, AllocError>
        requires in_cells { AreInCells (length self.old.cells.items) clauses.now }
        requires trail { HoldsTrail (length self.old.cells.items) clauses.now self.old }
        requires watched { IsWellWatched (length self.old.cells.items) clauses.now self.old watches.old }
        requires within { first < length self.old.lits.items }
        requires seen { AreSeen clauses.now self.old watches.old first }
        ensures moves { IfOk result (λ _. MovesOn (length self.old.cells.items) clauses.now self.old watches.old
            self.new watches.new) }
        ensures done { IfOk result (λ r. HasFollowed clauses.now self.new watches.new (first + 1) r) }
    {
        let lit = negation(self.lits[first]);
        let mut at = 0;
        while let Some(place) = watches.place_at(lit, at) {
            if self.visit(clauses, watches, place)? {
                return Ok(Some(place));
            }
            at = watches.sift(lit, at, place);
        }
        Ok(None)
    }

    /// Visits the clauses of which a watched literal became false at a place of the trail or later, those that became
    /// so meanwhile included.
    fn follow(
        &mut self,
        clauses: &Arena,
        watches: &mut Watches,
        first: usize,
    ) -> Result<Option<usize>, AllocError>
        requires in_cells { AreInCells (length self.old.cells.items) clauses.now }
        requires trail { HoldsTrail (length self.old.cells.items) clauses.now self.old }
        requires watched { IsWellWatched (length self.old.cells.items) clauses.now self.old watches.old }
        requires seen { AreSeen clauses.now self.old watches.old first }
        ensures moves { IfOk result (λ _. MovesOn (length self.old.cells.items) clauses.now self.old watches.old
            self.new watches.new) }
        ensures done { IfOk result (λ r. HasPropagated clauses.now self.new watches.new r) }
    {
        let mut place = first;
        'literals: while place < self.lits.len() {
            if let Some(conflict) = self.visit_watching(clauses, watches, place)? {
                return Ok(Some(conflict));
            }
            place += 1;
        }
        Ok(None)
    }

    /// Visits the clause at a place, and then all that propagation leads to.
    fn visit_one(
        &mut self,
        clauses: &Arena,
        watches: &mut Watches,
        one: usize,
    ) -> Result<Option<usize>, AllocError>
        requires in_cells { AreInCells (length self.old.cells.items) clauses.now }
        requires trail { HoldsTrail (length self.old.cells.items) clauses.now self.old }
        requires watched { IsWellWatched (length self.old.cells.items) clauses.now self.old watches.old }
        requires pending { AreAliveBut clauses.now self.old watches.old one }
        ensures moves { IfOk result (λ _. MovesOn (length self.old.cells.items) clauses.now self.old watches.old
            self.new watches.new) }
        ensures done { IfOk result (λ r. HasPropagated clauses.now self.new watches.new r) }
    {
        let place = self.lits.len();
        if self.visit(clauses, watches, one)? {
            return Ok(Some(one));
        }
        self.follow(clauses, watches, place)
    }

    /// Visits all clauses, and then all that propagation leads to.
    fn visit_all(
        &mut self,
        clauses: &Arena,
        watches: &mut Watches,
    ) -> Result<Option<usize>, AllocError>
        requires in_cells { AreInCells (length self.old.cells.items) clauses.now }
        requires trail { HoldsTrail (length self.old.cells.items) clauses.now self.old }
        requires watched { IsWellWatched (length self.old.cells.items) clauses.now self.old watches.old }
        ensures moves { IfOk result (λ _. MovesOn (length self.old.cells.items) clauses.now self.old watches.old
            self.new watches.new) }
        ensures done { IfOk result (λ r. HasPropagated clauses.now self.new watches.new r) }
    {
        let place = self.lits.len();
        if let Some(conflict) = self.visit_each(clauses, watches)? {
            return Ok(Some(conflict));
        }
        self.follow(clauses, watches, place)
    }

    /// Propagates: makes true what the clauses imply, until one of them is falsified, whose place is the answer, or
    /// none implies anything.
    pub fn propagate(
        &mut self,
        clauses: &Arena,
        watches: &mut Watches,
        pending: Pending,
    ) -> Result<Option<usize>, AllocError>
        requires in_cells { AreInCells (length self.old.cells.items) clauses.now }
        requires trail { HoldsTrail (length self.old.cells.items) clauses.now self.old }
        requires watched { IsWellWatched (length self.old.cells.items) clauses.now self.old watches.old }
        requires pending { AreSeenBut clauses.now self.old watches.old pending }
        ensures moves { IfOk result (λ _. MovesOn (length self.old.cells.items) clauses.now self.old watches.old
            self.new watches.new) }
        ensures done { IfOk result (λ r. HasPropagated clauses.now self.new watches.new r) }
    {
        match pending {
            Pending::From(place) => self.follow(clauses, watches, place),
            Pending::One(place) => self.visit_one(clauses, watches, place),
            Pending::Each => self.visit_all(clauses, watches),
        }
    }
}
