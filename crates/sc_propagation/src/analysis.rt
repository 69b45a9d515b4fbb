//! Conflict analysis: the clause to learn from a conflict, by resolution back along the trail until one literal of
//! the conflict's level is left, the first unique implication point.
ghost use Rattle.std.specs.Prelude.{false, replicate, ◌≡◌, ◌⊎◌, ◌+◌, ◌-◌, ◌<◌, ◌≤◌, ◌++◌, [], ◌∷◌, length, map, slice_set, slice_index_or, IfOk, IsTrue, List, ℕ, true};
ghost use Rattle.std.specs.List.{Contains};
ghost use Rattle.sc_clauses.specs.Clauses.{negation};
ghost use Rattle.sc_clauses.specs.declared.lit.Lit.{Lit};
ghost use Rattle.sc_refutations.specs.Arenas.{lit_of};
ghost use Rattle.sc_propagation.specs.Analyses.{HaveSame, IsMet, RefutesMet, IsCollected, MeetsMore, MayBeMet, AreMet, NoneMet, IsHighest, IsResolvent};
ghost use Rattle.sc_propagation.specs.Readings.{IsFalsified};
ghost use Rattle.sc_propagation.specs.Steps.{Shows};
ghost use Rattle.sc_propagation.specs.Trails.{Agree, HoldsTrail, AllInCells, AreInCells, IsReason, true_before};

use crate::cell::Cell;
use crate::clause::clause_at;
use crate::marks::Marks;
use crate::trail::Trail;
use sc_clauses::{Lit, negation};
use sc_refutations::{Arena, lit_of};
use std::alloc::{AllocError, Global};
use std::mem;

/// What an analysis has met. It is kept from conflict to conflict, since it has a mark for each cell.
#[derive(Drop)]
pub struct Analysis {
    /// Which atoms were met, by their numbers.
    pub met: Marks,
    /// The same atoms as a list. Nothing is promised of it.
    pub atoms: Vec<usize>,
    /// The literals of the learned clause that were false before the conflict's level. Those that were false before
    /// any decision come last, since a look at the clause begins with its first literal.
    pub lower: Vec<Lit>,
    /// The number of the others, which come first.
    pub open: usize,
    /// About how many met literals of the conflict's level are still to be resolved: it only says when it is worth to
    /// look whether one is left.
    pub left: usize,
    /// The hints, in reverse order: the numbers of the clauses that were resolved with.
    pub hints: Vec<u64>,
}

impl Analysis {
    /// An analysis over this many cells that has met nothing.
    pub fn new(alloc: Global, cells: usize) -> Result<Analysis, AllocError>
        ensures met { IfOk result (λ w. w.met ≡ replicate cells false) }
        ensures lower { IfOk result (λ w. w.lower.items ≡ []) }
        ensures hints { IfOk result (λ w. w.hints.items ≡ []) }
    {
        Ok(Analysis {
            met: Marks::new(alloc, cells)?,
            atoms: Vec::new(alloc),
            lower: Vec::new(alloc),
            open: 0,
            left: 0,
            hints: Vec::new(alloc),
        })
    }

    /// Forgets what was met.
    fn clear(&mut self)
        ensures met { self.new.met ≡ replicate (length self.old.met) false }
        ensures lower { self.new.lower.items ≡ [] }
        ensures hints { self.new.hints.items ≡ [] }
    {
        self.met.clear();
        self.atoms.clear();
        self.lower.clear();
        self.open = 0;
        self.left = 0;
        self.hints.clear();
    }
}

/// What a conflict shows: the clause of `lower` and the negation of `uip`.
#[derive(Drop)]
pub struct Resolvent {
    /// Literals that were false before the conflict's level.
    pub lower: Vec<Lit>,
    /// The first unique implication point: a true literal of the conflict's level.
    pub uip: Lit,
    /// The numbers of the clauses along which unit propagation shows it, in their order.
    pub hints: Vec<u64>,
}

/// The number of the clause at a place, counted from 1.
fn number_of(clauses: &Arena, place: usize) -> u64
    requires { place < length clauses.now }
    ensures { result ≡ place + 1 }
{
    // There are fewer than 2^64 clauses, as `len` promises.
    let _count = clauses.len();
    place as u64 + 1
}

/// Inserts a literal at a place; what stood there goes to the end.
fn put_at(lits: &mut Vec<Lit>, place: usize, lit: Lit) -> Result<(), AllocError>
    ensures { IfOk result (λ _. HaveSame lits.new.items (lits.old.items ++ lit ∷ [])) }
{
    if place >= lits.len() {
        lits.push(lit)?;
        return Ok(());
    }
    let other = lits[place];
    lits.push(other)?;
    lits[place] = lit;
    Ok(())
}

impl Trail {
    /// Whether a false literal was false before any decision.
    fn is_ground(&self, lit: Lit) -> bool
        requires { lit.atom < length self.now.cells.items }
    {
        match self.levels.first() {
            Some(place) => self.is_true_before(negation(lit), *place),
            None => true,
        }
    }

    /// Meets a false literal: it goes into the learned clause, or is to be resolved, by the level in which it became
    /// false.
    fn meet(&self, analysis: &mut Analysis, first: usize, lit: Lit) -> Result<(), AllocError>
        requires in_cells { lit.atom < length self.now.cells.items }
        requires may_be_met { IsMet analysis.old.met lit
            ⊎ (true_before self.now.cells.items (length self.now.lits.items) (negation lit) ≡ true) }
        requires collected { IsCollected (length self.now.cells.items)
            self.now.cells.items first analysis.old.met analysis.old.lower.items }
        ensures collected { IfOk result (λ _. IsCollected (length self.now.cells.items)
            self.now.cells.items first analysis.new.met analysis.new.lower.items) }
        ensures more { IfOk result (λ _. MeetsMore analysis.old.met analysis.new.met) }
        ensures met { IfOk result (λ _. IsMet analysis.new.met lit) }
        ensures hints { analysis.new.hints ≡ analysis.old.hints }
    {
        if analysis.met.is_set(lit.atom as usize) {
            return Ok(());
        }
        analysis.met.set(lit.atom as usize);
        analysis.atoms.push(lit.atom as usize)?;
        if !self.is_true_before(negation(lit), first) {
            analysis.left = analysis.left.saturating_add(1);
            return Ok(());
        }
        if self.is_ground(lit) {
            analysis.lower.push(lit)?;
            return Ok(());
        }
        put_at(&mut analysis.lower, analysis.open, lit)?;
        analysis.open = analysis.open.saturating_add(1);
        Ok(())
    }

    /// Meets the literals of a clause, by their numbers; they are false.
    fn meet_all(
        &self,
        analysis: &mut Analysis,
        first: usize,
        clause: &[u32],
    ) -> Result<(), AllocError>
        requires in_cells { AllInCells (length self.now.cells.items) (map lit_of clause.now) }
        requires may_be_met { MayBeMet self.now.cells.items (length self.now.lits.items)
            analysis.old.met (map lit_of clause.now) }
        requires collected { IsCollected (length self.now.cells.items)
            self.now.cells.items first analysis.old.met analysis.old.lower.items }
        ensures collected { IfOk result (λ _. IsCollected (length self.now.cells.items)
            self.now.cells.items first analysis.new.met analysis.new.lower.items) }
        ensures more { IfOk result (λ _. MeetsMore analysis.old.met analysis.new.met) }
        ensures met { IfOk result (λ _. AreMet analysis.new.met (map lit_of clause.now)) }
        ensures hints { IfOk result (λ _. analysis.new.hints ≡ analysis.old.hints) }
    {
        for code in clause {
            self.meet(analysis, first, lit_of(*code))?;
        }
        Ok(())
    }

    /// The place of the clause that implied the literal at a place of the trail.
    fn reason(&self, clauses: &Arena, i: usize) -> usize
        requires trail { HoldsTrail (length self.now.cells.items) clauses.now self.now }
        requires within { i < length self.now.lits.items }
        requires undecided { ¬ Contains self.now.levels.items i }
        ensures { (d : Lit) → IsReason clauses.now self.now.cells.items
            (slice_index_or self.now.lits.items i d) i result }
    {
        let lit = self.lits[i];
        match self.cells[lit.atom as usize] {
            Cell::Implied { reason, .. } => reason,
            Cell::Decided { .. } | Cell::Free => unreachable!(),
        }
    }

    /// Resolves with the reason of the literal at a place of the trail, if it was met.
    fn resolve(
        &self,
        clauses: &Arena,
        analysis: &mut Analysis,
        first: usize,
        i: usize,
    ) -> Result<(), AllocError>
        requires in_cells { AreInCells (length self.now.cells.items) clauses.now }
        requires trail { HoldsTrail (length self.now.cells.items) clauses.now self.now }
        requires within { i < length self.now.lits.items }
        requires undecided { ¬ Contains self.now.levels.items i }
        requires collected { IsCollected (length self.now.cells.items)
            self.now.cells.items first analysis.old.met analysis.old.lower.items }
        requires refutes { RefutesMet clauses.now self.now.cells.items (length self.now.lits.items)
            (i + 1) analysis.old.met analysis.old.hints.items }
        ensures collected { IfOk result (λ _. IsCollected (length self.now.cells.items)
            self.now.cells.items first analysis.new.met analysis.new.lower.items) }
        ensures refutes { IfOk result (λ _. RefutesMet clauses.now self.now.cells.items
            (length self.now.lits.items) i analysis.new.met analysis.new.hints.items) }
    {
        let lit = self.lits[i];
        if !analysis.met.is_set(lit.atom as usize) {
            return Ok(());
        }
        let reason = self.reason(clauses, i);
        self.meet_all(analysis, first, clause_at(clauses, reason))?;
        analysis.hints.push(number_of(clauses, reason))?;
        analysis.left = analysis.left.saturating_sub(1);
        Ok(())
    }

    fn none_met(&self, met: &Marks, first: usize, end: usize) -> bool
        requires sized { length met.now ≡ length self.now.cells.items }
        requires agree { Agree self.now.cells.items self.now.lits.items }
        requires end { end ≤ length self.now.lits.items }
        ensures { IsTrue result → NoneMet self.now.lits.items met.now first end }
    {
        for k in first..end {
            if met.is_set(self.lits[k].atom as usize) {
                return false;
            }
        }
        true
    }

    /// Whether no literal of the level before a place was met, so that the one at the place is left alone. It is
    /// looked for only where about one is left.
    fn is_alone(&self, analysis: &Analysis, first: usize, i: usize) -> bool
        requires sized { length analysis.now.met ≡ length self.now.cells.items }
        requires agree { Agree self.now.cells.items self.now.lits.items }
        requires within { i < length self.now.lits.items }
        ensures { IsTrue result → NoneMet self.now.lits.items analysis.now.met first i }
    {
        if analysis.left > 1 {
            return false;
        }
        if !analysis.met.is_set(self.lits[i].atom as usize) {
            return false;
        }
        self.none_met(&analysis.met, first, i)
    }

    /// Resolves back along the trail until one met literal of the level is left: its place.
    fn walk(
        &self,
        clauses: &Arena,
        analysis: &mut Analysis,
        first: usize,
    ) -> Result<usize, AllocError>
        requires in_cells { AreInCells (length self.now.cells.items) clauses.now }
        requires trail { HoldsTrail (length self.now.cells.items) clauses.now self.now }
        requires highest { IsHighest self.now.levels.items first }
        requires collected { IsCollected (length self.now.cells.items)
            self.now.cells.items first analysis.old.met analysis.old.lower.items }
        requires refutes { RefutesMet clauses.now self.now.cells.items (length self.now.lits.items)
            (length self.now.lits.items) analysis.old.met analysis.old.hints.items }
        ensures from { IfOk result (λ i. first ≤ i) }
        ensures within { IfOk result (λ i. i < length self.now.lits.items) }
        ensures collected { IfOk result (λ _. IsCollected (length self.now.cells.items)
            self.now.cells.items first analysis.new.met analysis.new.lower.items) }
        ensures refutes { IfOk result (λ i. RefutesMet clauses.now self.now.cells.items (length self.now.lits.items)
            (i + 1) analysis.new.met analysis.new.hints.items) }
        ensures none { IfOk result (λ i. NoneMet self.now.lits.items analysis.new.met first i) }
    {
        let mut i = self.lits.len() - 1;
        'back: while i > first {
            if self.is_alone(analysis, first, i) {
                return Ok(i);
            }
            self.resolve(clauses, analysis, first, i)?;
            i -= 1;
        }
        Ok(i)
    }

    /// Meets the literals of the falsified clause at a place.
    fn begin(
        &self,
        clauses: &Arena,
        analysis: &mut Analysis,
        conflict: usize,
        first: usize,
    ) -> Result<(), AllocError>
        requires sized { length analysis.old.met ≡ length self.now.cells.items }
        requires in_cells { AreInCells (length self.now.cells.items) clauses.now }
        requires falsified { IsFalsified clauses.now self.now.cells.items (length self.now.lits.items) conflict }
        ensures collected { IfOk result (λ _. IsCollected (length self.now.cells.items)
            self.now.cells.items first analysis.new.met analysis.new.lower.items) }
        ensures refutes { IfOk result (λ _. RefutesMet clauses.now self.now.cells.items (length self.now.lits.items)
            (length self.now.lits.items) analysis.new.met analysis.new.hints.items) }
    {
        analysis.clear();
        self.meet_all(analysis, first, clause_at(clauses, conflict))?;
        analysis.hints.push(number_of(clauses, conflict))?;
        Ok(())
    }

    /// What the falsified clause at a place shows, where there is a decision; `first` is where the conflict's level
    /// begins.
    pub fn analyse(
        &self,
        alloc: Global,
        clauses: &Arena,
        analysis: &mut Analysis,
        conflict: usize,
        first: usize,
    ) -> Result<Resolvent, AllocError>
        requires sized { length analysis.old.met ≡ length self.now.cells.items }
        requires in_cells { AreInCells (length self.now.cells.items) clauses.now }
        requires trail { HoldsTrail (length self.now.cells.items) clauses.now self.now }
        requires falsified { IsFalsified clauses.now self.now.cells.items (length self.now.lits.items) conflict }
        requires highest { IsHighest self.now.levels.items first }
        ensures resolvent { IfOk result (λ r. IsResolvent clauses.now self.now.cells.items
            (length self.now.lits.items) first r.lower.items r.uip r.hints.items) }
        ensures sized { IfOk result (λ _. length analysis.new.met ≡ length self.now.cells.items) }
    {
        self.begin(clauses, analysis, conflict, first)?;
        let place = self.walk(clauses, analysis, first)?;
        analysis.hints.reverse();
        Ok(Resolvent {
            lower: mem::replace(&mut analysis.lower, Vec::new(alloc)),
            uip: self.lits[place],
            hints: mem::replace(&mut analysis.hints, Vec::new(alloc)),
        })
    }

    /// The hints that refute all clauses, where one is falsified and there is no decision.
    pub fn refute(
        &self,
        alloc: Global,
        clauses: &Arena,
        analysis: &mut Analysis,
        conflict: usize,
    ) -> Result<Vec<u64>, AllocError>
        requires sized { length analysis.old.met ≡ length self.now.cells.items }
        requires in_cells { AreInCells (length self.now.cells.items) clauses.now }
        requires trail { HoldsTrail (length self.now.cells.items) clauses.now self.now }
        requires falsified { IsFalsified clauses.now self.now.cells.items (length self.now.lits.items) conflict }
        requires undecided { self.now.levels.items ≡ [] }
        ensures { IfOk result (λ hints. Shows clauses.now [] hints.items) }
    {
        self.begin(clauses, analysis, conflict, 0)?;
        let mut i = self.lits.len();
        'back: while i > 0 {
            i -= 1;
            self.resolve(clauses, analysis, 0, i)?;
        }
        analysis.hints.reverse();
        Ok(mem::replace(&mut analysis.hints, Vec::new(alloc)))
    }
}
