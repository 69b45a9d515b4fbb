//! The search.
ghost use Rattle.std.specs.Prelude.{◌≡◌, ◌≢◌, ◌+◌, ◌-◌, ◌^◌, ◌<◌, ◌≤◌, ℕ, true, drop, length, map, IfOk};
ghost use Rattle.std.specs.List.{Contains};
ghost use Rattle.sc_clauses.specs.Assignments.{falsifies};
ghost use Rattle.sc_clauses.specs.Clauses.{Clause};
ghost use Rattle.sc_search.specs.Findings.{IsRefutation, IsConsistent, IsSpent, IfRefuted, IfConsistent, IfSpent};
ghost use Rattle.sc_propagation.specs.Steps.{AreListed};
ghost use Rattle.sc_search.specs.Turns.{HasBegun, IsReady, IsSearching, IsTotal, IsTurn};
ghost use Rattle.sc_propagation.specs.Rooms.{cell_value};

use crate::giving::{Given, keep_broken, next_due, next_kept};
use crate::solver::{Solver, Turn};
use crate::source::Source;
use sc_clauses::{Assignment, Clauses, Instance, Step};
use sc_lists::Seq;
use std::alloc::{AllocError, Global};

/// The outcome of a search.
#[derive(Drop)]
pub enum Found {
    /// A refutation: the last step has the empty clause.
    Refuted(Seq<Step>),
    /// An assignment of all atoms that falsifies no clause.
    Consistent(Assignment),
    /// As many units as the budget, after which one more step is due.
    Spent(Seq<Step>),
}

/// Looks for an assignment of the atoms 1 to `atoms` that falsifies none of these clauses and none of the source's,
/// or for a refutation, which it logs, in at most `budget` steps. Want of memory is its one fault: it has no room for
/// a clause of an atom from 2^31 on, nor for clauses of 2^32 literals or more in all.
pub fn search<S: Source>(
    alloc: Global,
    source: &S,
    atoms: u64,
    clauses: &Clauses,
    budget: u64,
) -> Result<Found, AllocError>
    requires listed { (c : Clause) → Contains clauses.now c → AreListed atoms c }
    // Each number of a literal or of a clause has 18 digits at most.
    requires few_atoms { atoms < 10 ^ 18 }
    requires few_clauses { length clauses.now + budget < 10 ^ 18 }
    // The steps refute the clauses, and each but the last is a unit.
    ensures refuted { IfOk result (λ f. IfRefuted (IsRefutation atoms (S.has_instance source.now)
        (S.clause_of source.now) clauses.now budget) f) }
    // The assignment is total, and falsifies neither a clause given nor one of the source.
    ensures consistent { IfOk result (λ f. IfConsistent (IsConsistent atoms (S.has_instance source.now)
        (S.clause_of source.now) clauses.now) f) }
    // The steps are as many units as the budget, and one more is due: propagation has come to a conflict.
    ensures spent { IfOk result (λ f. IfSpent (IsSpent atoms (S.has_instance source.now)
        (S.clause_of source.now) clauses.now budget) f) }
{
    let mut solver = Solver::new(alloc, atoms, clauses)?;
    solver.find(alloc, source, budget)
}

impl Solver {
    /// Takes turns until the search is over.
    fn find<S: Source>(
        &mut self,
        alloc: Global,
        source: &S,
        budget: u64,
    ) -> Result<Found, AllocError>
        requires begun { IsSearching (length self.old.trail.cells.items - 1) (S.has_instance source.now)
            (S.clause_of source.now) self.old.clauses budget self.old }
        requires some { 0 < length self.old.trail.cells.items }
        requires few_cells { length self.old.trail.cells.items ≤ 10 ^ 18 }
        requires few_clauses { length self.old.clauses + budget < 10 ^ 18 }
        ensures refuted { IfOk result (λ f. IfRefuted (IsRefutation (length self.old.trail.cells.items - 1)
            (S.has_instance source.now) (S.clause_of source.now) self.old.clauses budget) f) }
        ensures consistent { IfOk result (λ f. IfConsistent (IsConsistent (length self.old.trail.cells.items - 1)
            (S.has_instance source.now) (S.clause_of source.now) self.old.clauses) f) }
        ensures spent { IfOk result (λ f. IfSpent (IsSpent (length self.old.trail.cells.items - 1)
            (S.has_instance source.now) (S.clause_of source.now) self.old.clauses budget) f) }
    {
        'turns: loop {
            match self.turn(alloc, source, budget)? {
                Turn::Added => {}
                Turn::Refuted => return Ok(Found::Refuted(self.take_steps(alloc))),
                Turn::Consistent(m) => return Ok(Found::Consistent(m)),
                Turn::Spent => return Ok(Found::Spent(self.take_steps(alloc))),
            }
        }
    }

    /// One turn: up to the next step, or to the end of the search.
    fn turn<S: Source>(
        &mut self,
        alloc: Global,
        source: &S,
        budget: u64,
    ) -> Result<Turn, AllocError>
        requires ready { IsReady (length self.old.trail.cells.items) self.old }
        requires some { 0 < length self.old.trail.cells.items }
        requires few_cells { length self.old.trail.cells.items ≤ 10 ^ 18 }
        requires few_clauses { length self.old.steps.items ≢ budget → length self.old.clauses < 10 ^ 18 }
        ensures { IfOk result (λ t. IsTurn (length self.old.trail.cells.items - 1) (S.has_instance source.now)
            (S.clause_of source.now) self.old.clauses self.old.steps.items budget self.new t) }
    {
        match self.begin(alloc, source, budget)? {
            Some(turn) => Ok(turn),
            None => self.go_on(alloc, source, budget),
        }
    }

    /// Before anything is decided in this turn: logs an instance that implies a literal or is falsified, or settles a
    /// conflict. None where there is neither, or the budget is spent.
    fn begin<S: Source>(
        &mut self,
        alloc: Global,
        source: &S,
        budget: u64,
    ) -> Result<Option<Turn>, AllocError>
        requires ready { IsReady (length self.old.trail.cells.items) self.old }
        requires some { 0 < length self.old.trail.cells.items }
        requires few_cells { length self.old.trail.cells.items ≤ 10 ^ 18 }
        requires few_clauses { length self.old.steps.items ≢ budget → length self.old.clauses < 10 ^ 18 }
        ensures { IfOk result (λ o. HasBegun (length self.old.trail.cells.items) (S.has_instance source.now)
            (S.clause_of source.now) self.old.clauses self.old.steps.items budget self.new o) }
    {
        if self.is_spent(budget) {
            return Ok(None);
        }
        if let Some(conflict) = self.come_to_rest()? {
            return Ok(Some(self.settle(alloc, conflict, budget)?));
        }
        let given = next_due(
            alloc,
            &self.trail,
            source,
            &self.order,
            &mut self.suggestions,
            &mut self.kept,
        )?;
        match given {
            None => Ok(None),
            Some(Given { instance, clause }) => {
                self.log(alloc, instance, clause.as_slice())?;
                Ok(Some(Turn::Added))
            }
        }
    }

    /// Decides and propagates up to the next step, or to the end of the search.
    fn go_on<S: Source>(
        &mut self,
        alloc: Global,
        source: &S,
        budget: u64,
    ) -> Result<Turn, AllocError>
        requires ready { IsReady (length self.old.trail.cells.items) self.old }
        requires some { 0 < length self.old.trail.cells.items }
        requires few_cells { length self.old.trail.cells.items ≤ 10 ^ 18 }
        requires few_clauses { length self.old.steps.items ≢ budget → length self.old.clauses < 10 ^ 18 }
        ensures { IfOk result (λ t. IsTurn (length self.old.trail.cells.items - 1) (S.has_instance source.now)
            (S.clause_of source.now) self.old.clauses self.old.steps.items budget self.new t) }
    {
        if let Some(conflict) = self.rest()? {
            return self.settle(alloc, conflict, budget);
        }
        self.look(alloc, source, budget)
    }

    /// Where each atom has a value: logs a kept instance that is falsified, or looks for one.
    fn look<S: Source>(
        &mut self,
        alloc: Global,
        source: &S,
        budget: u64,
    ) -> Result<Turn, AllocError>
        requires ready { IsReady (length self.old.trail.cells.items) self.old }
        requires some { 0 < length self.old.trail.cells.items }
        requires total { IsTotal self.old }
        ensures { IfOk result (λ t. IsTurn (length self.old.trail.cells.items - 1) (S.has_instance source.now)
            (S.clause_of source.now) self.old.clauses self.old.steps.items budget self.new t) }
    {
        if self.is_spent(budget) {
            return self.ask(alloc, source, budget);
        }
        match next_kept(alloc, &self.trail, source, &mut self.kept)? {
            None => self.ask(alloc, source, budget),
            Some(Given { instance, clause }) => {
                self.log(alloc, instance, clause.as_slice())?;
                Ok(Turn::Added)
            }
        }
    }

    /// Looks for an instance of the source that the assignment of all atoms falsifies.
    fn ask<S: Source>(&mut self, alloc: Global, source: &S, budget: u64) -> Result<Turn, AllocError>
        requires ready { IsReady (length self.old.trail.cells.items) self.old }
        requires some { 0 < length self.old.trail.cells.items }
        requires total { IsTotal self.old }
        ensures { IfOk result (λ t. IsTurn (length self.old.trail.cells.items - 1) (S.has_instance source.now)
            (S.clause_of source.now) self.old.clauses self.old.steps.items budget self.new t) }
    {
        let m = self.assignment(alloc)?;
        match source.violated(&m)? {
            None => Ok(Turn::Consistent(m)),
            Some(instance) => {
                keep_broken(alloc, source, &m, &mut self.kept)?;
                self.tell(alloc, source, instance, budget)
            }
        }
    }

    /// Logs an instance of the source that the assignment falsifies, if the budget isn't spent.
    fn tell<S: Source>(
        &mut self,
        alloc: Global,
        source: &S,
        instance: Instance,
        budget: u64,
    ) -> Result<Turn, AllocError>
        requires ready { IsReady (length self.old.trail.cells.items) self.old }
        requires some { 0 < length self.old.trail.cells.items }
        requires total { IsTotal self.old }
        requires accepted { S.has_instance source.now instance }
        requires falsified { falsifies (map cell_value (drop 1 self.old.trail.cells.items))
            (S.clause_of source.now instance) ≡ true }
        ensures { IfOk result (λ t. IsTurn (length self.old.trail.cells.items - 1) (S.has_instance source.now)
            (S.clause_of source.now) self.old.clauses self.old.steps.items budget self.new t) }
    {
        if self.is_spent(budget) {
            return Ok(Turn::Spent);
        }
        let clause = source.clause(&instance)?;
        let is_empty = clause.is_empty();
        let most = self.trail.levels.len();
        self.attach(alloc, clause.as_slice(), most)?;
        self.steps.push(Step::Instance(instance))?;
        if is_empty {
            return Ok(Turn::Refuted);
        }
        Ok(Turn::Added)
    }
}
