//! The state of a search, and the steps that it logs.
ghost use Rattle.std.specs.Prelude.{◌≡◌, ◌≢◌, ◌↔◌, ◌+◌, ◌-◌, ◌^◌, ◌<◌, ◌≤◌, ◌++◌, [], ◌∷◌, ℕ, length, map, drop, slice_index_or, IfOk, IsTrue};
ghost use Rattle.sc_clauses.specs.declared.step.Step.TheVariants as step;
ghost use Rattle.sc_propagation.specs.Readings.{IsFalsified};
ghost use Rattle.sc_propagation.specs.Trails.{AllInCells, AreInCells, HoldsTrail};
ghost use Rattle.sc_propagation.specs.Visits.{AreAlive, AreSeenBut, IsWellWatched};
ghost use Rattle.sc_search.specs.Turns.{IsReady, IsKept, IsCalm, IsAtRest, HasLearned, HasRefuted, HasSettled};
ghost use Rattle.sc_propagation.specs.Rooms.{cell_value};

use crate::giving::Kept;
use sc_clauses::{Assignment, Clauses, Instance, Learned, Lit, Step, negation};
use sc_decisions::{Order, Restarts, Suggestions};
use sc_lists::Seq;
use sc_propagation::{Analysis, Cell, Pending, Resolvent, Trail, Watches, value_of};
use sc_refutations::{Arena, codes_of, put_codes};
use std::alloc::{AllocError, Global};
use std::mem;

/// The outcome of one turn of the search.
#[derive(Drop)]
pub(crate) enum Turn {
    /// A step was logged.
    Added,
    /// A step was logged, and its clause is empty.
    Refuted,
    /// Propagation is at rest: no clause is falsified, and none implies anything.
    Consistent(Assignment),
    /// A step is due, and the budget is spent.
    Spent,
}

/// The clauses given and learned, the log of steps, and the trail.
#[derive(Drop)]
pub(crate) struct Solver {
    pub clauses: Arena,
    pub steps: Vec<Step>,
    pub watches: Watches,
    pub trail: Trail,
    pub pending: Pending,
    pub order: Order,
    pub restarts: Restarts,
    pub suggestions: Suggestions,
    pub kept: Vec<Kept>,
    pub analysis: Analysis,
}

/// The values of the atoms, by their cells, cell 0 included.
fn values_of(alloc: Global, cells: &[Cell]) -> Result<Seq<Option<bool>>, AllocError>
    ensures { IfOk result (λ values. values ≡ map cell_value cells.now) }
{
    let mut values = Seq::new(alloc);
    for cell in cells {
        values.push(value_of(*cell))?;
    }
    Ok(values)
}

/// The values of the atoms, by the cells behind cell 0.
fn later_values(alloc: Global, cells: &[Cell]) -> Result<Seq<Option<bool>>, AllocError>
    ensures { IfOk result (λ values. values ≡ map cell_value (drop 1 cells.now)) }
{
    match cells.split_first() {
        None => Ok(Seq::new(alloc)),
        Some((_, later)) => values_of(alloc, later),
    }
}

/// The clauses as an array of the numbers of their literals.
fn arena_of(alloc: Global, given: &Clauses) -> Result<Arena, AllocError>
    ensures { IfOk result (λ clauses. clauses ≡ given.now) }
{
    // There are fewer than 2^64 clauses, as `len` promises.
    let _count = given.len();
    let mut clauses = Arena::new(alloc);
    let mut codes = Vec::new(alloc);
    let mut place = 0;
    while let Some(clause) = given.get(place) {
        codes.clear();
        put_codes(&mut codes, clause)?;
        clauses.push(&codes)?;
        place += 1;
    }
    Ok(clauses)
}

impl Solver {
    /// A search over these clauses, before its first turn.
    pub fn new(alloc: Global, atoms: u64, given: &Clauses) -> Result<Solver, AllocError>
        requires few_atoms { atoms < 10 ^ 18 }
        requires in_cells { AreInCells (atoms + 1) given.now }
        ensures count { IfOk result (λ s. length s.trail.cells.items ≡ atoms + 1) }
        ensures watched { IfOk result (λ s. IsWellWatched (atoms + 1) given.now s.trail s.watches) }
        ensures trail { IfOk result (λ s. HoldsTrail (atoms + 1) given.now s.trail) }
        ensures seen { IfOk result (λ s. AreSeenBut given.now s.trail s.watches s.pending) }
        ensures clauses { IfOk result (λ s. s.clauses ≡ given.now) }
        ensures steps { IfOk result (λ s. s.steps.items ≡ []) }
        ensures marks { IfOk result (λ s. length s.analysis.met ≡ atoms + 1) }
    {
        let cells = atoms as usize + 1;
        let clauses = arena_of(alloc, given)?;
        let watches = Watches::new(alloc, cells, clauses.len())?;
        let trail = Trail::new(alloc, cells)?;
        let order = Order::new(alloc, cells, given)?;
        let analysis = Analysis::new(alloc, cells)?;
        Ok(Solver {
            clauses,
            steps: Vec::new(alloc),
            watches,
            trail,
            pending: Pending::Each,
            order,
            restarts: Restarts::new(),
            suggestions: Suggestions::new(alloc),
            kept: Vec::new(alloc),
            analysis,
        })
    }

    /// Takes the steps out, which leaves none.
    pub fn take_steps(&mut self, alloc: Global) -> Seq<Step>
        ensures { result ≡ self.old.steps.items }
    {
        Seq::from_vec(mem::replace(&mut self.steps, Vec::new(alloc)))
    }

    /// The assignment of all atoms.
    pub fn assignment(&self, alloc: Global) -> Result<Assignment, AllocError>
        ensures { IfOk result (λ m. m ≡ map cell_value (drop 1 self.now.trail.cells.items)) }
    {
        let values = later_values(alloc, &self.trail.cells)?;
        Ok(Assignment::from_values(values))
    }

    /// Propagates until a clause is falsified, whose place is the answer, or propagation is at rest.
    pub fn come_to_rest(&mut self) -> Result<Option<usize>, AllocError>
        requires { IsReady (length self.old.trail.cells.items) self.old }
        ensures ready { IfOk result (λ _. IsReady (length self.old.trail.cells.items) self.new) }
        ensures kept { IfOk result (λ _. IsKept self.old.clauses self.old.steps.items self.new) }
        ensures calm { IfOk result (λ r. IsCalm self.new r) }
    {
        let conflict = self
            .trail
            .propagate(&self.clauses, &mut self.watches, self.pending)?;
        if let Some(conflict) = conflict {
            self.pending = Pending::Each;
            return Ok(Some(conflict));
        }
        let place = self.trail.lits.len();
        self.pending = Pending::From(place);
        Ok(None)
    }

    /// Propagates and decides until a clause is falsified, whose place is the answer, or each atom has a value.
    pub fn rest(&mut self) -> Result<Option<usize>, AllocError>
        requires { IsReady (length self.old.trail.cells.items) self.old }
        ensures ready { IfOk result (λ _. IsReady (length self.old.trail.cells.items) self.new) }
        ensures kept { IfOk result (λ _. IsKept self.old.clauses self.old.steps.items self.new) }
        ensures rest { IfOk result (λ r. IsAtRest self.new r) }
    {
        'moves: loop {
            let conflict = self
                .trail
                .propagate(&self.clauses, &mut self.watches, self.pending)?;
            if let Some(conflict) = conflict {
                self.pending = Pending::Each;
                return Ok(Some(conflict));
            }
            let place = self.trail.lits.len();
            self.pending = Pending::From(place);
            let Some(atom) = self.trail.choose(&mut self.order) else {
                return Ok(None);
            };
            let negated = self.order.is_negated(atom, self.restarts.keeps_phases());
            self.trail.decide(Lit {
                atom: atom as u64,
                negated,
            })?;
        }
    }

    /// Logs an instance with this clause.
    pub fn log(
        &mut self,
        alloc: Global,
        instance: Instance,
        clause: &[Lit],
    ) -> Result<(), AllocError>
        requires ready { IsReady (length self.old.trail.cells.items) self.old }
        requires in_cells { AllInCells (length self.old.trail.cells.items) clause.now }
        requires alive { AreAlive self.old.clauses self.old.trail self.old.watches }
        ensures ready { IfOk result (λ _. IsReady (length self.old.trail.cells.items) self.new) }
        ensures clauses { IfOk result (λ _. self.new.clauses ≡ self.old.clauses ++ clause.now ∷ []) }
        ensures steps { IfOk result (λ _. self.new.steps.items ≡ self.old.steps.items ++ step.Instance instance ∷ []) }
    {
        let most = self.trail.levels.len();
        self.attach(alloc, clause, most)?;
        self.steps.push(Step::Instance(instance))?;
        Ok(())
    }

    /// Whether as many steps were logged as the budget allows.
    pub fn is_spent(&self, budget: u64) -> bool
        ensures { IsTrue result ↔ length self.now.steps.items ≡ budget }
    {
        self.steps.len() as u64 == budget
    }

    /// Learns the clause that a conflict shows, logs it, and jumps back.
    fn learn(&mut self, alloc: Global, conflict: usize) -> Result<(), AllocError>
        requires ready { IsReady (length self.old.trail.cells.items) self.old }
        requires falsified { IsFalsified self.old.clauses self.old.trail.cells.items
            (length self.old.trail.lits.items) conflict }
        requires some { 0 < length self.old.trail.levels.items }
        requires few_cells { length self.old.trail.cells.items ≤ 10 ^ 18 }
        requires few_clauses { length self.old.clauses < 10 ^ 18 }
        ensures { IfOk result (λ _. HasLearned (length self.old.trail.cells.items)
            self.old.clauses self.old.steps.items self.new) }
    {
        let first = self.trail.level_start();
        let Resolvent { lower, uip, hints } = self
            .trail
            .analyse(alloc, &self.clauses, &mut self.analysis, conflict, first)?;
        self.order.raise(&self.analysis.atoms);
        let mut lits = lower;
        // The clause implies this literal where the search goes on, so a look at the clause meets it first.
        lits.insert(0, negation(uip))?;
        let most = self.restarts.most_levels(self.trail.levels.len() - 1);
        self.attach(alloc, &lits, most)?;
        self.steps.push(Step::Learned(Learned {
            clause: Seq::from_vec(lits),
            hints: Seq::from_vec(hints),
        }))?;
        Ok(())
    }

    /// Logs the empty clause, which a conflict without decisions shows.
    fn refute(&mut self, alloc: Global, conflict: usize) -> Result<(), AllocError>
        requires ready { IsReady (length self.old.trail.cells.items) self.old }
        requires falsified { IsFalsified self.old.clauses self.old.trail.cells.items
            (length self.old.trail.lits.items) conflict }
        requires undecided { self.old.trail.levels.items ≡ [] }
        requires few_clauses { length self.old.clauses < 10 ^ 18 }
        ensures { IfOk result (λ _. HasRefuted self.old.clauses self.old.steps.items self.new) }
    {
        let hints = self
            .trail
            .refute(alloc, &self.clauses, &mut self.analysis, conflict)?;
        self.steps.push(Step::Learned(Learned {
            clause: Seq::new(alloc),
            hints: Seq::from_vec(hints),
        }))?;
        Ok(())
    }

    /// Logs what a conflict shows, if the budget isn't spent.
    pub fn settle(
        &mut self,
        alloc: Global,
        conflict: usize,
        budget: u64,
    ) -> Result<Turn, AllocError>
        requires ready { IsReady (length self.old.trail.cells.items) self.old }
        requires falsified { IsFalsified self.old.clauses self.old.trail.cells.items
            (length self.old.trail.lits.items) conflict }
        requires few_cells { length self.old.trail.cells.items ≤ 10 ^ 18 }
        requires few_clauses { length self.old.steps.items ≢ budget → length self.old.clauses < 10 ^ 18 }
        ensures { IfOk result (λ t. HasSettled (length self.old.trail.cells.items)
            self.old.clauses self.old.steps.items budget self.new t) }
    {
        if self.is_spent(budget) {
            return Ok(Turn::Spent);
        }
        if self.trail.levels.is_empty() {
            self.refute(alloc, conflict)?;
            return Ok(Turn::Refuted);
        }
        self.learn(alloc, conflict)?;
        Ok(Turn::Added)
    }

    /// Adds a clause, and jumps back until it has two literals that aren't false, or no level is left; a restart may
    /// ask for fewer levels.
    pub fn attach(&mut self, alloc: Global, clause: &[Lit], most: usize) -> Result<(), AllocError>
        requires ready { IsReady (length self.old.trail.cells.items) self.old }
        requires in_cells { AllInCells (length self.old.trail.cells.items) clause.now }
        requires most { most ≤ length self.old.trail.levels.items }
        requires alive { most ≡ length self.old.trail.levels.items
            → AreAlive self.old.clauses self.old.trail self.old.watches }
        ensures ready { IfOk result (λ _. IsReady (length self.old.trail.cells.items) self.new) }
        ensures clauses { IfOk result (λ _. self.new.clauses ≡ self.old.clauses ++ clause.now ∷ []) }
        ensures steps { IfOk result (λ _. self.new.steps ≡ self.old.steps) }
    {
        let codes = codes_of(alloc, clause)?;
        let room = self.trail.room(&codes, most);
        self.trail
            .go_back(&self.clauses, &mut self.order, room.level);
        self.watches.add(room.watch)?;
        let place = self.clauses.len();
        self.pending = Pending::One(place);
        self.clauses.push(&codes)?;
        Ok(())
    }
}
