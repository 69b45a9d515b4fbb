//! The checker of steps, one after another.
ghost use Rattle.std.specs.Prelude.{◌≡◌, ◌+◌, ◌<◌, None, OnOk, IfErr, IfOk, IsTrue, map, length};
ghost use Rattle.std.specs.List.{list_all};
ghost use Rattle.std.specs.Option.{is_some};
ghost use Rattle.sc_logs.specs.Readings.{IfTold};
ghost use Rattle.sc_checker.specs.Progress.{IsChecked, IsTaken, start, failed, counted, grown, taken, AfterStep, verdict_of};
ghost use Rattle.sc_refutations.specs.Arenas.{lit_of, has_code};
ghost use Rattle.sc_refutations.specs.Refutations.{are_listed};
ghost use Rattle.sc_checker.specs.Verdicts.{IsOfInstance, of_learned};

use crate::checking::{Reason, Verdict};
use sc_clauses::{Clause, Instance, Lit, Step};
use sc_footprint::{Problem, Theory, problem_laws};
use sc_lists::Fault;
use sc_refutations::{Arena, Known, learn};
use std::alloc::{AllocError, Global};
use std::marker::Model;
use th_defs::{defining, defining_laws};

/// Takes one step after another, up to the first at fault. Contracts see what it holds of them.
#[derive(Drop)]
pub(crate) struct StepChecker {
    known: Known,
    steps: u64,
    clauses: Arena,
    is_empty: bool,
    fault: Option<(u64, Reason)>,
}

impl Model for StepChecker {
    ghost use Rattle.std.specs.Prelude.{◌≤◌};
    ghost use Rattle.sc_checker.specs.Progress.{Progress};

    ghost Value = { Progress };

    ghost view = { λ c. record {
      listed = c.known.count;
      steps = c.steps;
      clauses = c.clauses;
      is_empty = c.is_empty;
      fault = c.fault;
    } };

    ghost invariant = { λ c. c.known.step ≤ c.steps };
}

/// The clause of an instance that the rules have.
fn instance_clause<T: Theory>(
    alloc: Global,
    rules: &T,
    problem: &Problem<'_>,
    instance: &Instance,
) -> Result<Clause, Fault<Reason>>
    ensures none { IfErr result (λ fault. IfTold fault (λ reason.
        (¬ T.has_instance rules.now problem.now instance.now) × (reason ≡ Reason.NoInstance))) }
    ensures has { IfOk result (λ c. T.has_instance rules.now problem.now instance.now) }
    ensures clause { IfOk result (λ c. c ≡ T.clause_of rules.now problem.now instance.now) }
{
    match rules.accepts(alloc, problem, instance) {
        Ok(true) => match rules.clause(alloc, problem, instance) {
            Ok(clause) => Ok(clause),
            Err(_) => Err(Fault::NoMemory),
        },
        Ok(false) => Err(Fault::Told(Reason::NoInstance)),
        Err(_) => Err(Fault::NoMemory),
    }
}

impl StepChecker {
    /// A checker of steps on a problem, which has taken none. The marks that it needs are taken here.
    pub(crate) fn new(alloc: Global, problem: &Problem<'_>) -> Result<StepChecker, AllocError>
        ensures start { IfOk result (λ c. c ≡ start problem.now) }
        ensures checked { IfOk result (IsChecked problem.now) }
    {
        defining_laws();
        problem.laws();
        let defined = defining(alloc, problem)?;
        let known = Known::new(alloc, problem.atom_count())?;
        let clauses = Arena::of(alloc, &known, &defined)?;
        Ok(StepChecker {
            known,
            steps: 0,
            clauses,
            is_empty: false,
            fault: None,
        })
    }

    /// Whether a step was at fault.
    pub(crate) fn is_at_fault(&self) -> bool
        ensures { result ≡ is_some self.now.fault }
    {
        self.fault.is_some()
    }

    /// The number of the next step. There are more clauses than steps, so that it is in range.
    pub(crate) fn next_number(&self) -> u64
        requires { self.now.steps < length self.now.clauses }
        ensures { result ≡ self.now.steps + 1 }
    {
        let _bound = self.clauses.len();
        self.steps + 1
    }

    /// Puts the step of a number at fault.
    pub(crate) fn fail(&mut self, number: u64, reason: Reason)
        ensures { self.new ≡ failed number reason self.old }
    {
        self.fault = Some((number, reason));
    }

    /// Counts one step more.
    fn count(&mut self)
        requires { self.old.steps < length self.old.clauses }
        ensures { self.new ≡ counted self.old }
    {
        self.steps = self.next_number();
    }

    /// Adds the clause of the last step.
    fn add_lits(&mut self, alloc: Global, clause: &[Lit]) -> Result<(), AllocError>
        ensures { OnOk result (self.new ≡ grown clause.now self.old) }
    {
        self.clauses.push_lits(alloc, &self.known, clause)?;
        self.is_empty = clause.is_empty();
        Ok(())
    }

    /// Takes an instance.
    pub(crate) fn take_instance<T: Theory>(
        &mut self,
        alloc: Global,
        rules: &T,
        problem: &Problem<'_>,
        instance: &Instance,
    ) -> Result<(), AllocError>
        requires checked { IsChecked problem.now self.old }
        requires going { self.old.fault ≡ None }
        ensures taken { OnOk result (IsTaken (IsOfInstance (T.has_instance rules.now problem.now)
            (T.clause_of rules.now problem.now) instance.now) self.old self.new) }
        ensures checked { OnOk result (IsChecked problem.now self.new) }
    {
        // The clauses of the rules have literals of listed atoms and are true in well-formed worlds,
        // since this is a problem of a goal.
        problem.laws();
        problem_laws();
        self.count();
        match instance_clause(alloc, rules, problem, instance) {
            Ok(clause) => self.add_lits(alloc, clause.as_slice()),
            Err(Fault::Told(reason)) => {
                self.fail(self.steps, reason);
                Ok(())
            }
            Err(Fault::NoMemory) => Err(AllocError),
        }
    }

    /// Takes a learned clause, by the numbers of its literals, and its hints.
    pub(crate) fn take_learned(&mut self, clause: &[u32], hints: &[u64]) -> Result<(), AllocError>
        requires room { self.old.steps < length self.old.clauses }
        requires listed { IsTrue (are_listed self.old.listed self.old.clauses) }
        requires codes { IsTrue (list_all has_code (map lit_of clause.now)) }
        ensures { OnOk result (self.new ≡ taken (of_learned self.old.listed self.old.clauses
            (record { clause = map lit_of clause.now; hints = hints.now })) self.old) }
    {
        self.steps = self.next_number();
        if learn(
            &mut self.known,
            self.steps,
            &mut self.clauses,
            clause,
            hints,
        )? {
            self.is_empty = clause.is_empty();
            return Ok(());
        }
        self.fail(self.steps, Reason::NotRefuted);
        Ok(())
    }

    /// Takes a learned clause and its hints.
    pub(crate) fn take_lits(
        &mut self,
        alloc: Global,
        clause: &[Lit],
        hints: &[u64],
    ) -> Result<(), AllocError>
        requires room { self.old.steps < length self.old.clauses }
        requires listed { IsTrue (are_listed self.old.listed self.old.clauses) }
        ensures { OnOk result (self.new ≡ taken (of_learned self.old.listed self.old.clauses
            (record { clause = clause.now; hints = hints.now })) self.old) }
    {
        match self.known.codes_of(alloc, clause)? {
            Some(codes) => self.take_learned(codes.as_slice(), hints),
            // A literal that has no number is of no listed atom.
            None => {
                self.count();
                self.fail(self.steps, Reason::NotRefuted);
                Ok(())
            }
        }
    }

    /// Takes a step, unless one was at fault.
    pub(crate) fn take<T: Theory>(
        &mut self,
        alloc: Global,
        rules: &T,
        problem: &Problem<'_>,
        step: &Step,
    ) -> Result<(), AllocError>
        requires { IsChecked problem.now self.old }
        ensures taken { OnOk result (AfterStep (T.has_instance rules.now problem.now)
            (T.clause_of rules.now problem.now) self.old step.now self.new) }
        ensures checked { OnOk result (IsChecked problem.now self.new) }
    {
        if self.is_at_fault() {
            return Ok(());
        }
        match step {
            Step::Instance(instance) => self.take_instance(alloc, rules, problem, instance),
            Step::Learned(learned) => {
                self.take_lits(alloc, learned.clause.as_slice(), learned.hints.as_slice())
            }
        }
    }

    /// The verdict where no step follows.
    pub(crate) fn verdict(&self) -> Verdict
        ensures { result ≡ verdict_of self.now }
    {
        match self.fault {
            Some((step, reason)) => Verdict::Rejected { step, reason },
            None if self.is_empty => Verdict::Refuted,
            None => Verdict::Rejected {
                step: self.steps,
                reason: Reason::NotEmpty,
            },
        }
    }
}
