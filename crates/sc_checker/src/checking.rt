//! The checker of logs.
ghost use Rattle.std.specs.Prelude.{◌≡◌, ◌↔◌, ℕ, IfOk, OnOk};
ghost use Rattle.sc_checker.specs.Progress.{IsChecked, AfterSteps};
ghost use Rattle.sc_checker.specs.Verdicts.{IsAccepted, IsRejected, IsVerdictOn};
ghost use Rattle.sc_footprint.specs.Truths.{IsUnsatisfiable};

use crate::steps::StepChecker;
use sc_clauses::Step;
use sc_footprint::{Problem, Theory};
use sc_logs::Log;
use std::alloc::{AllocError, Global};
use th_defs::defining_laws;

/// Why a log is rejected.
#[derive(Clone, Copy, Debug, PartialEq, Eq)]
pub enum Reason {
    /// The step's line isn't of the form of a log's text.
    Malformed,
    /// The step is no instance of a rule.
    NoInstance,
    /// The step's hints don't show its clause.
    NotRefuted,
    /// The last clause isn't empty.
    NotEmpty,
}

/// What the checker says of a log.
#[derive(Clone, Copy, Debug, PartialEq, Eq)]
pub enum Verdict {
    /// The log is accepted.
    Refuted,
    /// The log is rejected.
    Rejected {
        /// The least step at fault, counted from 1; 0 stands for the whole of a log without steps.
        step: u64,
        /// Why it is at fault.
        reason: Reason,
    },
}

/// Takes each of these steps.
fn take_steps<T: Theory>(
    checker: &mut StepChecker,
    alloc: Global,
    rules: &T,
    problem: &Problem<'_>,
    steps: &[Step],
) -> Result<(), AllocError>
    requires { IsChecked problem.now checker.old }
    ensures taken { OnOk result (AfterSteps (T.has_instance rules.now problem.now) (T.clause_of rules.now problem.now)
        checker.old steps.now checker.new) }
    ensures checked { OnOk result (IsChecked problem.now checker.new) }
{
    for step in steps {
        checker.take(alloc, rules, problem, step)?;
    }
    Ok(())
}

/// Whether a log refutes a problem's goal by these rules. Its one fault is want of memory.
pub fn check<T: Theory>(
    alloc: Global,
    rules: &T,
    problem: &Problem<'_>,
    log: &Log,
) -> Result<Verdict, AllocError>
    // The verdict is exact: which step is the first at fault, and why.
    ensures exact { IfOk result (IsVerdictOn (T.has_instance rules.now problem.now) (T.clause_of rules.now problem.now)
        problem.now log.now) }
    // The logs that refute the goal are those that are accepted.
    ensures accepted { IfOk result (λ v. (v ≡ Verdict.Refuted)
        ↔ IsAccepted (T.has_instance rules.now problem.now) (T.clause_of rules.now problem.now) problem.now log.now) }
    // A log is rejected at its least step at fault, for what that step lacks.
    ensures rejected { IfOk result (λ v. (number : ℕ) (reason : Reason) → (v ≡ Verdict.Rejected number reason)
        ↔ IsRejected (T.has_instance rules.now problem.now) (T.clause_of rules.now problem.now) problem.now log.now
        number reason) }
    // Where the log refutes the goal, it is true in no well-formed world.
    ensures sound { IfOk result (λ v. v ≡ Verdict.Refuted → IsUnsatisfiable problem.now) }
{
    // The defining clauses have literals of listed atoms, and are true where the goal is.
    defining_laws();
    problem.laws();
    let mut checker = StepChecker::new(alloc, problem)?;
    take_steps(&mut checker, alloc, rules, problem, log.steps())?;
    Ok(checker.verdict())
}
