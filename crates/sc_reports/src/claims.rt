//! Checks a log that was kept.
ghost use Rattle.std.specs.Prelude.{◌≡◌, ◌<◌, ◌≤◌, Some, length, slice_get, IfErr, IfOk, IfSome, OnOk};
ghost use Rattle.sc_footprint.specs.Truths.{IsUnsatisfiable};
ghost use Rattle.sc_inputs.specs.Readings.{FailsWith, IsUnread};
ghost use Rattle.sc_inputs.specs.Refusals.{RefusesLog};
ghost use Rattle.sc_outside.specs.Failures.{FailsAt};
ghost use Rattle.sc_schema.specs.Declarations.{environments};
ghost use Rattle.sc_schema.specs.declared.declarations.Env.{Env as AnyEnv};
ghost use Rattle.sc_reports.specs.Analyses.{asked_of, asked_within, MayBeAsked};
ghost use Rattle.sc_reports.specs.Claims.{answer_view, says_of, Claims, IsChecked, IsShort};
ghost use Rattle.sc_reports.specs.Reports.{IsProblem};

use crate::analysing::problem_of;
use crate::environment::environment_at;
use crate::log_reading::read_log;
use crate::reporting::query_of;
use sc_checker::{LogChecker, Reason, Verdict, stream_laws};
use sc_footprint::Problem;
use sc_goal::{Query, goal_laws};
use sc_inputs::{Claim, Refusal};
use sc_lists::Fault;
use sc_outside::Files;
use sc_schema::{Env, Schema};
use sc_solver::Rules;
use sc_typing_laws::literal_laws;
use std::alloc::Global;

/// What is said of a log.
#[derive(Clone, Copy)]
pub enum Answer {
    /// It shows that each well-formed world of the environment has the property.
    Accepted,
    /// This step is the first at fault, counted from 1, for this reason; 0 stands for the first line,
    /// and for the whole of a log without steps.
    Rejected(u64, Reason),
    /// More atoms would be listed than may be.
    OverLimit,
}

/// What a verdict says of a log.
fn answer_of(verdict: Verdict) -> Answer
    ensures { answer_view result ≡ says_of verdict }
{
    match verdict {
        Verdict::Refuted => Answer::Accepted,
        Verdict::Rejected { step, reason } => Answer::Rejected(step, reason),
    }
}

/// Reads a log, and checks it for a problem.
fn checked<F: Files>(
    alloc: Global,
    files: &mut F,
    name: &str,
    problem: &Problem<'_>,
) -> Result<Verdict, Fault<Refusal>>
    ensures verdict { IfOk result (λ v. IfSome (F.content files.old name.now) (λ text. IsChecked problem.now text v)) }
    ensures sound { IfOk result (λ v. v ≡ Verdict.Refuted → IsUnsatisfiable problem.now) }
    ensures short { OnOk result (IsShort (F.content files.old name.now)) }
    ensures fails { IfErr result (FailsWith (RefusesLog (F.content files.old) name.now
        (FailsAt F.Files files.old files.new))) }
    ensures later { F.faults files.old ≤ F.faults files.new }
    ensures told { F.faults files.old < F.faults files.new → IsUnread result }
{
    stream_laws::<Rules>();
    let rules = Rules::new();
    let mut held = match LogChecker::new(alloc, &rules, problem) {
        Ok(checker) => Some(checker),
        Err(_) => return Err(Fault::NoMemory),
    };
    match read_log(alloc, files, name, &mut held) {
        Ok(()) => match held {
            Some(checker) => match checker.end() {
                Ok(verdict) => Ok(verdict),
                Err(_) => Err(Fault::NoMemory),
            },
            None => unreachable!(),
        },
        Err(fault) => Err(fault),
    }
}

/// Reads the log of an environment whose problem is too large.
fn unchecked<F: Files>(alloc: Global, files: &mut F, name: &str) -> Result<Answer, Fault<Refusal>>
    ensures answer { IfOk result (λ a. a ≡ Answer.OverLimit) }
    ensures short { OnOk result (IsShort (F.content files.old name.now)) }
    ensures fails { IfErr result (FailsWith (RefusesLog (F.content files.old) name.now
        (FailsAt F.Files files.old files.new))) }
    ensures later { F.faults files.old ≤ F.faults files.new }
    ensures told { F.faults files.old < F.faults files.new → IsUnread result }
{
    match read_log(alloc, files, name, &mut None) {
        Ok(()) => Ok(Answer::OverLimit),
        Err(fault) => Err(fault),
    }
}

/// Checks whether a log shows that the goal of a query is true in no well-formed world.
fn check_problem<F: Files>(
    alloc: Global,
    schema: &Schema,
    env: &Env,
    query: &Query<'_>,
    problem: &Problem<'_>,
    files: &mut F,
    name: &str,
) -> Result<Answer, Fault<Refusal>>
    requires problem { IsProblem (asked_of schema.now query.now 0) env.now problem.now }
    ensures claims { IfOk result (λ a. Claims (F.content files.old name.now) (asked_of schema.now query.now 0) env.now
        (answer_view a)) }
    ensures short { OnOk result (IsShort (F.content files.old name.now)) }
    ensures fails { IfErr result (FailsWith (RefusesLog (F.content files.old) name.now
        (FailsAt F.Files files.old files.new))) }
    ensures later { F.faults files.old ≤ F.faults files.new }
    ensures told { F.faults files.old < F.faults files.new → IsUnread result }
{
    schema.laws();
    goal_laws();
    literal_laws();
    let _ = env;
    let _ = query;
    match checked(alloc, files, name, problem) {
        Ok(verdict) => Ok(answer_of(verdict)),
        Err(fault) => Err(fault),
    }
}

/// Checks whether a log shows what is claimed. The log is read to its end before anything is said.
pub fn check_claim<F: Files>(
    alloc: Global,
    claim: &Claim<'_>,
    files: &mut F,
) -> Result<Answer, Fault<Refusal>>
    requires environment { claim.now.environment < length (environments claim.now.asking.schema) }
    requires allowed { MayBeAsked claim.now.asking }
    ensures claims { IfOk result (λ a. (env : AnyEnv)
        → slice_get (environments claim.now.asking.schema) claim.now.environment ≡ Some env
        → Claims (F.content files.old claim.now.log.now) (asked_within claim.now.asking 0) env (answer_view a)) }
    ensures short { OnOk result (IsShort (F.content files.old claim.now.log.now)) }
    ensures fails { IfErr result (FailsWith (RefusesLog (F.content files.old) claim.now.log.now
        (FailsAt F.Files files.old files.new))) }
    ensures later { F.faults files.old ≤ F.faults files.new }
    ensures told { F.faults files.old < F.faults files.new → IsUnread result }
{
    let asking = &claim.asking;
    let env = environment_at(&asking.schema, claim.environment);
    let Ok(query) = query_of(alloc, asking) else {
        return Err(Fault::NoMemory);
    };
    goal_laws();
    query.laws();
    match problem_of(alloc, &asking.schema, env, &query) {
        Ok(problem) => {
            problem.laws();
            check_problem(
                alloc,
                &asking.schema,
                env,
                &query,
                &problem,
                files,
                claim.log,
            )
        }
        Err(Fault::Told(_)) => unchecked(alloc, files, claim.log),
        Err(Fault::NoMemory) => Err(Fault::NoMemory),
    }
}
