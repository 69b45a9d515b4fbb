//! The top call.
ghost use Rattle.std.specs.Prelude.{◌≡◌, ◌<◌, Some, length, slice_get};
ghost use Rattle.sc_outside.specs.Counts.{Rose};
ghost use Rattle.sc_outside.specs.Failures.{FailsAt};
ghost use Rattle.sc_schema.specs.Declarations.{environments};
ghost use Rattle.sc_schema.specs.declared.declarations.Env.{Env as AnyEnv};
ghost use Rattle.sc_reports.specs.Analyses.{MayBeAsked};
ghost use Rattle.sc_inputs.specs.View.{refusal_view};
ghost use Rattle.sc_run.specs.Promises.{Promises};
ghost use Rattle.sc_run.specs.Runs.{ChecksClaim, Ends, MustBe, Refuses, run_of};

use crate::generating::report_generated;
use crate::reducing::report_reduction;
use crate::replaying::replay;
use sc_generated_decision_laws::generated_decision_laws;
use sc_generated_laws::generated_laws;
use sc_inputs::{Claim, Inputs, Refusal, code, inputs_of, text_of};
use sc_lists::Fault;
use sc_outside::{Files, Sink, SinkFault};
use sc_replay::break_laws;
use sc_reports::{Status, check_claim, put_said, report, report_log, verdict_law};
use sc_schema_json::spelling_laws;
use sc_world_json::reading_laws;
use std::alloc::Global;

/// Puts out the line of a refusal. Gives the status.
fn refuse<O: Sink>(alloc: Global, refusal: &Refusal, out: &mut O) -> u8
    ensures refuses { Refuses (refusal_view refusal.now) (O.written out.old) (O.written out.new) (Rose
        (O.faults out.old) (O.faults out.new)) result }
    ensures told { O.faults out.old < O.faults out.new → result ≡ 21 }
{
    let Ok(text) = text_of(alloc, refusal) else {
        return 30;
    };
    match out.write(&text) {
        Ok(()) => code(refusal),
        Err(SinkFault::Failed) => 21,
        Err(SinkFault::NoMemory) => 30,
    }
}

/// Checks the log of a claim. Gives the status.
fn check<F: Files, O: Sink>(alloc: Global, claim: &Claim<'_>, files: &mut F, out: &mut O) -> u8
    requires environment { claim.now.environment < length (environments claim.now.asking.schema) }
    requires allowed { MayBeAsked claim.now.asking }
    ensures checks { (env : AnyEnv) → slice_get (environments claim.now.asking.schema) claim.now.environment ≡ Some env
        → ChecksClaim claim.now env (F.content files.old) (FailsAt F.Files files.old files.new)
        (O.written out.old) (O.written out.new) (Rose (O.faults out.old) (O.faults out.new)) result }
    ensures read_told { F.faults files.old < F.faults files.new → MustBe 20 result }
    ensures write_told { O.faults out.old < O.faults out.new → result ≡ 21 }
{
    match check_claim(alloc, claim, files) {
        Ok(answer) => put_said(alloc, claim, answer, out),
        Err(Fault::Told(refusal)) => refuse(alloc, &refusal, out),
        Err(Fault::NoMemory) => 30,
    }
}

/// Reads what the words name, and does it.
fn ends<F: Files, O: Sink>(alloc: Global, words: &[String], files: &mut F, out: &mut O) -> Status
    ensures ends { Ends (run_of F.Files O.Sink files.old files.new out.old out.new words.now result.code)
        result.spent.items }
    ensures read_told { F.faults files.old < F.faults files.new → MustBe 20 result.code }
    ensures write_told { O.faults out.old < O.faults out.new → result.code ≡ 21 }
{
    let read = inputs_of(alloc, words, files);
    match &read {
        Ok(Inputs::Asked(analysis)) => report(alloc, analysis, out),
        Ok(Inputs::Logged(logging)) => report_log(alloc, logging, out),
        Ok(Inputs::Checked(claim)) => {
            Status::without_logs(alloc, check(alloc, claim, files, out))
        }
        Ok(Inputs::Reduced(analysis)) => report_reduction(alloc, analysis, out),
        Ok(Inputs::Replayed(scene)) => Status::without_logs(alloc, replay(alloc, scene, out)),
        Ok(Inputs::Generated(size)) => report_generated(alloc, *size, out),
        Err(Fault::Told(refusal)) => Status::without_logs(alloc, refuse(alloc, refusal, out)),
        Err(Fault::NoMemory) => Status::without_logs(alloc, 30),
    }
}

/// Does all that the program does: the words are its arguments, its files are read from one source, and what it reports
/// goes to one sink. Each line is written as soon as it is known. The answer has the status and the log of each
/// environment that is unknown. `specs/Promises.antt` says what is promised of each run.
pub fn run<F: Files, O: Sink>(alloc: Global, words: &[String], files: &mut F, out: &mut O) -> Status
    ensures { Promises (run_of F.Files O.Sink files.old files.new out.old out.new words.now result.code)
        result.spent.items }
{
    spelling_laws();
    reading_laws();
    break_laws();
    verdict_law();
    generated_laws();
    generated_decision_laws();
    ends(alloc, words, files, out)
}
