//! Writes the log of an environment.
ghost use Rattle.std.specs.Prelude.{◌≡◌, ◌≢◌, ◌<◌, ◌≤◌, ◌∷◌, [], ◌++◌, length, Err, OnOk, Some, slice_get, string_bytes};
ghost use Rattle.sc_checker.specs.Texts.{step_line};
ghost use Rattle.sc_outside.specs.Counts.{Rose};
ghost use Rattle.sc_schema.specs.Declarations.{environments};
ghost use Rattle.sc_schema.specs.declared.declarations.Env.{Env as AnyEnv};
ghost use Rattle.sc_reports.specs.Analyses.{IsAnswer, IsFound, asked_in, MayBeAsked};
ghost use Rattle.sc_reports.specs.Lines.{PutsLines};
ghost use Rattle.sc_reports.specs.Logs.{Logged, log_lines, log_status, step_lines};
ghost use Rattle.sc_reports.specs.Progress.{Puts};
ghost use Rattle.sc_reports.specs.Reports.{holds};
ghost use Rattle.sc_reports.specs.View.{verdict_view};

use crate::analysing::{EnvAnswer, analyse_env};
use crate::environment::environment_at;
use crate::line::line_of;
use crate::reporting::{put_answer, query_of, status_after};
use crate::status::Status;
use crate::tally::Tally;
use sc_checker::{Log, Step, write_step};
use sc_goal::goal_laws;
use sc_inputs::{Analysis, Logging};
use sc_outside::{Sink, SinkFault};
use sc_schema::Env;
use std::alloc::{AllocError, Global};

/// The line of a step, with its newline, in place of what the text was.
fn set_line(line: &mut String, step: &Step) -> Result<(), AllocError>
    ensures { OnOk result (string_bytes line.new ≡ step_line step.now ++ 10 ∷ []) }
{
    line.clear();
    write_step(line, step)?;
    line.push_str("\n")
}

/// Puts out the line of a step. The text is room for it.
fn put_step<O: Sink>(line: &mut String, step: &Step, out: &mut O) -> Result<(), SinkFault>
    ensures puts { Puts (O.written out.old) (O.written out.new) (step_line step.now ++ 10 ∷ []) (Rose
        (O.faults out.old) (O.faults out.new)) result }
    ensures later { O.faults out.old ≤ O.faults out.new }
    ensures told { O.faults out.old < O.faults out.new → result ≡ Err SinkFault.Failed }
{
    if set_line(line, step).is_err() {
        return Err(SinkFault::NoMemory);
    }
    out.write(line.as_bytes())
}

/// Puts out the lines of steps, one after another, from one small text.
fn put_steps<O: Sink>(alloc: Global, steps: &[Step], out: &mut O) -> Result<(), SinkFault>
    ensures puts { PutsLines (step_lines steps.now) (O.written out.old) (O.written out.new) (Rose (O.faults out.old)
        (O.faults out.new)) result }
    ensures later { O.faults out.old ≤ O.faults out.new }
    ensures told { O.faults out.old < O.faults out.new → result ≡ Err SinkFault.Failed }
{
    let mut line = String::new(alloc);
    for step in steps {
        match put_step(&mut line, step, out) {
            Ok(()) => {}
            Err(fault) => return Err(fault),
        }
    }
    Ok(())
}

/// Puts out the text of a log, line by line.
fn put_log<O: Sink>(alloc: Global, log: &Log, out: &mut O) -> Result<(), SinkFault>
    ensures puts { PutsLines (log_lines log.now) (O.written out.old) (O.written out.new) (Rose (O.faults out.old)
        (O.faults out.new)) result }
    ensures later { O.faults out.old ≤ O.faults out.new }
    ensures told { O.faults out.old < O.faults out.new → result ≡ Err SinkFault.Failed }
{
    match out.write(b"log 1\n") {
        Ok(()) => put_steps(alloc, log.steps(), out),
        Err(fault) => Err(fault),
    }
}

/// The status after a log was put out.
fn log_status(outcome: Result<(), SinkFault>) -> u8
    ensures { result ≡ log_status outcome }
{
    match outcome {
        Ok(()) => 0,
        Err(SinkFault::Failed) => 21,
        Err(SinkFault::NoMemory) => 30,
    }
}

/// Puts out the line of an environment for which no log shows the property.
fn report_other<O: Sink>(
    alloc: Global,
    inputs: &Analysis,
    env: &Env,
    answer: EnvAnswer,
    out: &mut O,
) -> Status
    requires answer { IsAnswer (asked_in inputs.now) env.now answer }
    requires not_shown { verdict_view inputs.now.budget answer ≢ holds }
    ensures reports { Logged (asked_in inputs.now) env.now (O.written out.old) (O.written out.new) (Rose
        (O.faults out.old) (O.faults out.new)) result.code result.spent.items }
    ensures told { O.faults out.old < O.faults out.new → result.code ≡ 21 }
{
    let Ok(text) = line_of(alloc, env, inputs.budget, &answer) else {
        return Status::without_logs(alloc, 30);
    };
    let mut tally = Tally::new(alloc);
    let outcome = put_answer(&mut tally, answer, &text, out);
    Status {
        code: status_after(&tally, outcome),
        spent: tally.spent,
    }
}

/// Puts out the log that shows the property of an environment, or else its line.
fn report_found<O: Sink>(
    alloc: Global,
    inputs: &Analysis,
    env: &Env,
    answer: EnvAnswer,
    out: &mut O,
) -> Status
    requires answer { IsAnswer (asked_in inputs.now) env.now answer }
    requires found { IsFound (asked_in inputs.now) env.now answer }
    ensures reports { Logged (asked_in inputs.now) env.now (O.written out.old) (O.written out.new) (Rose
        (O.faults out.old) (O.faults out.new)) result.code result.spent.items }
    ensures told { O.faults out.old < O.faults out.new → result.code ≡ 21 }
{
    match answer {
        EnvAnswer::Holds(log) => {
            let outcome = put_log(alloc, &log, out);
            Status::without_logs(alloc, log_status(outcome))
        }
        other => report_other(alloc, inputs, env, other, out),
    }
}

/// Writes the log that shows the property of an environment, line by line, or else the line of the
/// environment.
pub fn report_log<O: Sink>(alloc: Global, inputs: &Logging, out: &mut O) -> Status
    requires environment { inputs.now.environment < length (environments inputs.now.analysis.asking.schema) }
    requires allowed { MayBeAsked inputs.now.analysis.asking }
    ensures reports { (env : AnyEnv)
        → slice_get (environments inputs.now.analysis.asking.schema) inputs.now.environment ≡ Some env
        → Logged (asked_in inputs.now.analysis) env (O.written out.old) (O.written out.new) (Rose (O.faults out.old)
        (O.faults out.new)) result.code result.spent.items }
    ensures told { O.faults out.old < O.faults out.new → result.code ≡ 21 }
{
    goal_laws();
    let asking = &inputs.analysis.asking;
    let env = environment_at(&asking.schema, inputs.environment);
    let Ok(query) = query_of(alloc, asking) else {
        return Status::without_logs(alloc, 30);
    };
    match analyse_env(alloc, &asking.schema, env, &query, inputs.analysis.budget) {
        Ok(answer) => report_found(alloc, &inputs.analysis, env, answer, out),
        Err(_) => Status::without_logs(alloc, 30),
    }
}
