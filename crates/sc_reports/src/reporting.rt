//! Reports on the environments of a schema, one after another.
ghost use Rattle.std.specs.Prelude.{◌≡◌, ◌≢◌, ◌<◌, ◌≤◌, [], ◌∷◌, true, false, Contains, Err, IfOk};
ghost use Rattle.sc_outside.specs.Counts.{Rose};
ghost use Rattle.sc_schema.specs.Declarations.{environments};
ghost use Rattle.sc_reports.specs.Analyses.{asked_in, IsQueryOf, MayBeAsked};
ghost use Rattle.sc_reports.specs.Progress.{IsFresh, PutsCounted, ReportsEnv, ReportsAll, ReportsNone, Reported, status_after};
ghost use Rattle.sc_reports.specs.Reports.{is_counterexample, is_open, log_of};
ghost use Rattle.sc_reports.specs.View.{verdict_view};

use crate::analysing::{EnvAnswer, analyse_env};
use crate::line::line_of;
use crate::status::Status;
use crate::tally::Tally;
use sc_checker::Log;
use sc_goal::{Query, goal_laws, query};
use sc_inputs::{Analysis, Asking};
use sc_outside::{Sink, SinkFault};
use sc_schema::{Env, environments};
use std::alloc::{AllocError, Global};

/// Puts out the line of an environment whose log is one more.
fn put_spent<O: Sink>(
    tally: &mut Tally,
    log: Log,
    text: &[u8],
    out: &mut O,
) -> Result<(), SinkFault>
    ensures puts { PutsCounted tally.old tally.new false true (log ∷ []) (O.written out.old)
        (O.written out.new) text.now (Rose (O.faults out.old) (O.faults out.new)) result }
    ensures later { O.faults out.old ≤ O.faults out.new }
    ensures told { O.faults out.old < O.faults out.new → result ≡ Err SinkFault.Failed }
{
    if tally.spent.push(log).is_err() {
        return Err(SinkFault::NoMemory);
    }
    match out.write(text) {
        Ok(()) => {
            tally.undecided = true;
            Ok(())
        }
        Err(fault) => {
            let _log = tally.spent.pop();
            Err(fault)
        }
    }
}

/// Puts out the line of an environment, and counts it.
pub(crate) fn put_answer<O: Sink>(
    tally: &mut Tally,
    answer: EnvAnswer,
    text: &[u8],
    out: &mut O,
) -> Result<(), SinkFault>
    ensures puts { PutsCounted tally.old tally.new (is_counterexample (verdict_view 0 answer)) (is_open
        (verdict_view 0 answer)) (log_of (verdict_view 0 answer)) (O.written out.old) (O.written out.new) text.now
        (Rose (O.faults out.old) (O.faults out.new)) result }
    ensures later { O.faults out.old ≤ O.faults out.new }
    ensures told { O.faults out.old < O.faults out.new → result ≡ Err SinkFault.Failed }
{
    match answer {
        EnvAnswer::Holds(_) => out.write(text),
        EnvAnswer::Violated(_) => put_counterexample(tally, text, out),
        EnvAnswer::Spent(log) => put_spent(tally, log, text, out),
        EnvAnswer::OverLimit => put_open(tally, text, out),
    }
}

/// Puts out the line of a counterexample.
fn put_counterexample<O: Sink>(tally: &mut Tally, text: &[u8], out: &mut O) -> Result<(), SinkFault>
    ensures puts { PutsCounted tally.old tally.new true false [] (O.written out.old) (O.written out.new) text.now (Rose
        (O.faults out.old) (O.faults out.new)) result }
    ensures later { O.faults out.old ≤ O.faults out.new }
    ensures told { O.faults out.old < O.faults out.new → result ≡ Err SinkFault.Failed }
{
    match out.write(text) {
        Ok(()) => {
            tally.counterexample = true;
            Ok(())
        }
        Err(fault) => Err(fault),
    }
}

/// Puts out the line of an environment that is too large.
fn put_open<O: Sink>(tally: &mut Tally, text: &[u8], out: &mut O) -> Result<(), SinkFault>
    ensures puts { PutsCounted tally.old tally.new false true [] (O.written out.old) (O.written out.new) text.now (Rose
        (O.faults out.old) (O.faults out.new)) result }
    ensures later { O.faults out.old ≤ O.faults out.new }
    ensures told { O.faults out.old < O.faults out.new → result ≡ Err SinkFault.Failed }
{
    match out.write(text) {
        Ok(()) => {
            tally.undecided = true;
            Ok(())
        }
        Err(fault) => Err(fault),
    }
}

/// Analyses an environment, puts out its line and counts it.
fn report_env<O: Sink>(
    alloc: Global,
    inputs: &Analysis,
    query: &Query<'_>,
    env: &Env,
    tally: &mut Tally,
    out: &mut O,
) -> Result<(), SinkFault>
    requires environment { Contains (environments inputs.now.asking.schema) env.now }
    requires asked { IsQueryOf inputs.now.asking query.now }
    requires allowed { MayBeAsked inputs.now.asking }
    ensures reports { ReportsEnv (asked_in inputs.now) env.now tally.old tally.new (O.written out.old)
        (O.written out.new) (Rose (O.faults out.old) (O.faults out.new)) result }
    ensures later { O.faults out.old ≤ O.faults out.new }
    ensures told { O.faults out.old < O.faults out.new → result ≡ Err SinkFault.Failed }
{
    goal_laws();
    let Ok(answer) = analyse_env(alloc, &inputs.asking.schema, env, query, inputs.budget) else {
        return Err(SinkFault::NoMemory);
    };
    let Ok(text) = line_of(alloc, env, inputs.budget, &answer) else {
        return Err(SinkFault::NoMemory);
    };
    put_answer(tally, answer, &text, out)
}

/// Reports on environments, one after another, and counts their lines.
fn report_all<O: Sink>(
    alloc: Global,
    inputs: &Analysis,
    query: &Query<'_>,
    envs: &[Env],
    tally: &mut Tally,
    out: &mut O,
) -> Result<(), SinkFault>
    requires environments { envs.now ≡ environments inputs.now.asking.schema }
    requires asked { IsQueryOf inputs.now.asking query.now }
    requires allowed { MayBeAsked inputs.now.asking }
    requires nothing { IsFresh tally.old }
    ensures reports { ReportsAll (asked_in inputs.now) envs.now tally.new (O.written out.old) (O.written out.new) (Rose
        (O.faults out.old) (O.faults out.new)) result }
    ensures later { O.faults out.old ≤ O.faults out.new }
    ensures told { O.faults out.old < O.faults out.new → result ≡ Err SinkFault.Failed }
{
    for env in envs {
        match report_env(alloc, inputs, query, env, tally, out) {
            Ok(()) => {}
            Err(fault) => return Err(fault),
        }
    }
    Ok(())
}

/// The status after environments were reported on.
pub(crate) fn status_after(tally: &Tally, outcome: Result<(), SinkFault>) -> u8
    ensures { result ≡ status_after tally.now outcome }
{
    match outcome {
        Ok(()) => tally.status(),
        Err(SinkFault::Failed) => 21,
        Err(SinkFault::NoMemory) => 30,
    }
}

/// The line of a schema without environments.
fn report_none<O: Sink>(out: &mut O) -> u8
    ensures reports { ReportsNone (O.written out.old) (O.written out.new) (Rose (O.faults out.old)
        (O.faults out.new)) result }
    ensures later { O.faults out.old ≤ O.faults out.new }
    ensures told { O.faults out.old < O.faults out.new → result ≡ 21 }
{
    match out.write(b"no environments\n") {
        Ok(()) => 0,
        Err(SinkFault::Failed) => 21,
        Err(SinkFault::NoMemory) => 30,
    }
}

/// Reports on each of the environments of the schema, of which there are some.
fn report_some<O: Sink>(
    alloc: Global,
    inputs: &Analysis,
    query: &Query<'_>,
    envs: &[Env],
    out: &mut O,
) -> Status
    requires environments { envs.now ≡ environments inputs.now.asking.schema }
    requires some { envs.now ≢ [] }
    requires asked { IsQueryOf inputs.now.asking query.now }
    requires allowed { MayBeAsked inputs.now.asking }
    ensures reports { Reported (asked_in inputs.now) (O.written out.old) (O.written out.new) (Rose (O.faults out.old)
        (O.faults out.new)) result.code result.spent.items }
    ensures told { O.faults out.old < O.faults out.new → result.code ≡ 21 }
{
    let mut tally = Tally::new(alloc);
    let outcome = report_all(alloc, inputs, query, envs, &mut tally, out);
    Status {
        code: status_after(&tally, outcome),
        spent: tally.spent,
    }
}

/// Reports on each environment of the schema.
pub fn report<O: Sink>(alloc: Global, inputs: &Analysis, out: &mut O) -> Status
    requires allowed { MayBeAsked inputs.now.asking }
    ensures reports { Reported (asked_in inputs.now) (O.written out.old) (O.written out.new) (Rose (O.faults out.old)
        (O.faults out.new)) result.code result.spent.items }
    ensures told { O.faults out.old < O.faults out.new → result.code ≡ 21 }
{
    let envs = environments(&inputs.asking.schema);
    if envs.is_empty() {
        return Status::without_logs(alloc, report_none(out));
    }
    match query_of(alloc, &inputs.asking) {
        Ok(query) => report_some(alloc, inputs, &query, envs, out),
        Err(_) => Status::without_logs(alloc, 30),
    }
}

/// The query that the inputs of a command are.
pub(crate) fn query_of(alloc: Global, asking: &Asking) -> Result<Query<'_>, AllocError>
    requires { MayBeAsked asking.now }
    ensures { IfOk result (λ q. IsQueryOf asking.now q) }
{
    query(
        alloc,
        asking.question,
        &asking.policies,
        asking.against.as_ref(),
    )
}
