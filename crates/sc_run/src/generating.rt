//! Asks a question of generated policies.
ghost use Rattle.std.specs.Prelude.{◌≡◌, ◌≤◌, ◌<◌, ◌++◌, ℕ, IfOk, OnOk};
ghost use Rattle.sc_outside.specs.Counts.{Rose};
ghost use Rattle.sc_reports.specs.Analyses.{MayBeAsked, asked_in};
ghost use Rattle.sc_run.specs.Generates.{IsGenerated, Summed, summary, summary_text};

use sc_generated::generate;
use sc_generated_laws::generated_laws;
use sc_generated_question::{backward_policies, forward_policies, generated_schema};
use sc_generated_typing_laws::generated_typing_laws;
use sc_inputs::put::{put, put_number};
use sc_inputs::{Analysis, Asking};
use sc_outside::{Sink, SinkFault};
use sc_question::Question;
use sc_reports::{Status, report};
use std::alloc::{AllocError, Global};

/// The units of work that each environment may take.
const UNITS: u64 = 1_000_000;

/// Puts the line at the end that says how many policies there are, and how many bytes their text has.
#[tactic(auto, unfolding(crate::specs::Generates::summary_text))]
fn put_summary(out: &mut Vec<u8>, policies: u64, bytes: u64) -> Result<(), AllocError>
    ensures { OnOk result (out.new.items ≡ out.old.items ++ summary_text policies bytes) }
{
    put(out, b"generated ")?;
    put_number(out, policies)?;
    put(out, b" policies, ")?;
    put_number(out, bytes)?;
    put(out, b" bytes\n")
}

/// The line that says how many policies are generated, and how many bytes their text has.
fn summary_of(alloc: Global, size: u64) -> Result<Vec<u8>, AllocError>
    requires size { size ≤ 1000 }
    ensures { IfOk result (λ line. line.items ≡ summary size) }
{
    let texts = generate(alloc, size)?;
    let bytes = texts.forward.as_str().as_bytes().len() as u64;
    let mut line = Vec::new(alloc);
    put_summary(&mut line, size, bytes)?;
    Ok(line)
}

/// What is asked of so many generated policies: whether they are equivalent to the same in reverse order.
fn generated_analysis(alloc: Global, size: u64) -> Result<Analysis, AllocError>
    requires size { size ≤ 1000 }
    ensures asked { IfOk result (λ i. IsGenerated size (asked_in i)) }
    ensures allowed { IfOk result (λ i. MayBeAsked i.asking) }
{
    generated_laws();
    generated_typing_laws();
    let schema = generated_schema(alloc)?;
    let policies = forward_policies(alloc, size)?;
    let others = backward_policies(alloc, size)?;
    Ok(Analysis {
        asking: Asking {
            schema,
            question: Question::Equivalent,
            policies,
            against: Some(others),
        },
        budget: UNITS,
    })
}

/// Puts out the summary of generated policies, and then the report on them as it comes.
fn report_summed<O: Sink>(alloc: Global, line: &[u8], analysis: &Analysis, out: &mut O) -> Status
    requires allowed { MayBeAsked analysis.now.asking }
    ensures reports { (size : ℕ) → line.now ≡ summary size → IsGenerated size (asked_in analysis.now)
        → Summed size (O.written out.old) (O.written out.new) (Rose (O.faults out.old) (O.faults out.new)) result.code
        result.spent.items }
    ensures told { O.faults out.old < O.faults out.new → result.code ≡ 21 }
{
    match out.write(line) {
        Ok(()) => report(alloc, analysis, out),
        Err(SinkFault::Failed) => Status::without_logs(alloc, 21),
        Err(SinkFault::NoMemory) => Status::without_logs(alloc, 30),
    }
}

/// Reports on so many generated policies: how many there are, and then a line for each environment.
pub fn report_generated<O: Sink>(alloc: Global, size: u64, out: &mut O) -> Status
    requires size { size ≤ 1000 }
    ensures reports { Summed size (O.written out.old) (O.written out.new) (Rose (O.faults out.old)
        (O.faults out.new)) result.code result.spent.items }
    ensures told { O.faults out.old < O.faults out.new → result.code ≡ 21 }
{
    let Ok(line) = summary_of(alloc, size) else {
        return Status::without_logs(alloc, 30);
    };
    match generated_analysis(alloc, size) {
        Ok(analysis) => report_summed(alloc, &line, &analysis, out),
        Err(_) => Status::without_logs(alloc, 30),
    }
}
