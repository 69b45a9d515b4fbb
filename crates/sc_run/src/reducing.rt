//! Tells which policies of a set do nothing.
ghost use Rattle.std.specs.Prelude.{◌≡◌, ◌<◌, IfOk};
ghost use Rattle.std.specs.List.{AllByRecursion};
ghost use Rattle.sc_outside.specs.Counts.{Rose};
ghost use Rattle.sc_reduction.specs.Lines.{IsPrintable};
ghost use Rattle.sc_reduction.specs.Reductions.{Asked as AnyAsked, IsReduction};
ghost use Rattle.sc_run.specs.Reduces.{IsReducible, Reduced, code_after, lines_of, to_reduce};

use crate::replaying::put_lines;
use sc_goal::query;
use sc_inputs::Analysis;
use sc_lists::{Seq, Text};
use sc_outside::{Sink, SinkFault};
use sc_question::Question;
use sc_reduction::{Fate, code_of, lines_of, logs_of, reduce};
use sc_reports::Status;
use std::alloc::{AllocError, Global};

/// What becomes of each policy of the first set.
fn fates_of(alloc: Global, inputs: &Analysis) -> Result<Seq<Fate>, AllocError>
    requires allowed { IsReducible inputs.now.asking.schema inputs.now.asking.policies }
    ensures reduction { IfOk result (IsReduction (to_reduce inputs.now.asking.schema inputs.now.asking.policies
        inputs.now.budget)) }
    ensures printable { IfOk result (λ fates. AllByRecursion IsPrintable fates) }
{
    let policies = &inputs.asking.policies;
    let query = query(alloc, Question::Equivalent, policies, Some(policies))?;
    reduce(alloc, &inputs.asking.schema, &query, inputs.budget)
}

/// The status after lines were put out, where it is this one once all are.
fn code_after(whole: u8, outcome: Result<(), SinkFault>) -> u8
    ensures { result ≡ code_after whole outcome }
{
    match outcome {
        Ok(()) => whole,
        Err(SinkFault::Failed) => 21,
        Err(SinkFault::NoMemory) => 30,
    }
}

/// Puts out the lines of a reduction. Gives the status and the logs of the policies for which the budget was spent.
fn report_fates<O: Sink>(alloc: Global, fates: Seq<Fate>, lines: &[Text], out: &mut O) -> Status
    ensures reports { (x : AnyAsked) → IsReduction x fates → lines.now ≡ lines_of x fates
        → Reduced x (O.written out.old) (O.written out.new) (Rose (O.faults out.old) (O.faults out.new)) result.code
        result.spent.items }
    ensures told { O.faults out.old < O.faults out.new → result.code ≡ 21 }
{
    let whole = code_of(fates.as_slice());
    match logs_of(alloc, fates) {
        Ok(spent) => {
            let outcome = put_lines(lines, out);
            Status {
                code: code_after(whole, outcome),
                spent,
            }
        }
        Err(_) => Status::without_logs(alloc, 30),
    }
}

/// Reports what becomes of each policy of the first set.
pub fn report_reduction<O: Sink>(alloc: Global, inputs: &Analysis, out: &mut O) -> Status
    requires allowed { IsReducible inputs.now.asking.schema inputs.now.asking.policies }
    ensures reports { Reduced (to_reduce inputs.now.asking.schema inputs.now.asking.policies inputs.now.budget)
        (O.written out.old) (O.written out.new) (Rose (O.faults out.old) (O.faults out.new)) result.code
        result.spent.items }
    ensures told { O.faults out.old < O.faults out.new → result.code ≡ 21 }
{
    let Ok(fates) = fates_of(alloc, inputs) else {
        return Status::without_logs(alloc, 30);
    };
    match lines_of(
        alloc,
        &inputs.asking.schema,
        inputs.budget,
        fates.as_slice(),
    ) {
        Ok(lines) => report_fates(alloc, fates, lines.as_slice(), out),
        Err(_) => Status::without_logs(alloc, 30),
    }
}
