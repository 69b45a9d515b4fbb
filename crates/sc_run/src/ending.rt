//! The status with which the process of a run ends.
ghost use Rattle.std.specs.Prelude.{◌≡◌, List, drop, IfOk, OnErr};
ghost use Rattle.std.specs.Process.{exit_status};
ghost use Rattle.sc_clauses.specs.declared.step.Step.{Step as AnyStep};
ghost use Rattle.sc_run.specs.Promises.{Promises};
ghost use Rattle.sc_run.specs.Runs.{run_of};

use crate::running::run;
use sc_outside::{Files, Sink};
use std::alloc::{AllocError, Global};
use std::process::ExitCode;

/// Does all that the program does, and gives the status of the run as that of the process. The words are those of
/// the command line, of which the first is the name of the program; all others are those of the run. Where no memory
/// held them the status is 30.
pub fn exit_code<F: Files, O: Sink>(
    alloc: Global,
    words: &Result<Vec<String>, AllocError>,
    files: &mut F,
    out: &mut O,
) -> ExitCode
    ensures runs { IfOk words.now (λ all. (logs : List (List AnyStep)) × Promises (run_of F.Files O.Sink
        files.old files.new out.old out.new (drop 1 all.items) (exit_status result)) logs) }
    ensures no_memory { OnErr words.now (exit_status result ≡ 30) }
{
    match words {
        Ok(all) => ExitCode::from(run(alloc, behind_first(all), files, out).code),
        Err(_) => ExitCode::from(30),
    }
}

/// All of these words but the first, in their order.
fn behind_first(words: &[String]) -> &[String]
    ensures { result.now ≡ drop 1 words.now }
{
    match words.split_first() {
        Some((_program, rest)) => rest,
        None => &[],
    }
}
