//! Reads a log in pieces, and hands them to its checker.
ghost use Rattle.std.specs.Prelude.{◌≡◌, ◌+◌, ◌<◌, ◌≤◌, ℕ, List, [], length, IfErr, IfOk, IfSome, IsSome, OnOk};
ghost use Rattle.sc_inputs.specs.Readings.{FailsWith, IsUnread};
ghost use Rattle.sc_inputs.specs.Refusals.{RefusesLog, log_limit};
ghost use Rattle.sc_outside.specs.Failures.{FailsAt, FailsOn};
ghost use Rattle.sc_outside.specs.Pieces.{IsEnd, behind};
ghost use Rattle.sc_reports.specs.LogReading.{ComesTo, HasRead, HasReadAll, RefusesPiece, SameProblem};

use sc_checker::LogChecker;
use sc_inputs::{FileName, Refusal};
use sc_lists::Fault;
use sc_outside::{FileFault, Files};
use sc_solver::Rules;
use std::alloc::{AllocError, Global};

/// How many bytes a log may have.
const LOG_LIMIT: u64 = 1_073_741_824;

/// How many bytes of a log are read at a time, at most.
const PIECE: u64 = 65_536;

/// The next piece of a log, of which `room` more bytes may come.
fn next_piece<F: Files>(
    alloc: Global,
    files: &mut F,
    room: &mut u64,
) -> Result<Vec<u8>, Fault<Refusal>>
    requires { IsSome (F.left files.old) }
    ensures front { IfOk result (λ piece. F.left files.old ≡ behind piece.items (F.left files.new)) }
    ensures room { IfOk result (λ piece. room.old ≡ room.new + length piece.items) }
    ensures ends { IfOk result (λ piece. length piece.items ≡ 0 → IsEnd (F.left files.old)) }
    ensures fails { IfErr result (FailsWith (RefusesPiece (F.left files.old) room.old
        (FailsOn F.Files files.old files.new))) }
    ensures stays { F.started files.new ≡ F.started files.old }
    ensures keeps { (other : List ℕ) → F.content files.new other ≡ F.content files.old other }
    ensures later { F.faults files.old ≤ F.faults files.new }
    ensures told { F.faults files.old < F.faults files.new → IsUnread result }
{
    match files.more(alloc, PIECE) {
        Ok(piece) => {
            let count = piece.len() as u64;
            if count > *room {
                return Err(Fault::Told(Refusal::TooLong(FileName::Log)));
            }
            *room -= count;
            Ok(piece)
        }
        Err(FileFault::Failed) => Err(Fault::Told(Refusal::ReadFault(FileName::Log))),
        Err(FileFault::TooLong) => Err(Fault::Told(Refusal::TooLong(FileName::Log))),
        Err(FileFault::NoMemory) => Err(Fault::NoMemory),
    }
}

/// Hands a piece on, where a log is checked.
fn feed(checker: &mut Option<LogChecker<'_, '_, Rules>>, piece: &[u8]) -> Result<(), AllocError>
    ensures problem { OnOk result (SameProblem checker.old checker.new) }
    ensures fed { OnOk result (ComesTo checker.old piece.now checker.new []) }
{
    match checker {
        Some(checker) => checker.feed(piece),
        None => Ok(()),
    }
}

/// Reads a log that is started to its end, and checks it where it is checked.
fn read_all<F: Files>(
    alloc: Global,
    files: &mut F,
    checker: &mut Option<LogChecker<'_, '_, Rules>>,
) -> Result<(), Fault<Refusal>>
    requires { IsSome (F.left files.old) }
    ensures problem { OnOk result (SameProblem checker.old checker.new) }
    ensures read { OnOk result (HasReadAll (F.left files.old) checker.old checker.new) }
    ensures fails { IfErr result (FailsWith (RefusesPiece (F.left files.old) log_limit
        (FailsOn F.Files files.old files.new))) }
    ensures keeps { (other : List ℕ) → F.content files.new other ≡ F.content files.old other }
    ensures later { F.faults files.old ≤ F.faults files.new }
    ensures told { F.faults files.old < F.faults files.new → IsUnread result }
{
    let mut room = LOG_LIMIT;
    loop {
        let piece = match next_piece(alloc, files, &mut room) {
            Ok(piece) => piece,
            Err(fault) => return Err(fault),
        };
        if piece.is_empty() {
            return Ok(());
        }
        match feed(checker, &piece) {
            Ok(()) => {}
            Err(_) => return Err(Fault::NoMemory),
        }
    }
}

/// Starts a log, and reads it to its end.
pub(crate) fn read_log<F: Files>(
    alloc: Global,
    files: &mut F,
    name: &str,
    checker: &mut Option<LogChecker<'_, '_, Rules>>,
) -> Result<(), Fault<Refusal>>
    ensures problem { OnOk result (SameProblem checker.old checker.new) }
    ensures read { OnOk result (IfSome (F.content files.old name.now) (HasRead checker.old checker.new)) }
    ensures fails { IfErr result (FailsWith (RefusesLog (F.content files.old) name.now
        (FailsAt F.Files files.old files.new))) }
    ensures later { F.faults files.old ≤ F.faults files.new }
    ensures told { F.faults files.old < F.faults files.new → IsUnread result }
{
    match files.start(alloc, name) {
        Ok(()) => read_all(alloc, files, checker),
        Err(FileFault::Failed) => Err(Fault::Told(Refusal::ReadFault(FileName::Log))),
        Err(FileFault::TooLong) => Err(Fault::Told(Refusal::TooLong(FileName::Log))),
        Err(FileFault::NoMemory) => Err(Fault::NoMemory),
    }
}
