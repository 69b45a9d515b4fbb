//! The files and the standard output of the system. Nothing is told of their bytes.
ghost use Rattle.std.specs.Prelude.{◌≡◌, ◌≢◌, ◌≤◌, length, option_map, string_bytes, Err, None, Some, IfOk};
ghost use Rattle.sc_outside.specs.Counts.{Counts, CountsFailure};
ghost use Rattle.sc_outside.specs.Pieces.{IsNextPiece, Takes, untold_left};
ghost use Rattle.sc_outside.specs.Reads.{TellsFailed, failed_in};
ghost use Rattle.sc_outside.specs.Writes.{Writes, untold};

use crate::count::FaultCount;
use crate::failures::{Failures, kept_name};
use crate::faults::{FileFault, SinkFault};
use crate::reading::{bytes_of, fault_of, piece_of};
use crate::traits::{Files, Sink};
use std::alloc::Global;
use std::fs::File;
use std::io::Read;
use std::rt;

/// A file that was started, and its name.
#[derive(Drop)]
struct OpenFile<F> {
    name: String,
    file: F,
}

impl<F: Read> OpenFile<F> {
    /// Its next bytes, at most `max` of them.
    fn next_piece(&mut self, alloc: Global, max: u64) -> Result<Vec<u8>, FileFault>
        ensures piece { IfOk result (λ piece. IsNextPiece (F.remaining self.old.file) (F.remaining self.new.file)
            max piece.items) }
        ensures never_long { result ≢ Err FileFault.TooLong }
        ensures name { self.new.name ≡ self.old.name }
    {
        piece_of(&mut self.file, alloc, max)
    }
}

/// The files of the system.
#[derive(Drop)]
pub struct RealFiles<'a, R: rt::Files> {
    rt: &'a R,
    failures: Failures,
    started: Option<OpenFile<R::File>>,
}

impl<'a, R: rt::Files> RealFiles<'a, R> {
    /// The files that this runtime opens.
    pub fn new(rt: &'a R) -> RealFiles<'a, R>
        ensures faults { ⟦<RealFiles<'a, R> as Files>⟧.faults result ≡ 0 }
        ensures failed { ⟦<RealFiles<'a, R> as Files>⟧.failed result ≡ None }
        ensures left { ⟦<RealFiles<'a, R> as Files>⟧.left result ≡ None }
    {
        RealFiles {
            rt,
            failures: Failures::new(),
            started: None,
        }
    }
}

impl<R: rt::Files> Files for RealFiles<'_, R> {
    ghost content = { λ _ _. None };

    ghost started = { λ s. option_map (λ file. string_bytes file.name) s.started };

    ghost left = { λ s. untold_left s.started };

    ghost faults = { λ s. s.failures.faults.count };

    ghost failed = { λ s. failed_in s.failures };

    ghost bounded = { λ s. s.failures.faults.within };

    #[tactic(auto, using(crate::proofs::FailureLaws::last_kept))]
    fn read(&mut self, alloc: Global, name: &str, limit: u64) -> Result<Vec<u8>, FileFault>
        ensures within { IfOk result (λ bytes. length bytes.items ≤ limit) }
        ensures stays { option_map (λ file. string_bytes file.name) self.new.started
            ≡ option_map (λ file. string_bytes file.name) self.old.started }
        ensures leaves { untold_left self.new.started ≡ untold_left self.old.started }
        ensures counts { Counts self.old.failures.faults.count self.new.failures.faults.count
            (result ≡ Err FileFault.Failed) }
        ensures tells { TellsFailed (failed_in self.old.failures) (failed_in self.new.failures) (Some name.now) result }
        ensures counts_failure { CountsFailure self.old.failures.faults.count self.new.failures.faults.count
            (result ≡ Err FileFault.Failed) }
    {
        let read = whole_file(self.rt, alloc, name, limit);
        if matches!(&read, Err(FileFault::Failed)) {
            self.failures.add(kept_name(alloc, name));
        }
        read
    }

    #[tactic(auto, using(crate::proofs::FailureLaws::last_kept))]
    fn start(&mut self, alloc: Global, name: &str) -> Result<(), FileFault> {
        match File::open(self.rt, name) {
            Ok(file) => {
                let name = String::from_str(alloc, name)?;
                self.started = Some(OpenFile { name, file });
                Ok(())
            }
            Err(error) => {
                let fault = fault_of(&error);
                if fault == FileFault::Failed {
                    self.failures.add(kept_name(alloc, name));
                }
                Err(fault)
            }
        }
    }

    #[tactic(auto, using(crate::proofs::FailureLaws::last_kept))]
    fn more(&mut self, alloc: Global, max: u64) -> Result<Vec<u8>, FileFault> {
        let Some(file) = &self.started else {
            return Ok(Vec::new(alloc));
        };
        let kept = kept_name(alloc, &file.name);
        let piece = started_piece(alloc, &mut self.started, max);
        if matches!(&piece, Err(FileFault::Failed)) {
            self.failures.add(kept);
        }
        piece
    }
}

/// The next bytes of the file that was started, at most `max` of them.
fn started_piece<F: Read>(
    alloc: Global,
    started: &mut Option<OpenFile<F>>,
    max: u64,
) -> Result<Vec<u8>, FileFault>
    ensures takes { Takes (untold_left started.old) (untold_left started.new) max result }
    ensures never_long { result ≢ Err FileFault.TooLong }
    ensures stays { option_map (λ file. string_bytes file.name) started.new
        ≡ option_map (λ file. string_bytes file.name) started.old }
{
    let Some(file) = started else {
        return Ok(Vec::new(alloc));
    };
    file.next_piece(alloc, max)
}

/// All bytes of the file of a name.
fn whole_file<R: rt::Files>(
    rt: &R,
    alloc: Global,
    name: &str,
    limit: u64,
) -> Result<Vec<u8>, FileFault>
    ensures within { IfOk result (λ bytes. length bytes.items ≤ limit) }
{
    match File::open(rt, name) {
        Ok(mut file) => bytes_of(&mut file, alloc, limit),
        Err(error) => Err(fault_of(&error)),
    }
}

/// The standard output. No buffer keeps a piece back: each call hands it to the system.
#[derive(Drop)]
pub struct RealSink<'a, R> {
    rt: &'a R,
    faults: FaultCount,
}

impl<'a, R: Print> RealSink<'a, R> {
    /// The standard output of this runtime.
    pub fn new(rt: &'a R) -> RealSink<'a, R>
        ensures faults { ⟦<RealSink<'a, R> as Sink>⟧.faults result ≡ 0 }
    {
        RealSink {
            rt,
            faults: FaultCount::new(),
        }
    }
}

impl<R: Print> Sink for RealSink<'_, R> {
    ghost written = { λ _. untold };

    ghost faults = { λ s. s.faults.count };

    ghost bounded = { λ s. s.faults.within };

    /// Writes until all is written, again where a write was interrupted. A write that takes nothing
    /// is a failure.
    #[tactic(auto, unfolding(crate::specs::Writes::appended))]
    fn write(&mut self, piece: &[u8]) -> Result<(), SinkFault>
        ensures text { Writes untold untold piece.now result }
        ensures counts { Counts self.old.faults.count self.new.faults.count (result ≡ Err SinkFault.Failed) }
        ensures counts_failure { CountsFailure self.old.faults.count self.new.faults.count
            (result ≡ Err SinkFault.Failed) }
    {
        if self.rt.write_all(piece).is_err() {
            self.faults.raise();
            return Err(SinkFault::Failed);
        }
        Ok(())
    }
}
