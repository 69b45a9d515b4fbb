//! Files and a sink in memory, of which the calls of given numbers fail.
ghost use Rattle.std.specs.Prelude.{◌≡◌, ◌≢◌, ◌≤◌, ◌↔◌, ◌⊎◌, ◌++◌, ◌∷◌, ℕ, List, [], length, Some, None, Err, Contains, IfOk, IfSome, IsSome, OnErr, OnOk, unwrap_or};
ghost use Rattle.sc_outside.specs.Counts.{Counts, CountsFailure, next_count};
ghost use Rattle.sc_outside.specs.Memory.{content_in, kept_of, KeepsOf};
ghost use Rattle.sc_outside.specs.Pieces.{IsPiece, Starts, StartsAt, Takes, left_in, started_in};
ghost use Rattle.sc_outside.specs.Reads.{Reads, TellsFailed, failed_in};
ghost use Rattle.sc_outside.specs.Writes.{Writes, all_told};

use crate::count::FaultCount;
use crate::failures::{Failures, kept_name};
use crate::faults::{FileFault, SinkFault};
use crate::started::Started;
use crate::traits::{Files, Sink};
use std::alloc::{AllocError, Global};
use std::collections::BTreeMap;

/// Files in memory. A call for a name that isn't among them fails, as do the calls of given numbers.
#[derive(Drop)]
pub struct MemFiles {
    files: BTreeMap<String, Vec<u8>>,
    failing: Vec<u64>,
    calls: u64,
    failures: Failures,
    started: Option<Started>,
}

impl MemFiles {
    /// These files, each with its bytes. The calls whose number, counted from 0, is in `failing` fail.
    pub fn new(files: BTreeMap<String, Vec<u8>>, failing: Vec<u64>) -> MemFiles
        ensures content { (name : List ℕ) → ⟦<MemFiles as Files>⟧.content result name ≡ content_in files name }
        ensures failing { result.failing ≡ failing }
        ensures calls { result.calls ≡ 0 }
        ensures faults { ⟦<MemFiles as Files>⟧.faults result ≡ 0 }
        ensures failed { ⟦<MemFiles as Files>⟧.failed result ≡ None }
        ensures left { ⟦<MemFiles as Files>⟧.left result ≡ None }
    {
        MemFiles {
            files,
            failing,
            calls: 0,
            failures: Failures::new(),
            started: None,
        }
    }
}

impl Files for MemFiles {
    ghost content = { λ s name. content_in s.files name };

    ghost started = { λ s. started_in s.started };

    ghost left = { λ s. left_in (content_in s.files) s.started };

    ghost faults = { λ s. s.failures.faults.count };

    ghost failed = { λ s. failed_in s.failures };

    ghost bounded = { λ s. s.failures.faults.within };

    #[tactic(auto, using(crate::proofs::FailureLaws::last_kept))]
    fn read(&mut self, alloc: Global, name: &str, limit: u64) -> Result<Vec<u8>, FileFault>
        ensures told { IfSome (content_in self.old.files name.now) (λ bytes. Reads bytes limit result) }
        ensures within { IfOk result (λ bytes. length bytes.items ≤ limit) }
        ensures keeps { (other : List ℕ) → content_in self.new.files other ≡ content_in self.old.files other }
        ensures stays { started_in self.new.started ≡ started_in self.old.started }
        ensures leaves { left_in (content_in self.new.files) self.new.started
            ≡ left_in (content_in self.old.files) self.old.started }
        ensures counts { Counts self.old.failures.faults.count self.new.failures.faults.count
            (result ≡ Err FileFault.Failed) }
        ensures tells { TellsFailed (failed_in self.old.failures) (failed_in self.new.failures) (Some name.now) result }

        // It fails exactly where it is told to, or the name isn't there.
        ensures fails { (result ≡ Err FileFault.Failed)
            ↔ ((Contains self.old.failing.items self.old.calls) ⊎ (content_in self.old.files name.now ≡ None)) }
        ensures counts_failure { CountsFailure self.old.failures.faults.count self.new.failures.faults.count
            (result ≡ Err FileFault.Failed) }
        ensures failing { self.new.failing ≡ self.old.failing }
        ensures calls { self.new.calls ≡ next_count self.old.calls }
    {
        let call = self.calls;
        self.calls = call.saturating_add(1);
        if self.failing.contains(&call) {
            self.failures.add(kept_name(alloc, name));
            return Err(FileFault::Failed);
        }
        match self.files.get(name) {
            Some(bytes) => copy_within(alloc, bytes, limit),
            None => {
                self.failures.add(kept_name(alloc, name));
                Err(FileFault::Failed)
            }
        }
    }

    #[tactic(auto, using(crate::proofs::FailureLaws::last_kept))]
    fn start(&mut self, alloc: Global, name: &str) -> Result<(), FileFault>
        ensures starts { Starts (content_in self.old.files name.now)
            (left_in (content_in self.old.files) self.old.started)
            (left_in (content_in self.new.files) self.new.started) result }
        ensures starts_at { StartsAt name.now (started_in self.old.started) (started_in self.new.started) result }
        ensures never_long { result ≢ Err FileFault.TooLong }
        ensures keeps { (other : List ℕ) → content_in self.new.files other ≡ content_in self.old.files other }
        ensures counts { Counts self.old.failures.faults.count self.new.failures.faults.count
            (result ≡ Err FileFault.Failed) }
        ensures tells { TellsFailed (failed_in self.old.failures) (failed_in self.new.failures) (Some name.now) result }

        // It fails exactly where it is told to, or the name isn't there.
        ensures fails { (result ≡ Err FileFault.Failed)
            ↔ ((Contains self.old.failing.items self.old.calls) ⊎ (content_in self.old.files name.now ≡ None)) }
        ensures counts_failure { CountsFailure self.old.failures.faults.count self.new.failures.faults.count
            (result ≡ Err FileFault.Failed) }
        ensures failing { self.new.failing ≡ self.old.failing }
        ensures calls { self.new.calls ≡ next_count self.old.calls }
    {
        let call = self.calls;
        self.calls = call.saturating_add(1);
        if self.failing.contains(&call) {
            self.failures.add(kept_name(alloc, name));
            return Err(FileFault::Failed);
        }
        match self.files.get(name) {
            Some(_) => {
                self.started = Some(Started::new(String::from_str(alloc, name)?));
                Ok(())
            }
            None => {
                self.failures.add(kept_name(alloc, name));
                Err(FileFault::Failed)
            }
        }
    }

    #[tactic(auto, using(crate::proofs::FailureLaws::last_kept))]
    fn more(&mut self, alloc: Global, max: u64) -> Result<Vec<u8>, FileFault>
        requires is_started { IsSome (left_in (content_in self.old.files) self.old.started) }
        requires some { 1 ≤ max }
        ensures takes { Takes (left_in (content_in self.old.files) self.old.started)
            (left_in (content_in self.new.files) self.new.started) max result }
        ensures stays { started_in self.new.started ≡ started_in self.old.started }
        ensures never_long { result ≢ Err FileFault.TooLong }
        ensures keeps { (other : List ℕ) → content_in self.new.files other ≡ content_in self.old.files other }
        ensures counts { Counts self.old.failures.faults.count self.new.failures.faults.count
            (result ≡ Err FileFault.Failed) }
        ensures tells { TellsFailed (failed_in self.old.failures) (failed_in self.new.failures)
            (started_in self.old.started) result }

        // It fails exactly where it is told to.
        ensures fails { (result ≡ Err FileFault.Failed) ↔ Contains self.old.failing.items self.old.calls }
        ensures counts_failure { CountsFailure self.old.failures.faults.count self.new.failures.faults.count
            (result ≡ Err FileFault.Failed) }
        ensures failing { self.new.failing ≡ self.old.failing }
        ensures calls { self.new.calls ≡ next_count self.old.calls }
    {
        let call = self.calls;
        self.calls = call.saturating_add(1);
        let Some(file) = &self.started else {
            return Ok(Vec::new(alloc));
        };
        if self.failing.contains(&call) {
            self.failures.add(kept_name(alloc, file.name()));
            return Err(FileFault::Failed);
        }
        Ok(next_piece(alloc, &self.files, &mut self.started, max)?)
    }
}

/// The bytes of a file, of which there are none where there is no such file.
pub(crate) fn bytes_in<'a>(files: &'a BTreeMap<String, Vec<u8>>, name: &str) -> &'a [u8]
    ensures { result.now ≡ unwrap_or (content_in files.now name.now) [] }
{
    match files.get(name) {
        Some(bytes) => bytes,
        None => &[],
    }
}

/// The next bytes of the file that was started.
fn next_piece(
    alloc: Global,
    files: &BTreeMap<String, Vec<u8>>,
    started: &mut Option<Started>,
    max: u64,
) -> Result<Vec<u8>, AllocError>
    requires { 1 ≤ max }
    ensures piece { IfOk result (λ piece. IsPiece (left_in (content_in files.now) started.old)
        (left_in (content_in files.now) started.new) max piece.items) }
    ensures kept { OnErr result (left_in (content_in files.now) started.new
        ≡ left_in (content_in files.now) started.old) }
    ensures stays { started_in started.new ≡ started_in started.old }
{
    let Some(file) = started else {
        return Ok(Vec::new(alloc));
    };
    match files.get(file.name()) {
        Some(bytes) => file.take(alloc, bytes, max),
        None => Ok(Vec::new(alloc)),
    }
}

/// A copy of the bytes of a file, unless there are more than `limit`.
pub(crate) fn copy_within(alloc: Global, bytes: &[u8], limit: u64) -> Result<Vec<u8>, FileFault>
    ensures read { Reads bytes.now limit result }
    ensures never_fails { result ≢ Err FileFault.Failed }
{
    if bytes.len() as u64 > limit {
        return Err(FileFault::TooLong);
    }
    Ok(Vec::from_slice(alloc, bytes)?)
}

/// A sink in memory. Of the calls of given numbers only a front of the piece is kept.
#[derive(Drop)]
pub struct MemSink {
    written: Vec<u8>,
    /// How long each piece is that was written.
    lengths: Vec<usize>,
    failing: Vec<(u64, usize)>,
    calls: u64,
    faults: FaultCount,
}

impl MemSink {
    /// An empty sink. A call whose number, counted from 0, is in `failing` fails, and keeps at most as
    /// many bytes as stand beside its number there.
    pub fn new(alloc: Global, failing: Vec<(u64, usize)>) -> MemSink
        ensures written { ⟦<MemSink as Sink>⟧.written result ≡ all_told [] [] }
        ensures failing { result.failing ≡ failing }
        ensures calls { result.calls ≡ 0 }
        ensures faults { ⟦<MemSink as Sink>⟧.faults result ≡ 0 }
    {
        MemSink {
            written: Vec::new(alloc),
            lengths: Vec::new(alloc),
            failing,
            calls: 0,
            faults: FaultCount::new(),
        }
    }

    /// All that was written.
    pub fn text(&self) -> &[u8]
        ensures { (⟦<MemSink as Sink>⟧.written self.now).text ≡ Some result.now }
    {
        &self.written
    }

    /// How long each piece is that was written, one after another.
    pub fn lengths(&self) -> &[usize]
        ensures { (⟦<MemSink as Sink>⟧.written self.now).lengths ≡ Some result.now }
    {
        &self.lengths
    }

    /// Writes a piece behind all that was written. Where memory runs out nothing is.
    fn append(&mut self, piece: &[u8]) -> Result<(), AllocError>
        ensures text { OnOk result (self.new.written.items ≡ self.old.written.items ++ piece.now) }
        ensures lengths { OnOk result (self.new.lengths.items ≡ self.old.lengths.items ++ length piece.now ∷ []) }
        ensures kept_text { OnErr result (self.new.written.items ≡ self.old.written.items) }
        ensures kept_lengths { OnErr result (self.new.lengths.items ≡ self.old.lengths.items) }
        ensures failing { self.new.failing ≡ self.old.failing }
        ensures calls { self.new.calls ≡ self.old.calls }
        ensures faults { self.new.faults ≡ self.old.faults }
    {
        self.lengths.push(piece.len())?;
        if self.written.extend_from_slice(piece).is_err() {
            let _length = self.lengths.pop();
            return Err(AllocError);
        }
        Ok(())
    }
}

impl Sink for MemSink {
    ghost written = { λ s. all_told s.written.items s.lengths.items };

    ghost faults = { λ s. s.faults.count };

    ghost bounded = { λ s. s.faults.within };

    #[tactic(auto, using(crate::proofs::WriteLaws::told_more, crate::proofs::WriteLaws::told_front, crate::proofs::WriteLaws::told_same))]
    fn write(&mut self, piece: &[u8]) -> Result<(), SinkFault>
        ensures text { Writes (all_told self.old.written.items self.old.lengths.items)
            (all_told self.new.written.items self.new.lengths.items) piece.now result }
        ensures counts { Counts self.old.faults.count self.new.faults.count (result ≡ Err SinkFault.Failed) }

        // It fails exactly where it is told to.
        ensures kept { KeepsOf (kept_of self.old.failing.items self.old.calls)
            self.old.written.items self.new.written.items piece.now result }
        ensures counts_failure { CountsFailure self.old.faults.count self.new.faults.count
            (result ≡ Err SinkFault.Failed) }
        ensures failing { self.new.failing ≡ self.old.failing }
        ensures calls { self.new.calls ≡ next_count self.old.calls }
    {
        let call = self.calls;
        self.calls = call.saturating_add(1);
        let Some(kept) = kept_by(&self.failing, call) else {
            self.append(piece)?;
            return Ok(());
        };
        let front = &piece[..kept.min(piece.len())];
        self.append(front)?;
        self.faults.raise();
        Err(SinkFault::Failed)
    }
}

/// How many bytes the call of a number keeps, where it fails.
fn kept_by(failing: &[(u64, usize)], call: u64) -> Option<usize>
    ensures { result ≡ kept_of failing.now call }
{
    let (_, kept) = failing.iter().find(|(number, _)| *number == call)?;
    Some(*kept)
}
