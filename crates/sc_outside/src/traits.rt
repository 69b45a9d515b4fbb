//! What the program reads from, and what it writes to.
ghost use Rattle.std.specs.Prelude.{◌≡◌, ◌≢◌, ◌≤◌, ℕ, List, length, Option, Some, Err, IfOk, IfSome, IsSome};
ghost use Rattle.sc_outside.specs.Counts.{Counts, last_count};
ghost use Rattle.sc_outside.specs.Pieces.{Left, Starts, StartsAt, Takes};
ghost use Rattle.sc_outside.specs.Reads.{Reads, TellsFailed};
ghost use Rattle.sc_outside.specs.Writes.{Writes, Written};

use crate::faults::{FileFault, SinkFault};
use std::alloc::Global;

/// Named files.
pub trait Files {
    /// What the file of a name holds, where that is told.
    ghost content: { Self → List ℕ → Option (List ℕ) };

    /// The name of the file that was started, where one was.
    ghost started: { Self → Option (List ℕ) };

    /// What is left of the file that was started, where one was, as far as that is told.
    ghost left: { Self → Left };

    /// How often the source failed, up to 18446744073709551615.
    ghost faults: { Self → ℕ };

    /// The name of the file of the call that failed last, where one failed and that is told.
    ghost failed: { Self → Option (List ℕ) };

    /// All bytes of a file, which may have `limit` of them.
    ///
    /// `TooLong` comes where it has more, and `Failed` where the source failed in this call: no failure is passed over.
    fn read(&mut self, alloc: Global, name: &str, limit: u64) -> Result<Vec<u8>, FileFault>
        ensures told { IfSome (content self.old name.now) (λ bytes. Reads bytes limit result) }
        ensures within { IfOk result (λ bytes. length bytes.items ≤ limit) }
        ensures keeps { (other : List ℕ) → content self.new other ≡ content self.old other }
        ensures stays { started self.new ≡ started self.old }
        ensures leaves { left self.new ≡ left self.old }
        ensures counts { Counts (faults self.old) (faults self.new) (result ≡ Err FileFault.Failed) }
        ensures tells { TellsFailed (failed self.old) (failed self.new) (Some name.now) result };

    /// Starts a file, which is then read in pieces. One that was started before isn't read on.
    fn start(&mut self, alloc: Global, name: &str) -> Result<(), FileFault>
        ensures starts { Starts (content self.old name.now) (left self.old) (left self.new) result }
        ensures starts_at { StartsAt name.now (started self.old) (started self.new) result }
        ensures never_long { result ≢ Err FileFault.TooLong }
        ensures keeps { (other : List ℕ) → content self.new other ≡ content self.old other }
        ensures counts { Counts (faults self.old) (faults self.new) (result ≡ Err FileFault.Failed) }
        ensures tells { TellsFailed (failed self.old) (failed self.new) (Some name.now) result };

    /// The next bytes of the file that was started, at most `max` of them. None are its end.
    fn more(&mut self, alloc: Global, max: u64) -> Result<Vec<u8>, FileFault>
        requires is_started { IsSome (left self.old) }
        requires some { 1 ≤ max }
        ensures takes { Takes (left self.old) (left self.new) max result }
        ensures stays { started self.new ≡ started self.old }
        ensures never_long { result ≢ Err FileFault.TooLong }
        ensures keeps { (other : List ℕ) → content self.new other ≡ content self.old other }
        ensures counts { Counts (faults self.old) (faults self.new) (result ≡ Err FileFault.Failed) }
        ensures tells { TellsFailed (failed self.old) (failed self.new) (started self.old) result };

    /// A count stands still at its last value.
    ghost bounded: { (s : Self) → faults s ≤ last_count };
}

/// A place to write to.
pub trait Sink {
    /// What was written, one piece after another: all of it, and how long each piece is, where that is told.
    ghost written: { Self → Written };

    /// How often the sink failed, up to 18446744073709551615.
    ghost faults: { Self → ℕ };

    /// Writes a piece behind all that was written.
    ///
    /// `Failed` comes where the sink failed in this call, and then a front of the piece may have been written: no
    /// failure is passed over. Where memory runs out nothing was.
    fn write(&mut self, piece: &[u8]) -> Result<(), SinkFault>
        ensures text { Writes (written self.old) (written self.new) piece.now result }
        ensures counts { Counts (faults self.old) (faults self.new) (result ≡ Err SinkFault.Failed) };

    /// A count stands still at its last value.
    ghost bounded: { (s : Self) → faults s ≤ last_count };
}
