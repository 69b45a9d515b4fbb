//! What is counted of the lines of a report.
ghost use Rattle.std.specs.Prelude.{◌≡◌};
ghost use Rattle.sc_reports.specs.Progress.{IsFresh};
ghost use Rattle.sc_reports.specs.Reports.{status_by};

use sc_checker::Log;
use std::alloc::Global;

/// What is counted of the lines of a report.
#[derive(Drop)]
pub struct Tally {
    /// Whether one is a counterexample.
    pub counterexample: bool,
    /// Whether one tells neither that nor that the property holds.
    pub undecided: bool,
    /// The logs of the lines that say `unknown`, in their order.
    pub spent: Vec<Log>,
}

impl Tally {
    /// Of no lines.
    pub fn new(alloc: Global) -> Tally
        ensures { IsFresh result }
    {
        Tally {
            counterexample: false,
            undecided: false,
            spent: Vec::new(alloc),
        }
    }

    /// The status of a whole report.
    pub fn status(&self) -> u8
        ensures { result ≡ status_by self.now.counterexample self.now.undecided }
    {
        if self.counterexample {
            1
        } else if self.undecided {
            2
        } else {
            0
        }
    }
}
