//! How a run ends.
ghost use Rattle.std.specs.Prelude.{◌≡◌, []};

use sc_checker::Log;
use std::alloc::Global;

/// The status of a run, and the logs of the environments that are reported as unknown.
#[derive(Drop)]
pub struct Status {
    /// The status with which the program ends.
    pub code: u8,
    /// The logs, in the order of the environments.
    pub spent: Vec<Log>,
}

impl Status {
    /// A status without logs.
    pub fn without_logs(alloc: Global, code: u8) -> Status
        ensures code { result.code ≡ code }
        ensures spent { result.spent.items ≡ [] }
    {
        Status {
            code,
            spent: Vec::new(alloc),
        }
    }
}
