//! What lies outside the program: named files, and a place to write to.
//!
//! `Files` tells what a file holds and `Sink` what was written, where that can be told: of files and
//! a sink in memory it is, of those of the system nothing is. Either way a failure is answered where
//! a count of faults rose in that call, and only there; and it is told at which file a call failed last.
#![tactic(auto)]

mod count;
mod failures;
mod faults;
mod memory;
mod never_fails;
mod reading;
mod started;
mod system;
mod traits;
mod words;

pub use faults::{FileFault, SinkFault};
pub use memory::{MemFiles, MemSink};
pub use never_fails::NeverFails;
pub use reading::{bytes_of, piece_of};
pub use system::{RealFiles, RealSink};
pub use traits::{Files, Sink};
pub use words::arguments;
