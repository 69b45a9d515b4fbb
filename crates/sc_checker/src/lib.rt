//! The checker of logs of a refutation, which trusts nothing but the clauses that define a problem: where it accepts
//! a log, the goal is true in no well-formed world.
#![tactic(auto)]

mod checking;
mod laws;
mod line_checker;
mod steps;
mod stream;

pub use checking::{Reason, Verdict, check};
pub use laws::stream_laws;
pub use sc_clauses::{Instance, Learned, Step, Word};
pub use sc_logs::{Log, Malformed, are_writable, is_writable, read_log, write_log, write_step};
pub use stream::LogChecker;
