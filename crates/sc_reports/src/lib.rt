//! Reports on environments: what is found of each, the log that shows it, and what a log that was kept shows.
#![tactic(auto)]

mod analysing;
mod claims;
mod environment;
mod laws;
mod line;
mod log_reading;
mod logging;
mod reporting;
mod saying;
mod status;
mod tally;

pub use analysing::{EnvAnswer, analyse_env};
pub use claims::{Answer, check_claim};
pub use laws::verdict_law;
pub use logging::report_log;
pub use reporting::report;
pub use saying::put_said;
pub use status::Status;
