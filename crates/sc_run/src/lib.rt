//! The symbolic analyser of Cedar policies, as one call: it reads what the words of a command name, does what they ask, and
//! writes the report as it comes.
#![tactic(auto)]

mod ending;
mod generating;
mod reducing;
mod replaying;
mod running;

pub use ending::exit_code;
pub use running::run;
pub use sc_reports::{EnvAnswer, Status, analyse_env};
