//! Logs of a refutation and their text: what is written of a log, the log that bytes are the text of, and the
//! lines of a text one by one.
#![tactic(auto)]

mod cutting;
mod line_words;
mod lines;
mod log;
mod numbers;
mod reading;
mod whole_lines;
mod words;
mod writing;

pub use lines::{Room, read_instance, read_learned};
pub use log::{Log, are_writable, is_writable};
pub use reading::{Malformed, cut_line, read_log};
pub use whole_lines::read_whole;
pub use writing::{write_log, write_step};
