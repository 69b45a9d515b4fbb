//! What a world does: whether it is well-formed, or what keeps it from that, first of all; what each policy answers
//! in it, and what the policies decide, as lines.
#![tactic(auto)]

mod answers;
mod break_lines;
mod breaks;
mod decisions;
mod report;
mod sound;

pub use breaks::{Break, break_laws, first_break};
pub use report::{Report, report_of};
