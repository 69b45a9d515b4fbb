//! The reduction of a policy set: which of its policies do nothing, and why each of the others stays.
#![tactic(auto)]

mod comparing;
mod fate;
mod lines;
mod passes;
mod reducing;
mod searching;
mod telling;

pub use fate::Fate;
pub use lines::{code_of, lines_of, logs_of};
pub use reducing::reduce;
