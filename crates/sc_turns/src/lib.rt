//! Things that have others as parts, told in turn: the next one is always the least whose parts were
//! told already. In time of the number of parts, and of things times the logarithm of their number.
#![tactic(auto)]

mod lists;
mod order;
mod ready;
mod turning;

pub use order::{turn_laws, turns};
