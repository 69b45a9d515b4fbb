//! The words of the command line: which command they are, read by `clap`.
#![tactic(auto)]

mod command;
mod numbers;
mod reading;
mod tool;

pub use command::{Analyse, Asked, Check, Command, Generate, Log, Reduce, Replay};
pub use reading::{command_laws, command_of};
