//! The questions that are asked of policy sets, and their names.
#![tactic(auto)]

mod name;
mod question;

pub use name::{name_laws, question_named};
pub use question::{Question, takes_two};
