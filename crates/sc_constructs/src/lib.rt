//! The constructs of expressions as terms: what each is compiled to, of operands that are compiled: two terms for
//! each, by their numbers in a table.
#![tactic(auto)]

pub mod addresses;
pub mod entities;
pub mod logic;
pub mod numbers;
pub mod objects;
mod opt;
pub mod sets;
mod setting;

pub use opt::Opt;
pub use setting::{Setting, Variables, variables_of};
