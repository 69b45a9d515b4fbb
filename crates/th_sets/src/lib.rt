//! The theory of sets: members, subsets, and sets with a member in common.
#![tactic(auto)]

mod finding;
mod moves;
mod named;
mod rows;
mod said;
mod theory;
mod told;

pub use theory::Sets;
