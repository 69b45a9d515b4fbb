//! The problem whether some well-formed world makes a goal true: its closed terms, its listed atoms
//! and their literals, what goes with each term, its terms by kinds and sorts, and what a theory of
//! such problems is.
#![tactic(auto)]

mod closing;
mod companions;
mod kind;
mod law;
mod listing;
mod problem;
mod shelves;
mod theory;

pub use closing::close;
pub use kind::Kind;
pub use law::problem_laws;
pub use problem::Problem;
pub use sc_closure::{OverLimit, closed_laws};
pub use theory::Theory;
