//! Conflict-driven clause learning over a list of clauses and a source of more: an assignment of all atoms that
//! falsifies none of them, or a refutation, or as many units as the budget.
//!
//! It propagates to rest and decides, learns a clause from each conflict, and jumps back. The clause of each step
//! that it logs is new to unit propagation over the clauses before it, so no step is spent on what was known.
#![tactic(auto)]

mod giving;
mod searching;
mod solver;
mod source;

pub use searching::{Found, search};
pub use source::Source;
