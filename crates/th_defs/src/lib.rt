//! The defining clauses of a problem, and the theory whose instances they are.
#![tactic(auto)]

mod clauses;
mod definitions;
mod defs;
mod item;
mod laws;
mod numbers;

pub use definitions::defining;
pub use defs::Defs;
pub use laws::defining_laws;
