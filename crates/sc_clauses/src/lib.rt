//! Literals, clauses, assignments of truth values to atoms, and the steps of a refutation.
#![tactic(auto)]

mod assignment;
mod clause;
mod clauses;
mod lit;
mod step;

pub use assignment::{Assignment, falsifies, is_false};
pub use clause::{Clause, contained, is_in};
pub use clauses::Clauses;
pub use lit::{Atom, Lit, is_same, negation};
pub use step::{Instance, Learned, Step, Word};
