//! The solver: it finds a log that refutes a problem's goal, or a well-formed world in which the goal is true, or it
//! spends its budget. Its rules are the defining clauses and those of all theories.
#![tactic(auto)]

mod family;
mod law;
mod others;
mod rebuilding;
mod rules;
mod solving;

pub use family::{Family, family_of};
pub use law::{accepted_law, converse_law, unit_law};
pub use others::OtherRules;
pub use rebuilding::rebuild;
pub use rules::Rules;
pub use solving::{Solved, solve};
pub use th_defs::defining_laws;
