//! The search under the rules of a theory: a log that refutes the goal of a problem, an assignment that falsifies
//! nothing, or a log of as many units as the budget. The rules give clauses where an assignment falsifies them; which
//! are looked at first is suggested, and nothing is promised of that.
#![tactic(auto)]

mod breaking;
mod broken_sets;
mod broken_terms;
mod finding;
mod look;
mod source;

pub use breaking::broken;
pub use finding::{Finding, find};
pub use sc_suggestions::suggested;
pub use source::RulesAt;
