//! Patterns of the operator `like`, and the texts that they match.
#![tactic(auto)]

mod laws;
mod matching;
mod part;
mod pattern;

pub use laws::pattern_laws;
pub use matching::matches;
pub use part::Part;
pub use pattern::{Pattern, pattern_of};
