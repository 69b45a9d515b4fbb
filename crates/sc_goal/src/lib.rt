//! The questions that are asked of policy sets: the property of worlds that each asks about, and the
//! goal, a term that is true in the worlds that lack it.
#![tactic(auto)]

mod asking;
mod compiling;
mod laws;
mod posing;
mod queries;

pub use asking::query;
pub use laws::{goal_laws, property_laws};
pub use posing::{goal, goal_of};
pub use queries::Query;
pub use sc_question::Question;
