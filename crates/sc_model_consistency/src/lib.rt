//! An assignment that a search finds, which falsifies no instance that a log can write, falsifies no rule of a problem
//! at all, and so gives its closed terms truths that are consistent.
#![tactic(auto)]

mod law;
mod places;

pub use law::consistency_laws;
pub use places::are_places_small;
pub use sc_model_values::model_laws;
