//! Laws of models: closed terms have the values that a consistent assignment of truth values gives them, these
//! fit their sorts, and the truths of a well-formed world are such an assignment.
#![tactic(auto)]

mod law;
mod value_law;

pub use law::{converse_laws, model_laws, rebuilding_laws};
pub use value_law::model_value_laws;
