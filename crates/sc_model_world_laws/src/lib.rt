//! Laws of the world that a model stands for: it can be built, and closed terms have there the values of the
//! model.
#![tactic(auto)]

mod law;

pub use law::rebuilt_laws;
