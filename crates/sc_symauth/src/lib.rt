//! What policies decide, as terms: how each policy stands, and whether a set of them allows.
#![tactic(auto)]

mod compiled;
mod deciding;
mod joining;
mod laws;
mod standing;
mod typed;

pub use compiled::CompiledPolicy;
pub use deciding::decision_term;
pub use joining::{allow_term, any_error_term};
pub use laws::{standing_laws, standing_terms};
pub use standing::{error_term, satisfied_term};
pub use typed::Typed;
