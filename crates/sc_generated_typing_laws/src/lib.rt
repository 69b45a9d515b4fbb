//! Laws: what the schema of generated policies declares, and that these policies write declared names alone and are
//! typed.
#![tactic(auto)]

mod laws;

pub use laws::generated_typing_laws;
