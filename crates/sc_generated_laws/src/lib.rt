//! Laws: the texts of generated policies are spelled by the grammar of policies, and which policies they spell.
#![tactic(auto)]

mod laws;

pub use laws::generated_laws;
