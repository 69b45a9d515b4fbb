//! The law that the reading of policy files is total: each file spells policies or has a first fault.
#![tactic(auto)]

mod reading;

pub use reading::totality_laws;
