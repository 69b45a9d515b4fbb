//! Laws: generated policies decide the same in either order.
#![tactic(auto)]

mod laws;

pub use laws::generated_decision_laws;
