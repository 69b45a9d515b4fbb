//! Finite graphs whose nodes are numbers: what can be reached from a node, and the least node that
//! lies on a cycle.
#![tactic(auto)]

mod ascending;
mod cycles;
mod path;
mod reaching;

pub use cycles::least_cycle;
pub use reaching::Reachability;
