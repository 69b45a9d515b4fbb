//! The schema and the policies of generated texts, read by the readers of files. No fault is told of these texts, which
//! spell what is read.
#![tactic(auto)]

mod reading;

pub use reading::{backward_policies, forward_policies, generated_schema};
