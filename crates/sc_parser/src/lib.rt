//! Reads policy files: expressions, scopes, policies and files of them.
#![tactic(auto)]

mod chain;
mod constraint;
mod expr;
mod fault;
mod head;
mod items;
mod member;
mod policy;
mod prefix;
mod primary;
mod reading;
mod scopes;
mod tree;

pub use fault::PolicyFault;
pub use reading::{read_policies, reading_laws};
