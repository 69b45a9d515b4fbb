//! Typing is sound: in a well-formed world of its environment a typed policy errs only where a number leaves
//! 64 bits, and else has a value of its type. What types and capabilities say of values comes first, then the law
//! of each construct, and then those of expressions and policies.
#![tactic(auto)]

mod constructs;
mod laws;
mod values;

pub use constructs::{attribute_laws, logic_laws, operator_laws, test_laws};
pub use laws::{expression_laws, policy_laws};
pub use values::{bare_laws, capability_laws, join_laws, object_laws, path_laws};
