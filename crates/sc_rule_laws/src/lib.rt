//! Laws of the solver's rules: what equations, sets, entities and strings obey in every world, each as a list of
//! terms with a sign, some of which has its sign there. A theory's instances are these lists at the terms of a
//! problem.
#![tactic(auto)]

mod laws;

pub use laws::{entity_laws, equal_laws, set_laws, string_laws};
