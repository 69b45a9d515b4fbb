//! Laws of the compiler: in each well-formed world the terms of a typed expression agree with its evaluation; and
//! both are terms.
#![tactic(auto)]

mod laws;

pub use laws::compile_laws;
