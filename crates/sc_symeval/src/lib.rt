//! The compiler: an expression with types becomes two terms, which in every well-formed world tell
//! whether it errs and what it comes to.
#![tactic(auto)]

mod collections;
mod compiling;
mod leaves;
mod operators;

pub use compiling::{compile, compile_in};
pub use sc_constructs::{Opt, Setting, Variables, variables_of};
