//! How terms of truth values are defined by others: the table of definitions as data, which terms a definition
//! names, and that in each well-formed world a term is as it is defined.
#![tactic(auto)]

mod function;
mod inputs;
mod law;
mod reading;
mod row;

pub use function::{Function, Shape};
pub use inputs::{input_count, put_inputs, shape_at};
pub use law::definition_laws;
pub use reading::bit_count;
