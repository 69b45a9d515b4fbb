//! Evaluation of expressions: `evaluate` gives exactly the value or the error of an expression in a
//! world. The laws say what its definitions come to.
#![tactic(auto)]

mod addresses;
mod arithmetic;
mod comparison;
mod constants;
mod entities;
mod error;
mod evaluation;
mod kinds;
mod laws;
mod leaves;
mod logic;
mod operators;
mod records;
mod sets;
mod texts;

pub use constants::constant_laws;
pub use error::EvalError;
pub use evaluation::evaluate;
pub use laws::{collection_laws, construct_laws, eval_laws};
