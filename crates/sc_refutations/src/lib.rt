//! Clauses in one array of numbers, and whether the hints of a learned clause show it: unit propagation along the
//! clauses that they name ends in a conflict.
#![tactic(auto)]

mod arena;
mod codes;
mod growing;
mod known;
mod refuting;

pub use arena::Arena;
pub use codes::{code_of, codes_of, lit_of, put_codes};
pub use growing::append;
pub use known::Known;
pub use refuting::{Residual, learn};
