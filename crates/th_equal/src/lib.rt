//! The theory of equations: EQ1 to EQ8, on strings and entities that equal each other, choices, records and
//! options; and what each instance of these rules says of a problem, literal by literal, told without memory.
#![tactic(auto)]

mod chains;
mod classes;
mod equated;
mod equations;
mod finding;
mod joining;
mod named;
mod row;
mod rows;
mod said;
mod theory;

pub use chains::broken_chain;
pub use equated::sides;
pub use said::Said;
pub use theory::Equal;
