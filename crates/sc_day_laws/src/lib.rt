//! Laws of days and times of the day in 64 bits: which clauses fix both, by numbers and by bits, what a script's words
//! for them give, when the start of a day overflows, and the product by the length of a day as 31 sums.
#![tactic(auto)]

mod laws;

pub use laws::{bit_laws, clause_laws, start_laws, sum_laws};
