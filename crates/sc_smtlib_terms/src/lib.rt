//! Sorts and terms as a script writes them: the names of sorts, the datatypes that declare them, and
//! the body of each term over the names of its parts (SMT-LIB 2.6, with the theory of sets as cvc5
//! has it). How a whole script is made of these is said in `sc_smtlib`.
#![tactic(auto)]

mod bodies;
mod datatypes;
mod defaults;
mod literals;
mod numbers;
mod operators;
mod patterns;
mod sets;
mod sorts;

pub use bodies::{leaf_body, record_text};
pub use datatypes::{choice_line, data_line};
pub use numbers::numeral;
pub use operators::{ancestors_call, ancestors_name, binary_body, function_name, unary_body};
pub use sets::set_text;
pub use sorts::{number, number_among, record_name, sort_text};
