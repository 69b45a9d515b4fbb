//! Names for the closed strings and entities of a problem under a consistent assignment, so that its model can be
//! written as a world. Equal strings have one name: what a literal of their class says, or a further text, which
//! matches just the patterns that they are to match. An entity's name is its id.
#![tactic(auto)]

mod classes;
mod ids;
mod names;
mod naming;
mod numbers;
mod numerals;
mod patterns;
mod strings;
mod table;
mod truth;

pub use names::name_in;
pub use naming::names_of;
pub use numbers::closed_numbers;
pub use sc_rule_instances::is_one_sort;
pub use strings::string_names;
pub use truth::is_equal;
