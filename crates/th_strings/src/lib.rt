//! The theory of strings and of the patterns that they match: equal strings match the same patterns, and where fewer
//! texts than there are strings have some signs, two of the strings are equal.
#![tactic(auto)]

mod crowds;
mod group;
mod matches;
mod scarce;
mod signs;
mod texts;
mod theory;

pub use sc_languages::strings_of;
pub use theory::Strings;
