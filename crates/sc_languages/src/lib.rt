//! Distinct texts that match some patterns of the operator `like` and don't match others: a wanted number of them, or
//! all where fewer exist.
//!
//! The patterns are read side by side as one nondeterministic automaton, whose states are the items of all patterns,
//! each active or not. A breadth-first search goes over the reachable sets of active items, each once, and stops at
//! the first text that gives each pattern its sign; the next search excludes the texts that were found. Of all
//! characters it tries those of the patterns and of the texts found, and one other character, which stands for all
//! the rest.
#![tactic(auto)]

mod item;
mod others;
mod reading;
mod search;
mod strings;
mod symbols;
mod visited;

pub use strings::strings_of;
