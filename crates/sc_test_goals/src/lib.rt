//! What the tests of other crates say of the goals that they build: plain terms, in which no entity
//! is written and no member is picked, and that those of truth values are goals; and a test whether a
//! number of a table stands for a goal, which rests on nothing but what the table holds.
#![tactic(auto)]

mod goals;

pub use goals::{is_goal, is_plain_goal};
