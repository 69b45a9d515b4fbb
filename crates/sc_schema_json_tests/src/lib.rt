//! Tests of reading schemas from JSON: what files spell, their first faults, and their limits.
#![tactic(auto)]

#[cfg(test)]
mod faults;
#[cfg(test)]
mod limits;
#[cfg(test)]
mod schemas;
