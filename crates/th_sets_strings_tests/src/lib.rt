//! Tests of the theories of sets and of strings: which instances a problem has, what they say, and which one an
//! assignment falsifies. There is no code here but tests.
#![tactic(auto)]

#[cfg(test)]
mod sets;
#[cfg(test)]
mod strings;
