//! Tests of the theories of entities and of equations: which instances a problem has, what they say, and which
//! one an assignment falsifies. There is no code here but tests.
#![tactic(auto)]

#[cfg(test)]
mod entities;
#[cfg(test)]
mod equations;
