//! Tests of the table of terms, of closed terms, of the search, and of what is found under partial
//! assignments: which terms are folded into one, their order and their sorts, how many closed terms a goal
//! has and how many of them are atoms, and what is found of small problems whose answers are known. There is
//! no code here but tests.
#![tactic(auto)]

#[cfg(test)]
mod closing;
#[cfg(test)]
mod goals;
#[cfg(test)]
mod search_tests;
#[cfg(test)]
mod tables;
#[cfg(test)]
mod term_tests;
