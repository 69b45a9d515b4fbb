//! Tests of the lowest crates: texts and lists, numbers and addresses, patterns, graphs, tokens, clauses and
//! generated policies. There is no code here but tests.
#![tactic(auto)]

#[cfg(test)]
mod addresses;
#[cfg(test)]
mod bits;
#[cfg(test)]
mod clauses;
#[cfg(test)]
mod decimals;
#[cfg(test)]
mod generated;
#[cfg(test)]
mod graphs;
#[cfg(test)]
mod languages;
#[cfg(test)]
mod lexing;
#[cfg(test)]
mod lists;
#[cfg(test)]
mod patterns;
#[cfg(test)]
mod pointers;
#[cfg(test)]
mod questions;
#[cfg(test)]
mod refutations;
