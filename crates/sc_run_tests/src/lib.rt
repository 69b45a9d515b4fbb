//! Tests of whole runs over files and a sink in memory, by what is asked: what is answered and what is refused. There
//! is no code here but tests.
#![tactic(auto)]

#[cfg(test)]
mod addresses;
#[cfg(test)]
mod attributes;
#[cfg(test)]
mod budgets;
#[cfg(test)]
mod constructs;
#[cfg(test)]
mod decimals;
#[cfg(test)]
mod groups;
#[cfg(test)]
mod numbers;
#[cfg(test)]
mod questions;
#[cfg(test)]
mod questions_of_sets;
#[cfg(test)]
mod reductions;
#[cfg(test)]
mod refusals;
#[cfg(test)]
mod reports;
#[cfg(test)]
mod sets;
#[cfg(test)]
mod tags;
#[cfg(test)]
mod texts;
