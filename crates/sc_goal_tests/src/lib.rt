//! Tests of the terms of policies: what conditions are compiled to, what sets of policies decide, the goals of
//! questions, and their problems over the whole language, by how many closed terms, listed atoms and defining
//! clauses each has. Each takes its policies from the text of a policy file, so there is no code here but
//! tests.
#![tactic(auto)]

#[cfg(test)]
mod declared_policies;
#[cfg(test)]
mod goal;
#[cfg(test)]
mod problems;
#[cfg(test)]
mod samples;
#[cfg(test)]
mod symauth;
#[cfg(test)]
mod symeval;
