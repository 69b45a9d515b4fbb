//! Tests of typing: the first name that isn't declared, and the types of policies and the rules that
//! they break. Each takes its policies from the text of a policy file, so there is no code here but
//! tests.
#![tactic(auto)]

#[cfg(test)]
mod answers;
#[cfg(test)]
mod choices;
#[cfg(test)]
mod names;
#[cfg(test)]
mod policies;
#[cfg(test)]
mod rules;
#[cfg(test)]
mod samples;
#[cfg(test)]
mod types;
