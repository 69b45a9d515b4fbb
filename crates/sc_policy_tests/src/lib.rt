//! Tests of how policies are read, copied, evaluated and decided on. Each takes its policies from
//! the text of a policy file, so there is no code here but tests.
#![tactic(auto)]

#[cfg(test)]
mod ast;
#[cfg(test)]
mod auth;
#[cfg(test)]
mod eval;
#[cfg(test)]
mod lexemes;
#[cfg(test)]
mod parser;
#[cfg(test)]
mod samples;
#[cfg(test)]
mod trees;
