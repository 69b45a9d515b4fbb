//! Tests of what the words of commands and the texts of logs are read as. There is no code here but tests.
#![tactic(auto)]

#[cfg(test)]
mod commands;
#[cfg(test)]
mod logs;
