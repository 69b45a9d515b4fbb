//! Tests of files and of sinks, in memory and of the system. There is no code here but tests.
#![tactic(auto)]

#[cfg(test)]
mod files;
#[cfg(test)]
mod readers;
#[cfg(test)]
mod sinks;
#[cfg(test)]
mod system;
