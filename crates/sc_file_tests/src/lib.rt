//! Tests of whole runs over files and a sink in memory, by what lies outside: words, commands, files, worlds, logs,
//! generated policies, and what is said where a file can't be read or a line can't be written. There is no code here but tests.
#![tactic(auto)]

#[cfg(test)]
mod commands;
#[cfg(test)]
mod files;
#[cfg(test)]
mod generated;
#[cfg(test)]
mod logs;
#[cfg(test)]
mod outside;
#[cfg(test)]
mod replays;
#[cfg(test)]
mod words;
