//! Whole runs over files and a sink in memory, as tests of them share them: how a run ends, the schemas, policies and
//! lines that many of them use, and whether a question holds or has a counterexample, which is replayed.
#![tactic(auto)]

pub mod questions;
pub mod reports;
pub mod runs;
pub mod samples;
pub mod schemas;
