//! Tests of datetimes and durations: texts that are read and written, and what is computed of them. There is no code
//! here but tests.
#![tactic(auto)]

#[cfg(test)]
mod operations;
#[cfg(test)]
mod reading;
#[cfg(test)]
mod writing;
