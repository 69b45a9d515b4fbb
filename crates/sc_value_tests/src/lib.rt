//! Tests of names, of values and of sorts: how they are read, copied, compared and written.
#![tactic(auto)]

#[cfg(test)]
mod names;
#[cfg(test)]
mod samples;
#[cfg(test)]
mod sorts;
#[cfg(test)]
mod values;
