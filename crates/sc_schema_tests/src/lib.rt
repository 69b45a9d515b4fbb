//! Tests of the crates that read a schema file step by step, and of what is read from a schema,
//! each by its public calls alone.
#![tactic(auto)]

#[cfg(test)]
mod declarations;
#[cfg(test)]
mod declared;
#[cfg(test)]
mod enumerated;
#[cfg(test)]
mod hierarchy;
#[cfg(test)]
mod names;
#[cfg(test)]
mod syntax;
#[cfg(test)]
mod texts;
#[cfg(test)]
mod types;
