//! The theory of sets.
mod assignments;
mod goals;
mod instances;
mod names;
mod problems;
mod violations;
