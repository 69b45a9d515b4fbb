//! The theory of entities.
mod assignments;
mod goals;
mod instances;
mod names;
mod problems;
mod violations;
