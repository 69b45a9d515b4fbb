//! Terms: what a policy asks, as trees that are kept in one table, in which equal terms have one
//! number. There is one call for each row of the table of terms; each folds, and promises the value
//! that its term has in every world.
#![tactic(auto)]

mod bits;
mod compare;
mod connectives;
mod defaults;
mod entities;
mod equal;
mod folds;
mod joined;
mod leaves;
mod numbers;
mod options;
mod reading;
mod records;
mod sets;
mod step;
mod terms;
mod texts;

pub use terms::Terms;
