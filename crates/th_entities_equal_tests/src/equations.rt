//! The theory of equations, over one problem that has instances of all its rules.
mod goals;
mod instances;
mod problems;
