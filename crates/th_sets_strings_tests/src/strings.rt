//! The theory of strings.
mod instances;
mod samples;
mod violations;
