//! The rules of typing, one a construct: the type of an expression and what it gives, of what typing
//! gives of its operands.
#![tactic(auto)]

pub mod actions;
pub mod collections;
pub mod leaves;
pub mod logic;
pub mod objects;
pub mod operations;
mod operators;
mod outcome;
mod path;
mod setting;

pub use path::Path;
pub use setting::Setting;
