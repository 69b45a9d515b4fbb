//! Expressions with their types: what typing gives of an expression, which types join, what is known of objects
//! and when two such capabilities are one, and operands that have to be of one kind.
#![tactic(auto)]

pub mod bare;
pub mod capability;
mod fault;
pub mod kinds;
mod laws;
pub mod literals;
pub mod operands;
mod outcome;
mod typed_expr;
pub mod types;

pub use capability::{Capability, Key};
pub use fault::{TypeFault, TypeRule};
pub use laws::same_laws;
pub use outcome::Typed;
pub use typed_expr::{HasStep, TypedExpr, place_of, type_of};
