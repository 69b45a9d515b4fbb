//! The syntax tree of policies.
#![tactic(auto)]

mod copy;
mod expr;
mod joining;
mod literal;
mod operator;
mod place;
mod policy;
mod scope;
mod written;

pub use copy::try_clone;
pub use expr::{Expr, TypeName, Variable};
pub use joining::condition;
pub use literal::{EntityLiteral, Literal};
pub use operator::{BinaryOperator, UnaryOperator};
pub use place::Place;
pub use policy::{Condition, ConditionKind, Effect, Policy, PolicySet};
pub use scope::{ActionConstraint, ActionScope, Constraint, Scope};
pub use written::literals;
