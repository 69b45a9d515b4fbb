//! Declared names and strict typing: whether the names that policies write are declared by a schema, and
//! the first one that isn't; and which type each part of a policy's condition has in an environment of
//! the schema.
#![tactic(auto)]

mod acting;
mod checking;
mod ill_typed;
mod laws;
mod name_fault;
mod names;
mod policy;
mod typing;

pub use checking::check_types;
pub use ill_typed::IllTyped;
pub use laws::{name_laws, policy_laws, written_out_laws};
pub use name_fault::{NameFault, NameKind};
pub use names::check_names;
pub use policy::type_policy;
pub use sc_typed::{Capability, HasStep, Key, TypeFault, TypeRule, TypedExpr, place_of, type_of};
