//! The second pass over a schema file in Cedar's JSON schema format: each name in it is looked up,
//! and what the file declares is told by names in full, or the first name that nothing has.
#![tactic(auto)]

mod builtin;
mod checking;
mod declared;
mod declaring;
mod full;
mod items;
mod law;
mod lookup;
mod members;
mod resolved_types;
mod resolving;
mod translating;
mod unknown_types;

pub use law::resolution_laws;
pub use resolving::resolve;
