//! What an assignment of a problem's atoms says of its closed terms: their truths, which are consistent where it
//! falsifies nothing, and with names for strings and entities the value of each.
#![tactic(auto)]

mod bits;
mod law;
mod members;
mod names;
mod parts;
mod truth;
mod values;

pub use law::model_laws;
pub use members::{assigned_of, elements_of};
pub use names::{name_at, uid_of};
pub use values::value_of;
