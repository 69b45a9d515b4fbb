//! A world as JSON, and its compact text, which determines a well-formed world; and the world that
//! a text spells, or its first fault.
#![tactic(auto)]

mod building;
mod checking;
mod fault;
mod first_fault;
mod form;
mod function;
mod law;
mod level;
mod mark;
mod member;
mod member_form;
mod names;
mod plain;
mod pointer;
mod reading;
mod uids;
mod value_building;
mod values;
mod worlds;

pub use fault::WorldFault;
pub use law::{nesting_laws, reading_laws, text_is_unique};
pub use plain::plain_keys;
pub use reading::read_world;
pub use worlds::{world_text, world_value};
