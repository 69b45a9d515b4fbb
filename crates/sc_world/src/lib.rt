//! Worlds: a request and the entities that are stored; and what makes a world well-formed.
#![tactic(auto)]

mod actions;
mod ancestors;
mod attributes;
mod broken;
mod choices;
mod conformance;
mod default_entity;
mod default_value;
mod default_worlds;
mod entity;
mod filling;
mod first_uids;
mod given_worlds;
mod missing;
mod named;
mod proper;
mod request;
mod sound;
mod store;
mod uids;
mod well_formedness;
mod world;

pub use broken::first_broken;
pub use conformance::{conforms, record_conforms};
pub use default_worlds::{default_context, default_world, world_for};
pub use entity::EntityData;
pub use given_worlds::world_with;
pub use missing::first_missing;
pub use proper::is_proper_request;
pub use request::is_request_of;
pub use store::Store;
pub use well_formedness::well_formed;
pub use world::{Request, World};
