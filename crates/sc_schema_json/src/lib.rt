//! Reads schemas from JSON, in Cedar's JSON schema format: what is declared is put in order, each entity type and
//! action with all that stands above it, or the first fault is told.
#![tactic(auto)]

mod above;
mod actions;
mod building;
mod counting;
mod cycle;
mod declared;
mod describing;
mod graph;
mod hierarchy_law;
mod key;
mod law;
mod reading;
mod sorting;
mod types;

pub use building::declarations_of;
pub use counting::has_more_environments;
pub use cycle::least_cycle;
pub use declared::Declared;
pub use hierarchy_law::schema_laws;
pub use law::spelling_laws;
pub use reading::read_schema;
