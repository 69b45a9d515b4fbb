//! The world that an assignment of a problem's atoms stands for, with names for its strings and entities: the
//! request, and what closed terms tell of entities, as `sc_model_world_laws` defines both.
#![tactic(auto)]

mod ancestors;
mod attributes;
mod context;
mod defaults;
mod entity;
mod given;
mod listed;
mod ordering;
mod request;
mod saying;
mod sought;
mod tags;
mod values;

pub use given::given_of;
pub use request::request_of;
