//! The theory of entities: EN1 to EN8 and EQ9, on what is stored of entities that are equal, on ancestors,
//! tags and declared actions.
#![tactic(auto)]

mod alike;
mod finding;
mod memberships;
mod places;
mod runs;
mod testing;
mod theory;

pub use theory::Entities;
