//! Common types of a schema: whether one reaches itself, how large they are, and what types stand
//! for once each common type in them is written out.
#![tactic(auto)]

mod bodies;
mod copying;
mod cycle;
mod expanding;
mod expansion;
mod faults;
mod kinds;
mod law;
mod names;
mod order;
mod outline;
mod search;
mod wanted;

pub use expanding::expand;
pub use law::type_laws;
pub use order::order_types;
