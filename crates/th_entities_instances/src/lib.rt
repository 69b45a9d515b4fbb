//! The instances of the rules on entities: what each says of a problem, literal by literal, told without memory:
//! how many literals there are, and the one at a place. The theory of entities stands on it.
#![tactic(auto)]

mod alike;
mod declared;
mod places;
mod row;
mod rows;
mod said;
mod stored;

pub use places::roots;
pub use said::Said;
