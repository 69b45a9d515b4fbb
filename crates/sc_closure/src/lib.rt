//! The closed terms of a goal, listed: how they are met, one after the other, until there is no
//! further one or too many of them are atoms.
#![tactic(auto)]

mod closing;
mod equations;
mod kind;
mod limit;
mod listing;
mod numbers;
mod roles;
mod taking;

pub use closing::closed_terms;
pub use kind::{is_atom, is_bool};
pub use limit::{MOST_ATOMS, OverLimit};
pub use numbers::{number_at, place_in, put};
pub use sc_closure_rules::{
    Shape, closed_laws, definition_laws, input_count, order_laws, put_following, shape_at,
    terms_fit,
};
