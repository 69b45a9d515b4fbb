//! The rules by which terms belong to a goal: those on which a world depends that may make it true.
//! Which terms a term brings in, which two bring in together, and the least set that these rules give.
#![tactic(auto)]

mod ancestors;
mod equations;
mod following;
mod inside;
mod law;
mod places;
mod sets;

pub use following::put_following;
pub use law::closed_laws;
pub use places::{are_linked, roots};
pub use sc_term_definitions::{Shape, definition_laws, input_count, shape_at};
pub use sc_term_laws::{order_laws, terms_fit};
