//! Laws of typing. What it gives, as a relation with one row for each construct, so that laws on typed expressions
//! are recursions over its rows; that places play no part in it but in faults; and that policies which write
//! declared names alone write declared uids.
#![tactic(auto)]

mod declared;
mod laws;
mod places;

pub use declared::{declared_laws, literal_laws};
pub use laws::{derivation_laws, path_laws};
pub use places::place_laws;
