//! Integers of 64 bits and addresses with a prefix, bit by bit: which bits a sum, a difference, a product, a comparison
//! and a range have, and which integers and addresses given bits are of. All is by plain definitions and laws, in both
//! directions, so that clauses over bits can be shown right against arithmetic, and integers be read back from bits.
#![tactic(auto)]

mod address;
mod address_bits;
mod bits;
mod laws;

pub use address::ip_from_bits;
pub use address_bits::ip_bit;
pub use bits::{bit, from_bits};
pub use laws::{
    address_laws, difference_laws, integer_laws, order_laws, plain_laws, product_laws, sum_laws,
};
