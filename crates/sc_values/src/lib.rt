//! Values of the policy language: the eight kinds, their total order, sets and records.
#![tactic(auto)]

mod clone;
mod duplicate_key;
mod order;
mod proper;
mod records;
mod sets;
mod value;
mod walks;

pub use clone::{clone_rec, clone_set, try_clone};
pub use duplicate_key::DuplicateKey;
pub use order::{cmp_value, order_laws};
pub use proper::{is_proper, is_proper_record, is_uid_text};
pub use records::{field, rec_laws, rec_of};
pub use sc_decimal::Decimal;
pub use sc_ip::Ip;
pub use sets::{contains, intersects, is_same, set_laws, set_of, subset};
pub use value::{Rec, Set, Value};
