//! The signature of terms. Sorts: what the values of a term are, the sort of each type, what sorts are made of, and
//! their defaults. Nodes: which kinds of terms there are, in the order of their table, and what sort each has by
//! those of its parts.
#![tactic(auto)]

mod clone;
mod default;
mod entities;
mod hash;
mod inside;
mod law;
mod literals;
mod node;
mod node_hash;
mod node_sorts;
mod of_type;
mod parts;
mod plain;
mod rows;
mod sort;

pub use clone::try_clone;
pub use default::{default_of, default_uid};
pub use entities::{choices_of, entity_sort};
pub use inside::{field_sort, held_sort, member_sort};
pub use law::sort_laws;
pub use literals::{literal_bit, literal_like, same_entity};
pub use node::{BinaryOp, Leaf, Literal, ManyOp, Node, Parts, UnaryOp};
pub use node_sorts::{binary_sort, leaf_sort, unary_sort};
pub use of_type::sort_of;
pub use parts::unlabelled;
pub use plain::{is_plain, plain_fields};
pub use rows::row;
pub use sort::Sort;
