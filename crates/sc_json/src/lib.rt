//! Trees of JSON files: which bytes are the text of which tree, where in a tree a value stands (RFC 6901), and that
//! what is made of the tree of a file is one thing or one fault.
#![tactic(auto)]

mod law;
mod pointer;

pub use law::tree_laws;
pub use pointer::below;
