//! A text, a list, a box and a shared value that contracts see as the bytes, the list and the value
//! that they hold, so that a copy equals what it copies; the fault of a call that may want memory;
//! and sets and maps as lists in ascending order.
#![tactic(auto)]

mod boxed;
mod equality;
mod fault;
pub mod members;
pub mod pairs;
mod seq;
mod shared;
mod text;

pub use boxed::Boxed;
pub use equality::{equals, same_bytes};
pub use fault::Fault;
pub use seq::Seq;
pub use shared::Shared;
pub use text::Text;
