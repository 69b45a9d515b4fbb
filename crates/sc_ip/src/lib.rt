//! Addresses of the internet protocol, each with a prefix: which texts stand for them, how they
//! are written, and which of their ranges lie within one another.
#![tactic(auto)]

mod groups;
mod ip;
mod laws;
mod notation;
mod range;
mod read;
mod write;

pub use ip::Ip;
pub use laws::{ip_laws, range_laws};
pub use range::{in_range, is_loopback, is_multicast, is_v4};
pub use read::{BadIp, read_ip};
pub use write::write_ip;
