//! Decimal numbers with four digits behind the point: which texts stand for them, how they are
//! written, and their order.
#![tactic(auto)]

mod compare;
mod decimal;
mod laws;
mod read;
mod write;

pub use compare::{le, lt};
pub use decimal::Decimal;
pub use laws::decimal_laws;
pub use read::{BadDecimal, read_decimal};
pub use write::write_decimal;
