//! Datetimes and durations in milliseconds: what is computed of them, and their order. Which texts stand for them is
//! said in `sc_date_texts`.
#![tactic(auto)]

mod datetime;
mod duration;
mod laws;

pub use datetime::Datetime;
pub use duration::Duration;
pub use laws::day_laws;
