//! Texts of datetimes and of durations: which text stands for which number of milliseconds, and how each is written.
//! Dates are those of the proleptic Gregorian calendar, as in RFC 3339.
#![tactic(auto)]

mod datetime;
mod duration;
mod form;
mod front;
mod laws;
mod unit;
mod written;

pub use datetime::{BadDatetime, read_datetime};
pub use duration::{BadDuration, read_duration, write_duration};
pub use laws::text_laws;
pub use written::write_datetime;
