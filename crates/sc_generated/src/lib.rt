//! Two texts of policies that grow with a number: pseudo-random policies, one a line, and the same in reverse order. A
//! question about them is as large as one asks for, and the same each time.
#![tactic(auto)]

mod draws;
mod schema;
mod texts;

pub use schema::schema_text;
pub use texts::{Generated, generate};
