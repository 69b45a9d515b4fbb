//! What a partial assignment falsifies: instances of rules, found, or none exactly where there is none.
#![tactic(auto)]

mod chains;
mod classes;
mod crowds;
mod needs;
mod paths;
mod settled;
mod texts;
mod truths;

pub use chains::intransitive_among;
pub use classes::labels;
pub use crowds::Crowd;
pub use needs::{is_false, true_signs};
pub use paths::{Paths, gap};
pub use settled::crowd_of;
pub use texts::Texts;
pub use truths::Equalities;
