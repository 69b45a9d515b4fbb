//! Which instances of rules a search looks at first, by what is known: those that may give a literal. Nothing is promised
//! of them: a search tests each itself.
#![tactic(auto)]

mod alike;
mod climbing;
mod known;
mod places;
mod suggesting;
mod told;

pub use alike::put_alike;
pub use suggesting::{put_equal, suggested};
pub use told::{Told, Tolds};
