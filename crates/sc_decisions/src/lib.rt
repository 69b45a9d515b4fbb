//! What a search decides: on which atom, as which value, and when it begins anew from no decision. Nothing is
//! promised of these choices but that a conflict leaves no more levels than it may: whatever is chosen, the search
//! ends.
#![tactic(auto)]

mod cases;
mod definitions;
mod disjunctions;
mod heap;
mod order;
mod restarts;
mod suggestions;

pub use order::Order;
pub use restarts::Restarts;
pub use suggestions::Suggestions;
