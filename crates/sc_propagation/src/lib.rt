//! Propagation and conflict analysis: the trail, which is an assignment in the order in which it was made, what
//! clauses give by it, found by two watched literals of each, what a falsified clause shows, and how far to go
//! back for a new one.
#![tactic(auto)]

mod analysis;
mod cell;
mod choice;
mod clause;
mod giving;
mod lists;
mod marks;
mod places;
mod propagation;
mod room;
mod trail;
mod watches;

pub use analysis::{Analysis, Resolvent};
pub use cell::{Cell, value_of};
pub use marks::Marks;
pub use propagation::Pending;
pub use room::Room;
pub use trail::Trail;
pub use watches::{Watch, Watches};
