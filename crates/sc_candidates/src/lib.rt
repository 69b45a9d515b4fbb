//! The candidates of sets, and what goes with them: their equations, and whether they are members of
//! the sets to which their set flows, with which it is linked, or which have it below them.
#![tactic(auto)]

mod ancestors;
mod crowds;
mod equations;
mod kins;
mod memberships;

pub use ancestors::{meet_above, meet_entity};
pub use crowds::{Crowd, join_candidate, join_target};
pub use equations::{equate_members, is_value};
pub use kins::{is_known, join_kin};
pub use memberships::{meet_crowds, meet_flow, meet_linked, meet_set};
