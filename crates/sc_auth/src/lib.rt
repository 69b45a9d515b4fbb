//! What policies decide in a world: `authorise` gives exactly the decision of a policy set, which
//! policies it rests on, and how each policy stands.
#![tactic(auto)]

mod authorisation;
mod decision;
mod laws;
mod response;
mod standing;
mod tally;

pub use authorisation::authorise;
pub use decision::Decision;
pub use laws::{decision_laws, place_laws, policy_laws, standings_laws};
pub use response::Response;
pub use standing::Standing;
