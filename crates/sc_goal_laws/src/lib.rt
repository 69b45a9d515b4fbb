//! The law of goals: the goal of a question about declared policies is what the closure of problems asks of a goal.
#![tactic(auto)]

mod laws;

pub use laws::posed_goals;
