//! What the words and the files of a command give, or why they are refused.
#![tactic(auto)]

mod checks;
mod fault_text;
mod files;
mod inputs;
mod policy_reading;
pub mod put;
mod reading;
mod refusal;
mod serving;
mod type_text;
mod world_reading;

pub use inputs::{Analysis, Asking, Claim, Inputs, Logging, Scene};
pub use reading::inputs_of;
pub use refusal::{FileName, Refusal, Side, code, text_of};
pub use type_text::put_env;
