//! The script of a problem, for any outside solver that reads SMT-LIB 2.6 as cvc5 does.
#![tactic(auto)]

mod forms;
mod marks;
mod writing;

pub use forms::in_script;
pub use writing::script;
