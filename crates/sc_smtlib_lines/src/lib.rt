//! The script of a goal, of its subterms in their order: which datatypes, constants and functions it
//! declares, which terms it defines in which order, and what it asserts. Each piece's text is of
//! `sc_smtlib_terms`.
#![tactic(auto)]

mod ancestries;
mod assertions;
mod datatypes;
mod declarations;
mod definitions;
mod depth;
mod functions;
mod names;
mod order;
mod put;
mod script;

pub use script::{script_laws, script_text};
