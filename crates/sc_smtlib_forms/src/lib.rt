//! The text of scripts, piece by piece: the forms of which lines, names and terms are made, each a
//! text with places for others, and how numbers, texts and names of fields are written in them
//! (SMT-LIB 2.6). Which forms make the script of a goal is said in `sc_smtlib`.
#![tactic(auto)]

mod characters;
mod filling;
mod form;
mod template;

pub use characters::{put_text_character, written_label, written_text};
pub use filling::{plain, put_bytes, put_filled, with_one, with_three, with_two};
pub use form::Form;
