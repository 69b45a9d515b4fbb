//! The words of a script's lines, read and spelled: a text is cut at its newlines and each line into its words, words
//! are put one after the other, the characters of texts and names are read, and the first difference of two texts is
//! found.
#![tactic(auto)]

mod characters;
mod cutting;
mod laws;
mod spelling;
mod words;

pub use characters::{label_of, text_of};
pub use cutting::{cut_line, difference};
pub use laws::{character_laws, word_laws};
pub use spelling::spell;
pub use words::words_of;
