//! The tokens of a policy file, by longest match, or the first place where it has none; and what the
//! texts of its strings stand for.
#![tactic(auto)]

mod blank;
mod escape;
mod front;
mod laws;
mod length;
mod lexer;
mod piece;
mod sign;
mod spelling;
mod string;
mod token;
mod unescaping;

pub use laws::spelling_laws;
pub use lexer::{text, tokens};
pub use piece::Piece;
pub use token::{Kind, LexFault, Span, Token};
pub use unescaping::{pieces, unescape};
