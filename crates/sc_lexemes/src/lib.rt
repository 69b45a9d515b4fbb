//! The tokens of a policy file with what they say: what stands at a place among them, which operators,
//! methods and functions there are, and names, strings and uids, which are read token by token. A cursor
//! tells how far reading has come and how deep the next token may lie, and a stop why reading ends.
#![tactic(auto)]

mod cursor;
mod keys;
mod laws;
mod lexeme;
mod lexemes;
mod name;
mod number;
mod operation;
mod operator;
mod peek;
mod stop;
mod tables;

pub use cursor::Cursor;
pub use keys::no_keys;
pub use laws::depth_laws;
pub use lexeme::{Lexeme, Shape};
pub use lexemes::lexemes_of;
pub use name::{entity, ident, key, more_entity, names, path, string};
pub use number::long_of;
pub use operation::prefixed;
pub use operator::{Close, Level, Operator};
pub use peek::{
    any_word_at, clause_at, close_at, effect_at, least_behind, operator_at, policy_at, prefix_at,
    sign_at, start_at, string_at, this_prefix_at, word_at,
};
pub use stop::Stop;
pub use tables::{applied, called, joined, variable_of};
