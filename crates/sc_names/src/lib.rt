//! Names of the policy language: identifiers, names of types, which are paths, and the uids of
//! entities, with the order of uids, their text and sets of them.
#![tactic(auto)]

mod escape;
mod ident;
mod lits;
mod name;
mod order;
mod path;
mod uid;

pub use escape::{put_escaped, put_uid, uid_text, uid_text_laws};
pub use ident::{Ident, is_ident, is_reserved, is_word, read_ident};
pub use lits::{Lits, lits_laws, lits_of, lits_union};
pub use name::Name;
pub use order::{compare, order_laws};
pub use path::{BadName, bad_name_laws, is_path, path_laws, read_name};
pub use uid::{Uid, clone_uids};
