//! What each instance of the rules on strings says of a problem, whether that is an instance, and
//! its clause. A problem's patterns stand in the order of terms; a counting rule asks that fewer
//! texts have its signs than it has strings, which is told by finding such texts. All of it may
//! take memory. The theory of strings stands on it.
#![tactic(auto)]

mod asking;
mod clauses;
mod few;
mod laws;
mod literals;
mod names;
mod numbers;
mod plenty;
mod rule;
mod said;
mod writing;

pub use asking::patterns;
pub use clauses::{accepted, clause_of};
pub use few::are_few;
pub use laws::string_laws;
pub use literals::{is_sort_string, like};
pub use names::string_rule;
pub use numbers::copied_signs;
pub use rule::StringRule;
pub use said::are_all_asked;
pub use writing::write_string;
