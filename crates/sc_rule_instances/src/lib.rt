//! The rules of problems: what each instance says as signed terms, which instances a problem has,
//! and that each is true in every well-formed world. The theories of equations, sets and entities
//! stand on it: it reads and writes their instances, finds the literals of the terms that
//! they speak of, and tells which instances an assignment falsifies.
#![tactic(auto)]

mod given;
mod known;
mod laws;
mod literals;
mod parts;
mod rule;
mod saying;
mod words;
mod writing;

pub use given::{Closed, both, closed_of};
pub use known::known_literal;
pub use laws::rule_laws;
pub use literals::{
    FALSE, NOWHERE, TRUE, bit, common, equal, find, literal_if, member, negated_if, present, subset,
};
pub use parts::{
    above, asked_at, closed_at, entity, field_count, is_one_sort, is_sort_named, is_sort_option,
    is_sort_set, keys, members,
};
pub use rule::{EntityRule, EqualRule, SetRule};
pub use saying::{Saying, clause_of, is_falsified, is_instance};
pub use words::{are_written, entity_rule, equal_rule, set_rule};
pub use writing::{put_numbers, write_entity, write_equal, write_set};
