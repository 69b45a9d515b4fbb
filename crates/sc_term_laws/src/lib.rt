//! Laws of terms: their order, the values of folded ones, which trees are terms of a sort, and that
//! the value of a term fits its sort. The test of which trees are terms.
#![tactic(auto)]

mod binary;
mod judging;
mod law;
mod lawful_sorts;
mod leaves;
mod many;
mod names;
mod schema_sorts;
mod sort_tests;
mod stays;
mod unary;

pub use judging::is_term;
pub use law::{
    default_laws, fit_laws, made_laws, order_laws, term_laws, terms_fit, truth_laws, unfolded_laws,
    value_laws,
};
pub use lawful_sorts::is_lawful_sort;
