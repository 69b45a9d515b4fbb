//! Tests of the rows of the table of terms: their order, what is folded into what, their sorts, and how
//! many terms a table takes.
#![tactic(auto)]

#[cfg(test)]
mod fold_tests;
#[cfg(test)]
mod growth_tests;
#[cfg(test)]
mod kinds;
#[cfg(test)]
mod order_tests;
#[cfg(test)]
mod row_tests;
#[cfg(test)]
mod words;
