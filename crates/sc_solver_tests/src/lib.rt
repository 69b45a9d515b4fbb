//! Tests of problems, of the clauses that define them, of the checker and of the solver: what is
//! closed and listed, truth tables, verdicts on logs, what is read and written of them, and what
//! the solver finds of problems whose answers are known.
#![tactic(auto)]

#[cfg(test)]
mod checker_tests;
#[cfg(test)]
mod definition_tests;
#[cfg(test)]
mod goals;
#[cfg(test)]
mod problem_tests;
#[cfg(test)]
mod problems;
#[cfg(test)]
mod schemas;
#[cfg(test)]
mod solver_tests;
#[cfg(test)]
mod stream_tests;
