//! Compiled policies.
use sc_ast::Effect;
use sc_symeval::Opt;

/// A policy's effect, and the terms of its condition by their numbers in a table.
#[derive(Clone, Copy, Debug, PartialEq, Eq)]
pub struct CompiledPolicy {
    /// What it does where its condition is true.
    pub effect: Effect,
    /// What its condition is compiled to.
    pub code: Opt,
}
