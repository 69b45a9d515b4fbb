//! Policies and sets of them.
use crate::expr::Expr;
use crate::place::Place;
use crate::scope::{ActionScope, Scope};
use sc_lists::Seq;

/// What a policy does where it is satisfied.
#[derive(Clone, Copy, Debug, PartialEq, Eq)]
pub enum Effect {
    /// It permits.
    Permit,
    /// It forbids.
    Forbid,
}

/// Whether a condition has to hold, or not to hold.
#[derive(Clone, Copy, Debug, PartialEq, Eq)]
pub enum ConditionKind {
    /// `when`: the expression has to be true.
    When,
    /// `unless`: the expression has to be false.
    Unless,
}

/// A `when` or `unless` clause.
#[derive(Drop)]
pub struct Condition {
    /// The place of the word `when` or `unless`.
    pub place: Place,
    /// Which of the two it is.
    pub kind: ConditionKind,
    /// What is in the braces.
    pub body: Expr,
}

/// A policy.
#[derive(Drop)]
pub struct Policy {
    /// The place of the word `permit` or `forbid`.
    pub place: Place,
    /// What it does where it is satisfied.
    pub effect: Effect,
    /// Which principals it speaks of.
    pub principal: Scope,
    /// Which actions it speaks of.
    pub action: ActionScope,
    /// Which resources it speaks of.
    pub resource: Scope,
    /// Its `when` and `unless` clauses, in order.
    pub conditions: Seq<Condition>,
}

/// The policies of a file, in order. They are named `policy0`, `policy1` and so on, by place.
pub type PolicySet = Seq<Policy>;
