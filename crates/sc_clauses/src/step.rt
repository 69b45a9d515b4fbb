//! The steps of a refutation.

use crate::clause::Clause;
use sc_lists::{Seq, Text};

/// What a step gives to its rule.
#[derive(Drop)]
pub enum Word {
    /// A number.
    Number(u64),
    /// Signs, each `+` (true), `-` (false) or `.` (none: a pattern that isn't asked).
    Signs(Seq<Option<bool>>),
}

/// An instance of a rule: the rule's word, and what the rule is applied to.
#[derive(Drop)]
pub struct Instance {
    /// The rule's word.
    pub rule: Text,
    /// What it is applied to, in order.
    pub words: Seq<Word>,
}

/// A learned clause, and the numbers of the earlier clauses that show it.
#[derive(Drop)]
pub struct Learned {
    /// The clause, its literals in the order in which they are written.
    pub clause: Clause,
    /// The hints: numbers of clauses, counted from 1, first those that define the problem and then
    /// those of the steps.
    pub hints: Seq<u64>,
}

/// A step of a log: it adds a clause to those before it.
#[derive(Drop)]
pub enum Step {
    /// The clause of an instance of a rule.
    Instance(Instance),
    /// A clause that earlier clauses show.
    Learned(Learned),
}
