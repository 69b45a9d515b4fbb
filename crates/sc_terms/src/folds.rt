//! The terms that connectives make: constants, double negations and equal parts are folded away.
ghost use Rattle.std.specs.Prelude.{◌≡◌, ◌<◌, ◌≤◌, ◌+◌, length, IfOk, OnErr};
ghost use Rattle.sc_terms.specs.Tables.{tree, Keeps, StandsFor};
ghost use Rattle.sc_terms.specs.Folds.{not_term, and_term, or_term, choice_term};

use crate::terms::Terms;
use sc_sorts::{BinaryOp, Node, UnaryOp};
use std::alloc::AllocError;

impl Terms {
    #[tactic(auto, unfolding(crate::specs::Folds::not_term))]
    pub(crate) fn folded_not(&mut self, a: u64) -> Result<u64, AllocError>
        requires a_in { a < length self.old }
        ensures ok { IfOk result (λ n. StandsFor self.new n (not_term (tree self.old a))) }
        ensures kept { Keeps self.old self.new }
        ensures grows { length self.new ≤ length self.old + 1 }
        ensures err { OnErr result (self.new ≡ self.old) }
    {
        match (self.constant(a), self.under_not(a)) {
            (Some(b), _) => self.truth(!b),
            (None, Some(m)) => Ok(m),
            (None, None) => self.add(Node::One(UnaryOp::Not, a)),
        }
    }

    #[tactic(auto, unfolding(crate::specs::Folds::and_term))]
    pub(crate) fn folded_and(&mut self, a: u64, b: u64) -> Result<u64, AllocError>
        requires a_in { a < length self.old }
        requires b_in { b < length self.old }
        ensures ok { IfOk result (λ n. StandsFor self.new n (and_term (tree self.old a) (tree self.old b))) }
        ensures kept { Keeps self.old self.new }
        ensures grows { length self.new ≤ length self.old + 1 }
        ensures err { OnErr result (self.new ≡ self.old) }
    {
        match (self.constant(a), self.constant(b)) {
            (Some(true), _) => Ok(b),
            (Some(false), _) => Ok(a),
            (None, Some(true)) => Ok(a),
            (None, Some(false)) => Ok(b),
            (None, None) => {
                if self.is_same(a, b) {
                    Ok(a)
                } else {
                    self.add(Node::Two(BinaryOp::And, a, b))
                }
            }
        }
    }

    #[tactic(auto, unfolding(crate::specs::Folds::or_term))]
    pub(crate) fn folded_or(&mut self, a: u64, b: u64) -> Result<u64, AllocError>
        requires a_in { a < length self.old }
        requires b_in { b < length self.old }
        ensures ok { IfOk result (λ n. StandsFor self.new n (or_term (tree self.old a) (tree self.old b))) }
        ensures kept { Keeps self.old self.new }
        ensures grows { length self.new ≤ length self.old + 1 }
        ensures err { OnErr result (self.new ≡ self.old) }
    {
        match (self.constant(a), self.constant(b)) {
            (Some(true), _) => Ok(a),
            (Some(false), _) => Ok(b),
            (None, Some(true)) => Ok(b),
            (None, Some(false)) => Ok(a),
            (None, None) => {
                if self.is_same(a, b) {
                    Ok(a)
                } else {
                    self.add(Node::Two(BinaryOp::Or, a, b))
                }
            }
        }
    }

    #[tactic(auto, unfolding(crate::specs::Folds::choice_term))]
    pub(crate) fn folded_choice(&mut self, c: u64, a: u64, b: u64) -> Result<u64, AllocError>
        requires c_in { c < length self.old }
        requires a_in { a < length self.old }
        requires b_in { b < length self.old }
        ensures ok { IfOk result (λ n. StandsFor self.new n (choice_term (tree self.old c) (tree self.old a)
            (tree self.old b))) }
        ensures kept { Keeps self.old self.new }
        ensures grows { length self.new ≤ length self.old + 1 }
        ensures err { OnErr result (self.new ≡ self.old) }
    {
        match self.constant(c) {
            Some(true) => Ok(a),
            Some(false) => Ok(b),
            None => {
                if self.is_same(a, b) {
                    Ok(a)
                } else {
                    self.add(Node::Choice(c, a, b))
                }
            }
        }
    }
}
