//! Equations: constants, equal sides and literals are folded away; the lesser side stands first.
ghost use Rattle.std.specs.Prelude.{◌≡◌, ◌<◌, ◌≤◌, ◌+◌, length, IfOk, OnErr};
ghost use Rattle.std.specs.Ordering.{is_gt};
ghost use Rattle.sc_terms.specs.Tables.{tree, Keeps, StandsFor};
ghost use Rattle.sc_terms.specs.Order.{tree_eq, tree_cmp};
ghost use Rattle.sc_terms.specs.Folds.{literal_of, equal_term, other_equal, equation, literals_same};

use crate::terms::Terms;
use sc_sorts::{BinaryOp, Node, same_entity};
use std::alloc::AllocError;

impl Terms {
    #[tactic(auto, unfolding(crate::specs::Folds::equal_term))]
    pub(crate) fn folded_equal(&mut self, a: u64, b: u64) -> Result<u64, AllocError>
        requires a_in { a < length self.old }
        requires b_in { b < length self.old }
        ensures ok { IfOk result (λ n. StandsFor self.new n (equal_term (tree self.old a) (tree self.old b))) }
        ensures kept { Keeps self.old self.new }
        ensures grows { length self.new ≤ length self.old + 1 }
        ensures err { OnErr result (self.new ≡ self.old) }
    {
        match (self.constant(a), self.constant(b)) {
            (Some(true), _) => Ok(b),
            (Some(false), _) => self.folded_not(b),
            (None, Some(true)) => Ok(a),
            (None, Some(false)) => self.folded_not(a),
            (None, None) => self.equation(a, b),
        }
    }

    /// Of two terms that are no truth values.
    fn equation(&mut self, a: u64, b: u64) -> Result<u64, AllocError>
        requires a_in { a < length self.old }
        requires b_in { b < length self.old }
        ensures ok { IfOk result (λ n. StandsFor self.new n (other_equal (tree_eq (tree self.old a) (tree self.old b))
            (literals_same (literal_of (tree self.old a)) (literal_of (tree self.old b))) (tree self.old a)
            (tree self.old b))) }
        ensures kept { Keeps self.old self.new }
        ensures grows { length self.new ≤ length self.old + 1 }
        ensures err { OnErr result (self.new ≡ self.old) }
    {
        if self.is_same(a, b) {
            return self.truth(true);
        }
        match self.same_literals(a, b) {
            Some(same) => self.truth(same),
            None => self.ordered_equation(a, b),
        }
    }

    /// The equation with the lesser side first.
    fn ordered_equation(&mut self, a: u64, b: u64) -> Result<u64, AllocError>
        requires a_in { a < length self.old }
        requires b_in { b < length self.old }
        ensures ok { IfOk result (λ n. StandsFor self.new n (equation (is_gt (tree_cmp (tree self.old a)
            (tree self.old b))) (tree self.old a) (tree self.old b))) }
        ensures kept { Keeps self.old self.new }
        ensures grows { length self.new ≤ length self.old + 1 }
        ensures err { OnErr result (self.new ≡ self.old) }
    {
        if self.compare(a, b).is_gt() {
            self.add(Node::Two(BinaryOp::Equal, b, a))
        } else {
            self.add(Node::Two(BinaryOp::Equal, a, b))
        }
    }

    /// Whether two different literals have one value. None exactly where one is no literal.
    fn same_literals(&self, a: u64, b: u64) -> Option<bool>
        requires a_in { a < length self.now }
        requires b_in { b < length self.now }
        ensures { result ≡ literals_same (literal_of (tree self.now a)) (literal_of (tree self.now b)) }
    {
        let l = self.literal_at(a)?;
        let m = self.literal_at(b)?;
        Some(same_entity(l, m))
    }
}
