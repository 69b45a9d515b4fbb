//! Texts that match patterns.
ghost use Rattle.std.specs.Prelude.{◌≡◌, ◌<◌, ◌≤◌, ◌+◌, length, IfOk, OnErr};
ghost use Rattle.sc_terms.specs.Tables.{tree, Keeps, StandsFor};
ghost use Rattle.sc_terms.specs.Values.{yes, val, HasValue, level, like_seen};
ghost use Rattle.sc_terms.specs.Folds.{like_term};

use crate::terms::Terms;
use sc_pattern::Pattern;
use sc_sorts::{Node, UnaryOp, literal_like};
use std::alloc::AllocError;

impl Terms {
    /// Whether a text matches a pattern.
    pub fn like(&mut self, a: u64, pattern: Pattern) -> Result<u64, AllocError>
        requires { a < length self.old }
        ensures ok { IfOk result (λ n. StandsFor self.new n (like_term (tree self.old a) pattern)) }
        ensures value { IfOk result (λ n. HasValue self.new n (λ w. yes (like_seen (level (val
            (tree self.old a) w)) pattern))) }
        ensures kept { Keeps self.old self.new }
        ensures grows { length self.new ≤ length self.old + 1 }
        ensures err { OnErr result (self.new ≡ self.old) }
    {
        self.folded_like(a, pattern)
    }

    #[tactic(auto, unfolding(crate::specs::Folds::like_term))]
    pub(crate) fn folded_like(&mut self, a: u64, pattern: Pattern) -> Result<u64, AllocError>
        requires { a < length self.old }
        ensures ok { IfOk result (λ n. StandsFor self.new n (like_term (tree self.old a) pattern)) }
        ensures kept { Keeps self.old self.new }
        ensures grows { length self.new ≤ length self.old + 1 }
        ensures err { OnErr result (self.new ≡ self.old) }
    {
        match self.literal_at(a) {
            Some(literal) => {
                let b = literal_like(literal, &pattern);
                self.truth(b)
            }
            None => self.add(Node::One(UnaryOp::Like(pattern), a)),
        }
    }
}
