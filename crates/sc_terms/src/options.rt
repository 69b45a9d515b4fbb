//! Options.
ghost use Rattle.std.specs.Prelude.{◌≡◌, ◌<◌, ◌≤◌, ◌+◌, length, IfOk, OnErr, is_some};
ghost use Rattle.sc_sorts.specs.Inside.{held_sort};
ghost use Rattle.sc_terms.specs.TreeSorts.{tree_sort};
ghost use Rattle.sc_terms.specs.Tables.{tree, Keeps, StandsFor};
ghost use Rattle.sc_terms.specs.Values.{yes, val, HasValue, option_in, held_value};
ghost use Rattle.sc_terms.specs.Folds.{present_term, held_term};

use crate::terms::Terms;
use sc_sorts::{Node, UnaryOp, try_clone};
use std::alloc::AllocError;

impl Terms {
    /// Whether an option holds a value.
    pub fn present(&mut self, a: u64) -> Result<u64, AllocError>
        requires a_in { a < length self.old }
        ensures ok { IfOk result (λ n. StandsFor self.new n (present_term (tree self.old a))) }
        ensures value { IfOk result (λ n. HasValue self.new n
            (λ w. yes (is_some (option_in (val (tree self.old a) w))))) }
        ensures kept { Keeps self.old self.new }
        ensures grows { length self.new ≤ length self.old + 1 }
        ensures err { OnErr result (self.new ≡ self.old) }
    {
        self.folded_present(a)
    }

    #[tactic(auto, unfolding(crate::specs::Folds::present_term))]
    pub(crate) fn folded_present(&mut self, a: u64) -> Result<u64, AllocError>
        requires a_in { a < length self.old }
        ensures ok { IfOk result (λ n. StandsFor self.new n (present_term (tree self.old a))) }
        ensures kept { Keeps self.old self.new }
        ensures grows { length self.new ≤ length self.old + 1 }
        ensures err { OnErr result (self.new ≡ self.old) }
    {
        match self.absent(a) {
            Some(_) => self.truth(false),
            None => self.add(Node::One(UnaryOp::Present, a)),
        }
    }

    /// What an option holds, or else the default of its sort.
    pub fn held(&mut self, a: u64) -> Result<u64, AllocError>
        requires { a < length self.old }
        ensures ok { IfOk result (λ n. StandsFor self.new n (held_term (tree self.old a))) }
        ensures value { IfOk result (λ n. HasValue self.new n (λ w. held_value (held_sort (tree_sort
            (tree self.old a))) (option_in (val (tree self.old a) w)))) }
        ensures kept { Keeps self.old self.new }
        ensures err { OnErr result (self.new ≡ self.old) }
    {
        self.folded_held(a)
    }

    #[tactic(auto, unfolding(crate::specs::Folds::held_term))]
    pub(crate) fn folded_held(&mut self, a: u64) -> Result<u64, AllocError>
        requires { a < length self.old }
        ensures ok { IfOk result (λ n. StandsFor self.new n (held_term (tree self.old a))) }
        ensures kept { Keeps self.old self.new }
        ensures err { OnErr result (self.new ≡ self.old) }
    {
        let alloc = self.allocator();
        match self.absent(a) {
            Some(sort) => {
                let sort = try_clone(alloc, sort)?;
                let outcome = self.default(&sort);
                drop(sort);
                outcome
            }
            None => self.add(Node::One(UnaryOp::Held, a)),
        }
    }
}
