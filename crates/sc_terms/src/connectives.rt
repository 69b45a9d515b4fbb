//! Connectives. Of values that are no truth values each gives what keeps its folds right.
ghost use Rattle.std.specs.Prelude.{◌≡◌, ◌<◌, ◌≤◌, ◌+◌, length, IfOk, OnErr};
ghost use Rattle.sc_terms.specs.Tables.{tree, Keeps, StandsFor};
ghost use Rattle.sc_terms.specs.Values.{val, HasValue, not_value, and_value, or_value, equal_value, choice_value};
ghost use Rattle.sc_terms.specs.Folds.{not_term, and_term, or_term, choice_term, equal_term};

use crate::terms::Terms;
use std::alloc::AllocError;

impl Terms {
    /// The other truth value.
    pub fn not(&mut self, a: u64) -> Result<u64, AllocError>
        requires a_in { a < length self.old }
        ensures ok { IfOk result (λ n. StandsFor self.new n (not_term (tree self.old a))) }
        ensures value { IfOk result (λ n. HasValue self.new n (λ w. not_value (val (tree self.old a) w))) }
        ensures kept { Keeps self.old self.new }
        ensures grows { length self.new ≤ length self.old + 1 }
        ensures err { OnErr result (self.new ≡ self.old) }
    {
        self.folded_not(a)
    }

    /// Whether both are true.
    pub fn and(&mut self, a: u64, b: u64) -> Result<u64, AllocError>
        requires a_in { a < length self.old }
        requires b_in { b < length self.old }
        ensures ok { IfOk result (λ n. StandsFor self.new n (and_term (tree self.old a) (tree self.old b))) }
        ensures value { IfOk result (λ n. HasValue self.new n (λ w. and_value (val (tree self.old a) w) (val
            (tree self.old b) w))) }
        ensures kept { Keeps self.old self.new }
        ensures grows { length self.new ≤ length self.old + 1 }
        ensures err { OnErr result (self.new ≡ self.old) }
    {
        self.folded_and(a, b)
    }

    /// Whether one is true.
    pub fn or(&mut self, a: u64, b: u64) -> Result<u64, AllocError>
        requires a_in { a < length self.old }
        requires b_in { b < length self.old }
        ensures ok { IfOk result (λ n. StandsFor self.new n (or_term (tree self.old a) (tree self.old b))) }
        ensures value { IfOk result (λ n. HasValue self.new n (λ w. or_value (val (tree self.old a) w) (val
            (tree self.old b) w))) }
        ensures kept { Keeps self.old self.new }
        ensures grows { length self.new ≤ length self.old + 1 }
        ensures err { OnErr result (self.new ≡ self.old) }
    {
        self.folded_or(a, b)
    }

    /// The second term where the first is true, and else the third.
    pub fn choice(&mut self, c: u64, a: u64, b: u64) -> Result<u64, AllocError>
        requires c_in { c < length self.old }
        requires a_in { a < length self.old }
        requires b_in { b < length self.old }
        ensures ok { IfOk result (λ n. StandsFor self.new n (choice_term (tree self.old c) (tree self.old a)
            (tree self.old b))) }
        ensures value { IfOk result (λ n. HasValue self.new n (λ w. choice_value (val (tree self.old c) w) (val
            (tree self.old a) w) (val (tree self.old b) w))) }
        ensures kept { Keeps self.old self.new }
        ensures grows { length self.new ≤ length self.old + 1 }
        ensures err { OnErr result (self.new ≡ self.old) }
    {
        self.folded_choice(c, a, b)
    }

    /// Whether two terms have one value.
    pub fn equal(&mut self, a: u64, b: u64) -> Result<u64, AllocError>
        requires a_in { a < length self.old }
        requires b_in { b < length self.old }
        ensures ok { IfOk result (λ n. StandsFor self.new n (equal_term (tree self.old a) (tree self.old b))) }
        ensures value { IfOk result (λ n. HasValue self.new n (λ w. equal_value (val (tree self.old a) w) (val
            (tree self.old b) w))) }
        ensures kept { Keeps self.old self.new }
        ensures grows { length self.new ≤ length self.old + 1 }
        ensures err { OnErr result (self.new ≡ self.old) }
    {
        self.folded_equal(a, b)
    }
}
