//! Sums, differences, products, and the order of numbers.
ghost use Rattle.std.specs.Prelude.{◌≡◌, ◌<◌, ◌≤◌, ◌+◌, length, IfOk, OnErr, ◌+ℤ◌, ◌-ℤ◌, ◌*ℤ◌, int_lt};
ghost use Rattle.std.specs.Int.{w64, int_wrap};
ghost use Rattle.sc_bits.specs.Adders.{leaves64};
ghost use Rattle.sc_terms.specs.Trees.{two};
ghost use Rattle.sc_terms.specs.Tables.{tree, Keeps, StandsFor};
ghost use Rattle.sc_terms.specs.Values.{it, yes, val, HasValue, number_in};
ghost use Rattle.sc_sorts.specs.declared.node.BinaryOp.TheVariants as binary;
ghost use Rattle.sc_values.specs.declared.value.Value.TheVariants.{Long};

use crate::terms::Terms;
use sc_sorts::{BinaryOp, Node};
use std::alloc::AllocError;

impl Terms {
    /// The sum in 64 bits.
    pub fn sum(&mut self, a: u64, b: u64) -> Result<u64, AllocError>
        requires a_in { a < length self.old }
        requires b_in { b < length self.old }
        ensures ok { IfOk result (λ n. StandsFor self.new n (two binary.Add (tree self.old a) (tree self.old b))) }
        ensures value { IfOk result (λ n. HasValue self.new n (λ w. it (Long (int_wrap w64 (number_in (val
            (tree self.old a) w) +ℤ number_in (val (tree self.old b) w)))))) }
        ensures kept { Keeps self.old self.new }
        ensures grows { length self.new ≤ length self.old + 1 }
        ensures err { OnErr result (self.new ≡ self.old) }
    {
        self.add(Node::Two(BinaryOp::Add, a, b))
    }

    /// The difference in 64 bits.
    pub fn difference(&mut self, a: u64, b: u64) -> Result<u64, AllocError>
        requires a_in { a < length self.old }
        requires b_in { b < length self.old }
        ensures ok { IfOk result (λ n. StandsFor self.new n (two binary.Subtract (tree self.old a) (tree self.old b))) }
        ensures value { IfOk result (λ n. HasValue self.new n (λ w. it (Long (int_wrap w64 (number_in (val
            (tree self.old a) w) -ℤ number_in (val (tree self.old b) w)))))) }
        ensures kept { Keeps self.old self.new }
        ensures grows { length self.new ≤ length self.old + 1 }
        ensures err { OnErr result (self.new ≡ self.old) }
    {
        self.add(Node::Two(BinaryOp::Subtract, a, b))
    }

    /// The product in 64 bits.
    pub fn product(&mut self, a: u64, b: u64) -> Result<u64, AllocError>
        requires a_in { a < length self.old }
        requires b_in { b < length self.old }
        ensures ok { IfOk result (λ n. StandsFor self.new n (two binary.Multiply (tree self.old a) (tree self.old b))) }
        ensures value { IfOk result (λ n. HasValue self.new n (λ w. it (Long (int_wrap w64 (number_in (val
            (tree self.old a) w) *ℤ number_in (val (tree self.old b) w)))))) }
        ensures kept { Keeps self.old self.new }
        ensures grows { length self.new ≤ length self.old + 1 }
        ensures err { OnErr result (self.new ≡ self.old) }
    {
        self.add(Node::Two(BinaryOp::Multiply, a, b))
    }

    /// Whether the exact sum leaves 64 bits.
    pub fn sum_overflows(&mut self, a: u64, b: u64) -> Result<u64, AllocError>
        requires a_in { a < length self.old }
        requires b_in { b < length self.old }
        ensures ok { IfOk result (λ n. StandsFor self.new n
            (two binary.AddOverflows (tree self.old a) (tree self.old b))) }
        ensures value { IfOk result (λ n. HasValue self.new n (λ w. yes (leaves64 (number_in (val
            (tree self.old a) w) +ℤ number_in (val (tree self.old b) w))))) }
        ensures kept { Keeps self.old self.new }
        ensures grows { length self.new ≤ length self.old + 1 }
        ensures err { OnErr result (self.new ≡ self.old) }
    {
        self.add(Node::Two(BinaryOp::AddOverflows, a, b))
    }

    /// Whether the exact difference leaves 64 bits.
    pub fn difference_overflows(&mut self, a: u64, b: u64) -> Result<u64, AllocError>
        requires a_in { a < length self.old }
        requires b_in { b < length self.old }
        ensures ok { IfOk result (λ n. StandsFor self.new n (two binary.SubtractOverflows (tree self.old a)
            (tree self.old b))) }
        ensures value { IfOk result (λ n. HasValue self.new n (λ w. yes (leaves64 (number_in (val
            (tree self.old a) w) -ℤ number_in (val (tree self.old b) w))))) }
        ensures kept { Keeps self.old self.new }
        ensures grows { length self.new ≤ length self.old + 1 }
        ensures err { OnErr result (self.new ≡ self.old) }
    {
        self.add(Node::Two(BinaryOp::SubtractOverflows, a, b))
    }

    /// Whether the exact product leaves 64 bits.
    pub fn product_overflows(&mut self, a: u64, b: u64) -> Result<u64, AllocError>
        requires a_in { a < length self.old }
        requires b_in { b < length self.old }
        ensures ok { IfOk result (λ n. StandsFor self.new n (two binary.MultiplyOverflows (tree self.old a)
            (tree self.old b))) }
        ensures value { IfOk result (λ n. HasValue self.new n (λ w. yes (leaves64 (number_in (val
            (tree self.old a) w) *ℤ number_in (val (tree self.old b) w))))) }
        ensures kept { Keeps self.old self.new }
        ensures grows { length self.new ≤ length self.old + 1 }
        ensures err { OnErr result (self.new ≡ self.old) }
    {
        self.add(Node::Two(BinaryOp::MultiplyOverflows, a, b))
    }

    /// Whether the first number is less.
    pub fn less(&mut self, a: u64, b: u64) -> Result<u64, AllocError>
        requires a_in { a < length self.old }
        requires b_in { b < length self.old }
        ensures ok { IfOk result (λ n. StandsFor self.new n (two binary.Less (tree self.old a) (tree self.old b))) }
        ensures value { IfOk result (λ n. HasValue self.new n (λ w. yes (int_lt (number_in (val (tree self.old a) w))
            (number_in (val (tree self.old b) w))))) }
        ensures kept { Keeps self.old self.new }
        ensures grows { length self.new ≤ length self.old + 1 }
        ensures err { OnErr result (self.new ≡ self.old) }
    {
        self.add(Node::Two(BinaryOp::Less, a, b))
    }
}
