//! Bits of numbers and addresses, and what arithmetic by bits is told from.
ghost use Rattle.std.specs.Prelude.{◌≡◌, ◌<◌, ◌≤◌, ◌+◌, length, IfOk, OnErr};
ghost use Rattle.sc_ip.specs.Addresses.{is_in_range};
ghost use Rattle.sc_bits.specs.Plain.{low_bits_less};
ghost use Rattle.sc_terms.specs.Trees.{one, two};
ghost use Rattle.sc_terms.specs.Tables.{tree, Keeps, StandsFor};
ghost use Rattle.sc_terms.specs.Values.{yes, val, operands, HasValue, carry_value, row_value, product_carry_value, number_in, ip_in, level, bit_seen};
ghost use Rattle.sc_terms.specs.Folds.{bit_term, IsPlaceIn};
ghost use Rattle.sc_sorts.specs.declared.node.UnaryOp.TheVariants as unary;
ghost use Rattle.sc_sorts.specs.declared.node.BinaryOp.TheVariants as binary;

use crate::terms::Terms;
use sc_sorts::{BinaryOp, Node, UnaryOp, literal_bit};
use std::alloc::AllocError;

impl Terms {
    /// The bit at a place of a number or an address.
    pub fn bit(&mut self, a: u64, place: u64) -> Result<u64, AllocError>
        requires a_in { a < length self.old }
        requires place_in { IsPlaceIn (tree self.old a) place }
        ensures ok { IfOk result (λ n. StandsFor self.new n (bit_term (tree self.old a) place)) }
        ensures value { IfOk result (λ n. HasValue self.new n (λ w. yes (bit_seen (level (val
            (tree self.old a) w)) place))) }
        ensures kept { Keeps self.old self.new }
        ensures grows { length self.new ≤ length self.old + 1 }
        ensures err { OnErr result (self.new ≡ self.old) }
    {
        self.folded_bit(a, place)
    }

    #[tactic(auto, unfolding(crate::specs::Folds::bit_term))]
    pub(crate) fn folded_bit(&mut self, a: u64, place: u64) -> Result<u64, AllocError>
        requires a_in { a < length self.old }
        requires place_in { IsPlaceIn (tree self.old a) place }
        ensures ok { IfOk result (λ n. StandsFor self.new n (bit_term (tree self.old a) place)) }
        ensures kept { Keeps self.old self.new }
        ensures grows { length self.new ≤ length self.old + 1 }
        ensures err { OnErr result (self.new ≡ self.old) }
    {
        match self.literal_at(a) {
            Some(literal) => {
                let b = literal_bit(literal, place);
                self.truth(b)
            }
            None => self.add(Node::One(UnaryOp::Bit(place), a)),
        }
    }

    /// The carry into this bit of a sum, or of a difference.
    pub fn carry_in(&mut self, a: u64, place: u64) -> Result<u64, AllocError>
        requires a_in { a < length self.old }
        ensures ok { IfOk result (λ n. StandsFor self.new n (one (unary.CarryIn place) (tree self.old a))) }
        ensures value { IfOk result (λ n. HasValue self.new n (λ w. yes (carry_value (operands
            (tree self.old a) w) place))) }
        ensures kept { Keeps self.old self.new }
        ensures grows { length self.new ≤ length self.old + 1 }
        ensures err { OnErr result (self.new ≡ self.old) }
    {
        self.add(Node::One(UnaryOp::CarryIn(place), a))
    }

    /// Of a product, so many of whose partial products are added, the bit at a place.
    pub fn product_row(&mut self, a: u64, added: u64, place: u64) -> Result<u64, AllocError>
        requires a_in { a < length self.old }
        ensures ok { IfOk result (λ n. StandsFor self.new n (one (unary.ProductRow added place) (tree self.old a))) }
        ensures value { IfOk result (λ n. HasValue self.new n (λ w. yes (row_value (operands
            (tree self.old a) w) added place))) }
        ensures kept { Keeps self.old self.new }
        ensures grows { length self.new ≤ length self.old + 1 }
        ensures err { OnErr result (self.new ≡ self.old) }
    {
        self.add(Node::One(UnaryOp::ProductRow(added, place), a))
    }

    /// Of a product, the carry into a bit when the partial product of this number is added.
    pub fn product_carry(&mut self, a: u64, number: u64, place: u64) -> Result<u64, AllocError>
        requires a_in { a < length self.old }
        ensures ok { IfOk result (λ n. StandsFor self.new n (one (unary.ProductCarry number place) (tree self.old a))) }
        ensures value { IfOk result (λ n. HasValue self.new n (λ w. yes (product_carry_value (operands
            (tree self.old a) w) number place))) }
        ensures kept { Keeps self.old self.new }
        ensures grows { length self.new ≤ length self.old + 1 }
        ensures err { OnErr result (self.new ≡ self.old) }
    {
        self.add(Node::One(UnaryOp::ProductCarry(number, place), a))
    }

    /// Whether so many of the lowest bits are less, without a sign.
    pub fn low(&mut self, a: u64, b: u64, count: u64) -> Result<u64, AllocError>
        requires a_in { a < length self.old }
        requires b_in { b < length self.old }
        ensures ok { IfOk result (λ n. StandsFor self.new n
            (two (binary.Low count) (tree self.old a) (tree self.old b))) }
        ensures value { IfOk result (λ n. HasValue self.new n (λ w. yes (low_bits_less (number_in (val
            (tree self.old a) w)) (number_in (val (tree self.old b) w)) count))) }
        ensures kept { Keeps self.old self.new }
        ensures grows { length self.new ≤ length self.old + 1 }
        ensures err { OnErr result (self.new ≡ self.old) }
    {
        self.add(Node::Two(BinaryOp::Low(count), a, b))
    }

    /// Whether the first range lies within the second.
    pub fn in_range(&mut self, a: u64, b: u64) -> Result<u64, AllocError>
        requires a_in { a < length self.old }
        requires b_in { b < length self.old }
        ensures ok { IfOk result (λ n. StandsFor self.new n (two binary.InRange (tree self.old a) (tree self.old b))) }
        ensures value { IfOk result (λ n. HasValue self.new n (λ w. yes (is_in_range (ip_in (val (tree self.old a) w))
            (ip_in (val (tree self.old b) w))))) }
        ensures kept { Keeps self.old self.new }
        ensures grows { length self.new ≤ length self.old + 1 }
        ensures err { OnErr result (self.new ≡ self.old) }
    {
        self.add(Node::Two(BinaryOp::InRange, a, b))
    }
}
