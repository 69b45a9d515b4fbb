//! What a world stores of an entity.
ghost use Rattle.std.specs.Prelude.{◌≡◌, ◌<◌, ◌≤◌, ◌+◌, length, IfOk, OnErr};
ghost use Rattle.sc_sorts.specs.declared.sort.Sort.{out-Sort};
ghost use Rattle.sc_sorts.specs.Inside.{name_in};
ghost use Rattle.sc_terms.specs.Trees.{one, two};
ghost use Rattle.sc_terms.specs.Tables.{tree, Keeps, StandsFor};
ghost use Rattle.sc_terms.specs.Values.{it, val, HasValue, entity_in, attributes_value, ancestors_value, keys_value, tag_value, text_in};
ghost use Rattle.sc_sorts.specs.declared.node.UnaryOp.TheVariants as unary;
ghost use Rattle.sc_sorts.specs.declared.node.BinaryOp.TheVariants as binary;

use crate::terms::Terms;
use sc_sorts::{BinaryOp, Node, Sort, UnaryOp};
use std::alloc::AllocError;

impl Terms {
    /// The stored attributes of an entity, a record of this sort.
    pub fn attributes(&mut self, a: u64, sort: Sort) -> Result<u64, AllocError>
        requires a_in { a < length self.old }
        ensures ok { IfOk result (λ n. StandsFor self.new n (one (unary.Attributes sort) (tree self.old a))) }
        ensures value { IfOk result (λ n. HasValue self.new n (λ w. it (attributes_value sort (entity_in (val
            (tree self.old a) w) w)))) }
        ensures kept { Keeps self.old self.new }
        ensures grows { length self.new ≤ length self.old + 1 }
        ensures err { OnErr result (self.new ≡ self.old) }
    {
        self.add(Node::One(UnaryOp::Attributes(sort), a))
    }

    /// The stored ancestors of an entity that are entities of this sort.
    pub fn ancestors(&mut self, a: u64, sort: Sort) -> Result<u64, AllocError>
        requires a_in { a < length self.old }
        ensures ok { IfOk result (λ n. StandsFor self.new n (one (unary.Ancestors sort) (tree self.old a))) }
        ensures value { IfOk result (λ n. HasValue self.new n (λ w. it (ancestors_value (name_in (out-Sort sort))
            (entity_in (val (tree self.old a) w) w)))) }
        ensures kept { Keeps self.old self.new }
        ensures grows { length self.new ≤ length self.old + 1 }
        ensures err { OnErr result (self.new ≡ self.old) }
    {
        self.add(Node::One(UnaryOp::Ancestors(sort), a))
    }

    /// The keys of an entity's tags.
    pub fn keys(&mut self, a: u64) -> Result<u64, AllocError>
        requires a_in { a < length self.old }
        ensures ok { IfOk result (λ n. StandsFor self.new n (one unary.Keys (tree self.old a))) }
        ensures value { IfOk result (λ n. HasValue self.new n (λ w. it (keys_value (entity_in (val
            (tree self.old a) w) w)))) }
        ensures kept { Keeps self.old self.new }
        ensures grows { length self.new ≤ length self.old + 1 }
        ensures err { OnErr result (self.new ≡ self.old) }
    {
        self.add(Node::One(UnaryOp::Keys, a))
    }

    /// The tag of an entity under a key, of this sort.
    pub fn tag(&mut self, a: u64, b: u64, sort: Sort) -> Result<u64, AllocError>
        requires a_in { a < length self.old }
        requires b_in { b < length self.old }
        ensures ok { IfOk result (λ n. StandsFor self.new n
            (two (binary.Tag sort) (tree self.old a) (tree self.old b))) }
        ensures value { IfOk result (λ n. HasValue self.new n (λ w. it (tag_value sort (text_in (val
            (tree self.old b) w)) (entity_in (val (tree self.old a) w) w)))) }
        ensures kept { Keeps self.old self.new }
        ensures grows { length self.new ≤ length self.old + 1 }
        ensures err { OnErr result (self.new ≡ self.old) }
    {
        self.add(Node::Two(BinaryOp::Tag(sort), a, b))
    }
}
