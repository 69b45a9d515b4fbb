//! Sets.
ghost use Rattle.std.specs.Prelude.{◌≡◌, ◌<◌, ◌≤◌, ◌+◌, length, IfOk, OnErr, All, map, find, not};
ghost use Rattle.std.specs.List.{list_all, list_any};
ghost use Rattle.sc_sorts.specs.Inside.{member_sort};
ghost use Rattle.sc_terms.specs.Trees.{Tree, two, many};
ghost use Rattle.sc_terms.specs.TreeSorts.{tree_sort};
ghost use Rattle.sc_terms.specs.Tables.{tree, node_parts, AreBelow, Keeps, StandsFor};
ghost use Rattle.sc_terms.specs.Values.{it, yes, val, HasValue, members_in, value_in, has_member, least, set_from};
ghost use Rattle.sc_terms.specs.Folds.{set_term};
ghost use Rattle.sc_sorts.specs.declared.node.BinaryOp.TheVariants as binary;
ghost use Rattle.sc_values.specs.declared.value.Value.{Value as AnyValue};
ghost use Rattle.sc_values.specs.declared.value.Value.TheVariants.{Set};
ghost use Rattle.sc_sorts.specs.declared.node.ManyOp.TheVariants as manys;

use crate::terms::Terms;
use sc_sorts::{BinaryOp, ManyOp, Node, Parts, Sort, unlabelled};
use std::alloc::AllocError;

impl Terms {
    /// The set of these members.
    #[tactic(auto, using(crate::proofs::SetLaws::set_below, crate::proofs::SetLaws::set_is))]
    pub fn set(&mut self, member: Sort, members: &[u64]) -> Result<u64, AllocError>
        requires { All (λ n. n < length self.old) members.now }
        ensures ok { IfOk result (λ n. StandsFor self.new n (set_term member (map (tree self.old) members.now))) }
        ensures value { IfOk result (λ n. HasValue self.new n (λ w. it (Set (set_from (map (λ (t : Tree). value_in
            (val t w)) (map (tree self.old) members.now)))))) }
        ensures kept { Keeps self.old self.new }
        ensures grows { length self.new ≤ length self.old + 1 }
        ensures err { OnErr result (self.new ≡ self.old) }
    {
        let parts = unlabelled(self.allocator(), members)?;
        self.labelled_set(member, parts)
    }

    /// The set of these members, which have no labels.
    pub(crate) fn labelled_set(&mut self, member: Sort, parts: Parts) -> Result<u64, AllocError>
        requires { AreBelow (length self.old) parts }
        ensures ok { IfOk result (λ n. StandsFor self.new n (many (manys.Set member) (node_parts self.old parts))) }
        ensures kept { Keeps self.old self.new }
        ensures grows { length self.new ≤ length self.old + 1 }
        ensures err { OnErr result (self.new ≡ self.old) }
    {
        self.add(Node::Many(ManyOp::Set(member), parts))
    }

    /// Whether the second term, a set, has the first as a member.
    pub fn member(&mut self, a: u64, b: u64) -> Result<u64, AllocError>
        requires a_in { a < length self.old }
        requires b_in { b < length self.old }
        ensures ok { IfOk result (λ n. StandsFor self.new n (two binary.Member (tree self.old a) (tree self.old b))) }
        ensures value { IfOk result (λ n. HasValue self.new n (λ w. yes (has_member (members_in (val
            (tree self.old b) w)) (value_in (val (tree self.old a) w))))) }
        ensures kept { Keeps self.old self.new }
        ensures grows { length self.new ≤ length self.old + 1 }
        ensures err { OnErr result (self.new ≡ self.old) }
    {
        self.add(Node::Two(BinaryOp::Member, a, b))
    }

    /// Whether each member of the first set is one of the second.
    pub fn subset(&mut self, a: u64, b: u64) -> Result<u64, AllocError>
        requires a_in { a < length self.old }
        requires b_in { b < length self.old }
        ensures ok { IfOk result (λ n. StandsFor self.new n (two binary.Subset (tree self.old a) (tree self.old b))) }
        ensures value { IfOk result (λ n. HasValue self.new n (λ w. yes (list_all (has_member (members_in (val
            (tree self.old b) w))) (members_in (val (tree self.old a) w))))) }
        ensures kept { Keeps self.old self.new }
        ensures grows { length self.new ≤ length self.old + 1 }
        ensures err { OnErr result (self.new ≡ self.old) }
    {
        self.add(Node::Two(BinaryOp::Subset, a, b))
    }

    /// Whether two sets have a member in common.
    pub fn common(&mut self, a: u64, b: u64) -> Result<u64, AllocError>
        requires a_in { a < length self.old }
        requires b_in { b < length self.old }
        ensures ok { IfOk result (λ n. StandsFor self.new n (two binary.Common (tree self.old a) (tree self.old b))) }
        ensures value { IfOk result (λ n. HasValue self.new n (λ w. yes (list_any (has_member (members_in (val
            (tree self.old b) w))) (members_in (val (tree self.old a) w))))) }
        ensures kept { Keeps self.old self.new }
        ensures grows { length self.new ≤ length self.old + 1 }
        ensures err { OnErr result (self.new ≡ self.old) }
    {
        self.add(Node::Two(BinaryOp::Common, a, b))
    }

    /// The least member of the first set that isn't one of the second, or else the default.
    pub fn difference_pick(&mut self, a: u64, b: u64) -> Result<u64, AllocError>
        requires a_in { a < length self.old }
        requires b_in { b < length self.old }
        ensures ok { IfOk result (λ n. StandsFor self.new n (two binary.DifferencePick (tree self.old a)
            (tree self.old b))) }
        ensures value { IfOk result (λ n. HasValue self.new n (λ w. least (member_sort (tree_sort (tree self.old a)))
            (find (λ (z : AnyValue). not (has_member (members_in (val (tree self.old b) w)) z)) (members_in (val
            (tree self.old a) w))))) }
        ensures kept { Keeps self.old self.new }
        ensures grows { length self.new ≤ length self.old + 1 }
        ensures err { OnErr result (self.new ≡ self.old) }
    {
        self.add(Node::Two(BinaryOp::DifferencePick, a, b))
    }

    /// The least member that two sets have in common, or else the default.
    pub fn common_pick(&mut self, a: u64, b: u64) -> Result<u64, AllocError>
        requires a_in { a < length self.old }
        requires b_in { b < length self.old }
        ensures ok { IfOk result (λ n. StandsFor self.new n
            (two binary.CommonPick (tree self.old a) (tree self.old b))) }
        ensures value { IfOk result (λ n. HasValue self.new n (λ w. least (member_sort (tree_sort (tree self.old a)))
            (find (has_member (members_in (val (tree self.old b) w))) (members_in (val (tree self.old a) w))))) }
        ensures kept { Keeps self.old self.new }
        ensures grows { length self.new ≤ length self.old + 1 }
        ensures err { OnErr result (self.new ≡ self.old) }
    {
        self.add(Node::Two(BinaryOp::CommonPick, a, b))
    }
}
