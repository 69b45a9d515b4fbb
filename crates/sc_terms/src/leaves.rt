//! Terms with no parts.
ghost use Rattle.std.specs.Prelude.{◌≡◌, ◌≤◌, ◌+◌, length, IfOk, OnErr, None};
ghost use Rattle.sc_terms.specs.Trees.{leaf};
ghost use Rattle.sc_terms.specs.Tables.{Keeps, StandsFor};
ghost use Rattle.sc_terms.specs.Values.{it, maybe, yes, HasValue, literal_value};
ghost use Rattle.sc_terms.specs.Folds.{truth_term};
ghost use Rattle.sc_sorts.specs.declared.node.Leaf.TheVariants as leafs;
ghost use Rattle.sc_values.specs.declared.value.Value.TheVariants.{Entity, Record};

use crate::terms::Terms;
use sc_sorts::{Leaf, Literal, Node, Sort};
use std::alloc::AllocError;

impl Terms {
    /// A literal.
    pub fn literal(&mut self, literal: Literal) -> Result<u64, AllocError>
        ensures ok { IfOk result (λ n. StandsFor self.new n (leaf (leafs.Literal literal))) }
        ensures value { IfOk result (λ n. HasValue self.new n (λ w. it (literal_value literal))) }
        ensures kept { Keeps self.old self.new }
        ensures grows { length self.new ≤ length self.old + 1 }
        ensures err { OnErr result (self.new ≡ self.old) }
    {
        self.add(Node::Leaf(Leaf::Literal(literal)))
    }

    /// A truth value.
    pub fn truth(&mut self, b: bool) -> Result<u64, AllocError>
        ensures ok { IfOk result (λ n. StandsFor self.new n (truth_term b)) }
        ensures value { IfOk result (λ n. HasValue self.new n (λ w. yes b)) }
        ensures kept { Keeps self.old self.new }
        ensures grows { length self.new ≤ length self.old + 1 }
        ensures err { OnErr result (self.new ≡ self.old) }
    {
        self.add(Node::Leaf(Leaf::Literal(Literal::Bool(b))))
    }

    /// The absent option of values of this sort.
    pub fn none(&mut self, held: Sort) -> Result<u64, AllocError>
        ensures ok { IfOk result (λ n. StandsFor self.new n (leaf (leafs.None held))) }
        ensures value { IfOk result (λ n. HasValue self.new n (λ w. maybe None)) }
        ensures kept { Keeps self.old self.new }
        ensures grows { length self.new ≤ length self.old + 1 }
        ensures err { OnErr result (self.new ≡ self.old) }
    {
        self.add(Node::Leaf(Leaf::None(held)))
    }

    /// Who asks, an entity of this sort.
    pub fn principal(&mut self, sort: Sort) -> Result<u64, AllocError>
        ensures ok { IfOk result (λ n. StandsFor self.new n (leaf (leafs.Principal sort))) }
        ensures value { IfOk result (λ n. HasValue self.new n (λ w. it (Entity w.request.principal))) }
        ensures kept { Keeps self.old self.new }
        ensures grows { length self.new ≤ length self.old + 1 }
        ensures err { OnErr result (self.new ≡ self.old) }
    {
        self.add(Node::Leaf(Leaf::Principal(sort)))
    }

    /// With what, an entity of this sort.
    pub fn resource(&mut self, sort: Sort) -> Result<u64, AllocError>
        ensures ok { IfOk result (λ n. StandsFor self.new n (leaf (leafs.Resource sort))) }
        ensures value { IfOk result (λ n. HasValue self.new n (λ w. it (Entity w.request.resource))) }
        ensures kept { Keeps self.old self.new }
        ensures grows { length self.new ≤ length self.old + 1 }
        ensures err { OnErr result (self.new ≡ self.old) }
    {
        self.add(Node::Leaf(Leaf::Resource(sort)))
    }

    /// What else is told of the request, a record of this sort.
    pub fn context(&mut self, sort: Sort) -> Result<u64, AllocError>
        ensures ok { IfOk result (λ n. StandsFor self.new n (leaf (leafs.Context sort))) }
        ensures value { IfOk result (λ n. HasValue self.new n (λ w. it (Record w.request.context))) }
        ensures kept { Keeps self.old self.new }
        ensures grows { length self.new ≤ length self.old + 1 }
        ensures err { OnErr result (self.new ≡ self.old) }
    {
        self.add(Node::Leaf(Leaf::Context(sort)))
    }
}
