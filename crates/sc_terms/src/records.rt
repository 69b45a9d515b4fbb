//! Records.
ghost use Rattle.std.specs.Prelude.{◌≡◌, ◌<◌, ◌≤◌, ◌+◌, length, IfOk, OnErr, flat_map};
ghost use Rattle.sc_sorts.specs.Inside.{field_sort};
ghost use Rattle.sc_terms.specs.Trees.{many};
ghost use Rattle.sc_terms.specs.TreeSorts.{tree_sort};
ghost use Rattle.sc_terms.specs.Tables.{tree, node_parts, AreBelow, Keeps, StandsFor};
ghost use Rattle.sc_terms.specs.Values.{it, val, vals, HasValue, HasValueWhere, HasKinds, field_value, field_of};
ghost use Rattle.sc_terms.specs.Folds.{field_term};
ghost use Rattle.sc_values.specs.declared.value.Value.TheVariants.{Record};
ghost use Rattle.sc_sorts.specs.declared.node.ManyOp.TheVariants as manys;

use crate::terms::Terms;
use sc_lists::Text;
use sc_sorts::{ManyOp, Node, Parts, UnaryOp};
use std::alloc::AllocError;

impl Terms {
    /// The field of a name of a record.
    pub fn field(&mut self, a: u64, name: Text) -> Result<u64, AllocError>
        requires a_in { a < length self.old }
        ensures ok { IfOk result (λ n. StandsFor self.new n (field_term name (tree self.old a))) }
        ensures value { IfOk result (λ n. HasValueWhere self.new n (HasKinds (tree self.old a)) (λ w. field_value name
            (field_sort name (tree_sort (tree self.old a))) (val (tree self.old a) w))) }
        ensures kept { Keeps self.old self.new }
        ensures grows { length self.new ≤ length self.old + 1 }
        ensures err { OnErr result (self.new ≡ self.old) }
    {
        self.folded_field(a, name)
    }

    #[tactic(auto, unfolding(crate::specs::Folds::field_term))]
    pub(crate) fn folded_field(&mut self, a: u64, name: Text) -> Result<u64, AllocError>
        requires a_in { a < length self.old }
        ensures ok { IfOk result (λ n. StandsFor self.new n (field_term name (tree self.old a))) }
        ensures kept { Keeps self.old self.new }
        ensures grows { length self.new ≤ length self.old + 1 }
        ensures err { OnErr result (self.new ≡ self.old) }
    {
        match self.component(a, &name) {
            Some(m) => Ok(m),
            None => self.add(Node::One(UnaryOp::Field(name), a)),
        }
    }

    /// The record of these fields.
    pub fn record(&mut self, parts: Parts) -> Result<u64, AllocError>
        requires { AreBelow (length self.old) parts }
        ensures ok { IfOk result (λ n. StandsFor self.new n (many manys.Record (node_parts self.old parts))) }
        ensures value { IfOk result (λ n. HasValue self.new n (λ w. it (Record (flat_map field_of (vals
            (node_parts self.old parts) w))))) }
        ensures kept { Keeps self.old self.new }
        ensures grows { length self.new ≤ length self.old + 1 }
        ensures err { OnErr result (self.new ≡ self.old) }
    {
        self.add(Node::Many(ManyOp::Record, parts))
    }
}
