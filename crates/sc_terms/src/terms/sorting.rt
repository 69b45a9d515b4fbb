//! The sort of a node, by those of its parts.
ghost use Rattle.std.specs.Prelude.{◌≡◌, ◌<◌, length, IfOk, OnOk, ◌++◌, [], ◌∷◌};
ghost use Rattle.sc_terms.specs.Tables.{node_tree, node_parts, tree, PartsAreBelow, AreBelow};
ghost use Rattle.sc_sorts.specs.NodeSorts.{many_sort};
ghost use Rattle.sc_terms.specs.TreeSorts as sorting;

use super::Terms;
use sc_lists::{Boxed, Seq, Text};
use sc_sorts::{ManyOp, Node, Sort, binary_sort, leaf_sort, try_clone, unary_sort};
use std::alloc::AllocError;

impl Terms {
    #[tactic(auto, unfolding(crate::specs::TreeSorts::tree_sort))]
    pub(crate) fn node_sort(&self, node: &Node) -> Result<Sort, AllocError>
        requires { PartsAreBelow (length self.now) node.now }
        ensures { IfOk result (λ s. s ≡ sorting.tree_sort (node_tree self.now node.now)) }
    {
        match node {
            Node::Leaf(leaf) => leaf_sort(self.alloc, leaf),
            Node::One(op, a) => unary_sort(self.alloc, op, self.sort(*a)),
            Node::Two(op, a, _) => binary_sort(self.alloc, op, self.sort(*a)),
            Node::Choice(_, a, _) => try_clone(self.alloc, self.sort(*a)),
            Node::Many(op, parts) => self.many_sort(op, parts.as_slice()),
        }
    }

    fn many_sort(&self, op: &ManyOp, parts: &[(Text, u64)]) -> Result<Sort, AllocError>
        requires { AreBelow (length self.now) parts.now }
        ensures { IfOk result (λ s. s ≡ many_sort op.now (sorting.sorts_of (node_parts self.now parts.now))) }
    {
        match op {
            ManyOp::Record => Ok(Sort::Record(self.field_sorts(parts)?)),
            ManyOp::Set(member) => Ok(Sort::Set(Boxed::new(
                self.alloc,
                try_clone(self.alloc, member)?,
            )?)),
        }
    }

    fn field_sorts(&self, parts: &[(Text, u64)]) -> Result<Seq<(Text, Sort)>, AllocError>
        requires { AreBelow (length self.now) parts.now }
        ensures { IfOk result (λ fields. fields ≡ sorting.sorts_of (node_parts self.now parts.now)) }
    {
        let mut fields = Seq::new(self.alloc);
        let mut rest = parts;
        while let Some((part, later)) = rest.split_first() {
            self.put_sort(part, &mut fields)?;
            rest = later;
        }
        Ok(fields)
    }

    fn put_sort(&self, part: &(Text, u64), fields: &mut Seq<(Text, Sort)>) -> Result<(), AllocError>
        requires { part.now.1 < length self.now }
        ensures { OnOk result (fields.new ≡ fields.old
            ++ (part.now.0, sorting.tree_sort (tree self.now part.now.1)) ∷ []) }
    {
        let name = part.0.try_clone(self.alloc)?;
        let sort = try_clone(self.alloc, self.sort(part.1))?;
        fields.push((name, sort))
    }
}
