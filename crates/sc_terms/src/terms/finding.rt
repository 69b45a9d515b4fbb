//! The number of a term that may be in a table.
ghost use Rattle.std.specs.Prelude.{◌≡◌, false, length, IfOk};
ghost use Rattle.std.specs.List.{list_any};
ghost use Rattle.sc_sorts.specs.contracts.node.NodePartialEq.TheImpl.{ghosts as node_equality};
ghost use Rattle.sc_terms.specs.Tables.{node_tree, PartsAreBelow};
ghost use Rattle.sc_terms.specs.Finding.{IsFound, IsAbsent};

use super::Terms;
use sc_sorts::Node;

impl Terms {
    /// The number that stands for the term of a node, whose parts are numbers of the table. None
    /// exactly where no number does.
    pub fn find(&self, node: &Node) -> Option<u64>
        requires { PartsAreBelow (length self.now) node.now }
        ensures found { IsFound self.now (node_tree self.now node.now) result }
        ensures absent { IsAbsent self.now node.now result }
    {
        match self.nodes.get_index_of(node) {
            Some(n) => Some(n as u64),
            None => None,
        }
    }
}
