//! Equations of the table.
ghost use Rattle.std.specs.Prelude.{◌<◌, length};
ghost use Rattle.sc_terms.specs.Tables.{tree};
ghost use Rattle.th_equal.specs.Equated.{AreSidesIf};

use sc_footprint::Problem;
use sc_sorts::{BinaryOp, Node};

/// The sides of an equation, by their numbers in the table. None exactly of another term.
pub fn sides(problem: &Problem<'_>, at: u64) -> Option<(u64, u64)>
    requires { at < length problem.now.nodes }
    ensures { AreSidesIf problem.now (tree problem.now.nodes at) result }
{
    match problem.terms().node(at) {
        Node::Two(BinaryOp::Equal, a, b) => Some((*a, *b)),
        _ => None,
    }
}
