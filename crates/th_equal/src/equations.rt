//! Choices of the table, and the numbers of closed terms.
ghost use Rattle.std.specs.Prelude.{◌≡◌, ◌<◌, length};
ghost use Rattle.sc_terms.specs.Tables.{tree};
ghost use Rattle.th_equal.specs.Equations.{IsNumberIf, is_choice as choice_test};

use sc_footprint::Problem;
use sc_sorts::Node;

/// Whether a term is a choice.
pub(crate) fn is_choice(problem: &Problem<'_>, at: u64) -> bool
    requires { at < length problem.now.nodes }
    ensures { result ≡ choice_test (tree problem.now.nodes at) }
{
    match problem.terms().node(at) {
        Node::Choice(_, _, _) => true,
        _ => false,
    }
}

/// The number of a closed term. None exactly of a term that isn't closed.
pub(crate) fn number(problem: &Problem<'_>, at: u64) -> Option<u64>
    requires { at < length problem.now.nodes }
    ensures { IsNumberIf problem.now (tree problem.now.nodes at) result }
{
    problem.laws();
    problem.terms().laws();
    problem.number_of(at)
}
