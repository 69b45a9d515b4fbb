//! Of which kind the terms of a table are.
ghost use Rattle.std.specs.Prelude.{◌≡◌, ◌<◌, length};
ghost use Rattle.sc_terms.specs.Tables.{tree};
ghost use Rattle.sc_closure.specs.Atoms.{is_opposite as opposite, is_bool as truth_value, is_atom as atom};

use sc_sorts::{Leaf, Literal, Node, Sort, UnaryOp};
use sc_terms::Terms;

/// Whether a term is `false` or a negation.
fn is_opposite(terms: &Terms, n: u64) -> bool
    requires { n < length terms.now }
    ensures { result ≡ opposite (tree terms.now n) }
{
    match terms.node(n) {
        Node::Leaf(Leaf::Literal(Literal::Bool(false))) => true,
        Node::One(UnaryOp::Not, _) => true,
        _ => false,
    }
}

/// Whether a term is a truth value.
pub fn is_bool(terms: &Terms, n: u64) -> bool
    requires { n < length terms.now }
    ensures { result ≡ truth_value (tree terms.now n) }
{
    matches!(terms.sort(n), Sort::Bool)
}

/// Whether a term is an atom.
pub fn is_atom(terms: &Terms, n: u64) -> bool
    requires { n < length terms.now }
    ensures { result ≡ atom (tree terms.now n) }
{
    is_bool(terms, n) && !is_opposite(terms, n)
}
