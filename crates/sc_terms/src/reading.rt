//! What a term is made of, where it is of one row.
ghost use Rattle.std.specs.Prelude.{◌≡◌, ◌<◌, length, option_map, IfSome};
ghost use Rattle.std.specs.Option.{option_copied};
ghost use Rattle.sc_terms.specs.Tables.{tree, node_parts, AreBelow};
ghost use Rattle.sc_terms.specs.Folds.{literal_of, among_parts, constant as constant_of, under_not as inside_not, absent as absent_of, component as component_of};

use crate::terms::Terms;
use sc_lists::Text;
use sc_sorts::{Leaf, Literal, ManyOp, Node, Sort, UnaryOp};

impl Terms {
    /// The truth value that a term is, if it is one.
    pub fn constant(&self, n: u64) -> Option<bool>
        requires { n < length self.now }
        ensures { result ≡ constant_of (tree self.now n) }
    {
        match self.node(n) {
            Node::Leaf(Leaf::Literal(Literal::Bool(b))) => Some(*b),
            _ => None,
        }
    }

    /// The literal that a term is. None exactly of another term.
    pub fn literal_at(&self, n: u64) -> Option<&Literal>
        requires { n < length self.now }
        ensures { option_copied result ≡ literal_of (tree self.now n) }
    {
        match self.node(n) {
            Node::Leaf(Leaf::Literal(literal)) => Some(literal),
            _ => None,
        }
    }

    /// What a negation negates. None exactly of another term.
    pub fn under_not(&self, n: u64) -> Option<u64>
        requires { n < length self.now }
        ensures within { IfSome result (λ m. m < n) }
        ensures inside { option_map (tree self.now) result ≡ inside_not (tree self.now n) }
    {
        match self.node(n) {
            Node::One(UnaryOp::Not, m) => Some(*m),
            _ => None,
        }
    }

    /// The sort of what a term would hold that is an absent option. None exactly of another term.
    pub fn absent(&self, n: u64) -> Option<&Sort>
        requires { n < length self.now }
        ensures { option_copied result ≡ absent_of (tree self.now n) }
    {
        match self.node(n) {
            Node::Leaf(Leaf::None(held)) => Some(held),
            _ => None,
        }
    }

    /// The component of this name of a record term. None exactly where there is none.
    pub fn component(&self, n: u64, name: &Text) -> Option<u64>
        requires { n < length self.now }
        ensures within { IfSome result (λ m. m < length self.now) }
        ensures inside { option_map (tree self.now) result ≡ component_of name.now (tree self.now n) }
    {
        match self.node(n) {
            Node::Many(ManyOp::Record, parts) => self.among(parts.as_slice(), name),
            _ => None,
        }
    }

    /// The first of the parts that has this label.
    fn among(&self, parts: &[(Text, u64)], name: &Text) -> Option<u64>
        requires { AreBelow (length self.now) parts.now }
        ensures within { IfSome result (λ m. m < length self.now) }
        ensures inside { option_map (tree self.now) result ≡ among_parts name.now (node_parts self.now parts.now) }
    {
        let _ = self.len();
        let mut rest = parts;
        while let Some((part, later)) = rest.split_first() {
            if name.as_str() == part.0.as_str() {
                return Some(part.1);
            }
            rest = later;
        }
        None
    }
}
