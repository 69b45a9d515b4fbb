//! Nodes in the keys of a table.
ghost use Rattle.std.specs.Prelude.{◌≡◌};
ghost use Rattle.std.specs.List.{fold, flat_map};
ghost use Rattle.sc_sorts.specs.Hashing.{ip_input, piece_code, piece_input, place_input};

use crate::node::{BinaryOp, Leaf, Literal, Node, UnaryOp};
use sc_ip::Ip;
use sc_lists::Text;
use sc_pattern::Part;
use std::hash::{Hash, Hasher};

/// Feeds a hasher an address and how long its prefix is.
fn feed_ip<H: Hasher>(ip: &Ip, state: &mut H)
    ensures { state.new ≡ fold H.write state.old (ip_input ip.now) }
{
    match ip {
        Ip::V4 { address, prefix } => {
            address.hash(state);
            prefix.hash(state)
        }
        Ip::V6 { address, prefix } => {
            address.hash(state);
            prefix.hash(state)
        }
    }
}

/// A literal feeds a hasher the text, the number, the address or the uid that it holds.
impl Hash for Literal {
    ghost use Rattle.sc_sorts.specs.Hashing.{literal_input, literal_respects};

    ghost hash_input = { literal_input };

    ghost respects_eq = { literal_respects };

    fn hash<H: Hasher>(&self, state: &mut H) {
        match self {
            Literal::Bool(_) => {}
            Literal::Long(number) => number.hash(state),
            Literal::String(text) => text.as_str().hash(state),
            Literal::Decimal(decimal) => decimal.ten_thousandths().hash(state),
            Literal::Ip(ip) => feed_ip(ip, state),
            Literal::Entity(uid, _) => {
                uid.type_name.as_str().hash(state);
                uid.id.as_str().hash(state)
            }
        }
    }
}

/// A leaf feeds a hasher what the literal does that it is.
impl Hash for Leaf {
    ghost use Rattle.sc_sorts.specs.Hashing.{leaf_input, leaf_respects};

    ghost hash_input = { leaf_input };

    ghost respects_eq = { leaf_respects };

    fn hash<H: Hasher>(&self, state: &mut H) {
        match self {
            Leaf::Literal(literal) => literal.hash(state),
            _ => {}
        }
    }
}

/// A number for a piece of a pattern: 0 for a star, and a character's own.
fn piece_code(piece: &Part) -> u32
    ensures { result ≡ piece_code piece.now }
{
    match piece {
        Part::Star => 0,
        Part::Char(c) => *c as u32,
    }
}

/// Feeds a hasher each piece of a pattern.
fn feed_pieces<H: Hasher>(pieces: &[Part], state: &mut H)
    ensures { state.new ≡ fold H.write state.old (flat_map piece_input pieces.now) }
{
    for i in 0..pieces.len() {
        piece_code(&pieces[i]).hash(state);
    }
}

/// Feeds a hasher the number of each part.
fn feed_parts<H: Hasher>(parts: &[(Text, u64)], state: &mut H)
    ensures { state.new ≡ fold H.write state.old (flat_map place_input parts.now) }
{
    for i in 0..parts.len() {
        parts[i].1.hash(state);
    }
}

/// An operator feeds a hasher the places, the name and the pattern that it holds.
impl Hash for UnaryOp {
    ghost use Rattle.sc_sorts.specs.Hashing.{unary_input, unary_respects};

    ghost hash_input = { unary_input };

    ghost respects_eq = { unary_respects };

    fn hash<H: Hasher>(&self, state: &mut H) {
        match self {
            UnaryOp::Bit(place) => place.hash(state),
            UnaryOp::CarryIn(place) => place.hash(state),
            UnaryOp::ProductRow(row, place) => {
                row.hash(state);
                place.hash(state)
            }
            UnaryOp::ProductCarry(row, place) => {
                row.hash(state);
                place.hash(state)
            }
            UnaryOp::Field(name) => name.as_str().hash(state),
            UnaryOp::Like(pattern) => feed_pieces(pattern.parts(), state),
            _ => {}
        }
    }
}

/// An operator feeds a hasher the place that it holds.
impl Hash for BinaryOp {
    ghost use Rattle.sc_sorts.specs.Hashing.{binary_input, binary_respects};

    ghost hash_input = { binary_input };

    ghost respects_eq = { binary_respects };

    fn hash<H: Hasher>(&self, state: &mut H) {
        match self {
            BinaryOp::Low(place) => place.hash(state),
            _ => {}
        }
    }
}

/// A node feeds a hasher what its operator does, and its parts' numbers.
impl Hash for Node {
    ghost use Rattle.sc_sorts.specs.Hashing.{node_input, node_respects};

    ghost hash_input = { node_input };

    ghost respects_eq = { node_respects };

    fn hash<H: Hasher>(&self, state: &mut H) {
        match self {
            Node::Leaf(leaf) => leaf.hash(state),
            Node::One(op, a) => {
                op.hash(state);
                a.hash(state)
            }
            Node::Two(op, a, b) => {
                op.hash(state);
                a.hash(state);
                b.hash(state)
            }
            Node::Choice(c, a, b) => {
                c.hash(state);
                a.hash(state);
                b.hash(state)
            }
            Node::Many(_, parts) => feed_parts(parts.as_slice(), state),
        }
    }
}
