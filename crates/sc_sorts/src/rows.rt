//! The rows of the table of all terms, by which terms are ordered first.
ghost use Rattle.std.specs.Prelude.{◌≡◌};
ghost use Rattle.sc_sorts.specs.Rows as rows;

use crate::node::{BinaryOp, Leaf, Literal, ManyOp, Node, UnaryOp};

/// The place of a node's row in the table of all terms.
pub fn row(node: &Node) -> u8
    ensures { result ≡ rows.node_row node.now }
{
    match node {
        Node::Leaf(leaf) => leaf_row(leaf),
        Node::One(op, _) => unary_row(op),
        Node::Two(op, _, _) => binary_row(op),
        Node::Choice(_, _, _) => 14,
        Node::Many(op, _) => many_row(op),
    }
}

fn leaf_row(leaf: &Leaf) -> u8
    ensures { result ≡ rows.leaf_row leaf.now }
{
    match leaf {
        Leaf::Literal(Literal::Bool(true)) => 0,
        Leaf::Literal(Literal::Bool(false)) => 1,
        Leaf::Literal(Literal::Long(_)) => 2,
        Leaf::Literal(Literal::String(_)) => 3,
        Leaf::Literal(Literal::Decimal(_)) => 4,
        Leaf::Literal(Literal::Ip(_)) => 5,
        Leaf::Literal(Literal::Entity(_, _)) => 6,
        Leaf::None(_) => 7,
        Leaf::Principal(_) => 8,
        Leaf::Resource(_) => 9,
        Leaf::Context(_) => 10,
    }
}

fn unary_row(op: &UnaryOp) -> u8
    ensures { result ≡ rows.unary_row op.now }
{
    match op {
        UnaryOp::Not => 11,
        UnaryOp::Bit(_) => 23,
        UnaryOp::CarryIn(_) => 25,
        UnaryOp::ProductRow(_, _) => 27,
        UnaryOp::ProductCarry(_, _) => 28,
        UnaryOp::Attributes(_) => 29,
        UnaryOp::Ancestors(_) => 30,
        UnaryOp::Keys => 31,
        UnaryOp::Field(_) => 33,
        UnaryOp::Present => 36,
        UnaryOp::Held => 37,
        UnaryOp::Like(_) => 43,
    }
}

fn binary_row(op: &BinaryOp) -> u8
    ensures { result ≡ rows.binary_row op.now }
{
    match op {
        BinaryOp::And => 12,
        BinaryOp::Or => 13,
        BinaryOp::Equal => 15,
        BinaryOp::Add => 16,
        BinaryOp::Subtract => 17,
        BinaryOp::Multiply => 18,
        BinaryOp::AddOverflows => 19,
        BinaryOp::SubtractOverflows => 20,
        BinaryOp::MultiplyOverflows => 21,
        BinaryOp::Less => 22,
        BinaryOp::InRange => 24,
        BinaryOp::Low(_) => 26,
        BinaryOp::Tag(_) => 32,
        BinaryOp::Member => 38,
        BinaryOp::Subset => 39,
        BinaryOp::Common => 40,
        BinaryOp::DifferencePick => 41,
        BinaryOp::CommonPick => 42,
    }
}

fn many_row(op: &ManyOp) -> u8
    ensures { result ≡ rows.many_row op.now }
{
    match op {
        ManyOp::Record => 34,
        ManyOp::Set(_) => 35,
    }
}
