//! The sort of a term, by those of its parts.
ghost use Rattle.std.specs.Prelude.{◌≡◌, IfOk};
ghost use Rattle.sc_sorts.specs.NodeSorts as sorts;

use crate::clone::try_clone;
use crate::inside::{field_sort, held_sort, member_sort};
use crate::node::{BinaryOp, Leaf, Literal, UnaryOp};
use crate::sort::Sort;
use sc_lists::Boxed;
use sc_names::clone_uids;
use std::alloc::{AllocError, Global};

/// The sort of a term with no parts.
pub fn leaf_sort(alloc: Global, leaf: &Leaf) -> Result<Sort, AllocError>
    ensures { IfOk result (λ s. s ≡ sorts.leaf_sort leaf.now) }
{
    match leaf {
        Leaf::Literal(literal) => literal_sort(alloc, literal),
        Leaf::None(held) => Ok(Sort::Option(Boxed::new(alloc, try_clone(alloc, held)?)?)),
        Leaf::Principal(sort) => try_clone(alloc, sort),
        Leaf::Resource(sort) => try_clone(alloc, sort),
        Leaf::Context(sort) => try_clone(alloc, sort),
    }
}

fn literal_sort(alloc: Global, literal: &Literal) -> Result<Sort, AllocError>
    ensures { IfOk result (λ s. s ≡ sorts.literal_sort literal.now) }
{
    match literal {
        Literal::Bool(_) => Ok(Sort::Bool),
        Literal::Long(_) => Ok(Sort::Long),
        Literal::String(_) => Ok(Sort::String),
        Literal::Decimal(_) => Ok(Sort::Decimal),
        Literal::Ip(_) => Ok(Sort::Ip),
        Literal::Entity(uid, choices) => Ok(Sort::Entity(
            uid.type_name.try_clone(alloc)?,
            clone_uids(alloc, choices)?,
        )),
    }
}

/// The sort of a term of one part of this sort.
pub fn unary_sort(alloc: Global, op: &UnaryOp, part: &Sort) -> Result<Sort, AllocError>
    ensures { IfOk result (λ s. s ≡ sorts.unary_sort op.now part.now) }
{
    match op {
        UnaryOp::Attributes(sort) => try_clone(alloc, sort),
        UnaryOp::Ancestors(sort) => Ok(Sort::Set(Boxed::new(alloc, try_clone(alloc, sort)?)?)),
        UnaryOp::Keys => Ok(Sort::Set(Boxed::new(alloc, Sort::String)?)),
        UnaryOp::Field(name) => field_sort(alloc, name, part),
        UnaryOp::Held => held_sort(alloc, part),
        UnaryOp::Not => Ok(Sort::Bool),
        UnaryOp::Bit(_) => Ok(Sort::Bool),
        UnaryOp::CarryIn(_) => Ok(Sort::Bool),
        UnaryOp::ProductRow(_, _) => Ok(Sort::Bool),
        UnaryOp::ProductCarry(_, _) => Ok(Sort::Bool),
        UnaryOp::Present => Ok(Sort::Bool),
        UnaryOp::Like(_) => Ok(Sort::Bool),
    }
}

/// The sort of a term of two parts, the first of this sort. The second's never matters.
pub fn binary_sort(alloc: Global, op: &BinaryOp, part: &Sort) -> Result<Sort, AllocError>
    ensures { IfOk result (λ s. s ≡ sorts.binary_sort op.now part.now) }
{
    match op {
        BinaryOp::Add => Ok(Sort::Long),
        BinaryOp::Subtract => Ok(Sort::Long),
        BinaryOp::Multiply => Ok(Sort::Long),
        BinaryOp::Tag(sort) => try_clone(alloc, sort),
        BinaryOp::DifferencePick => member_sort(alloc, part),
        BinaryOp::CommonPick => member_sort(alloc, part),
        BinaryOp::And => Ok(Sort::Bool),
        BinaryOp::Or => Ok(Sort::Bool),
        BinaryOp::Equal => Ok(Sort::Bool),
        BinaryOp::AddOverflows => Ok(Sort::Bool),
        BinaryOp::SubtractOverflows => Ok(Sort::Bool),
        BinaryOp::MultiplyOverflows => Ok(Sort::Bool),
        BinaryOp::Less => Ok(Sort::Bool),
        BinaryOp::InRange => Ok(Sort::Bool),
        BinaryOp::Low(_) => Ok(Sort::Bool),
        BinaryOp::Member => Ok(Sort::Bool),
        BinaryOp::Subset => Ok(Sort::Bool),
        BinaryOp::Common => Ok(Sort::Bool),
    }
}
