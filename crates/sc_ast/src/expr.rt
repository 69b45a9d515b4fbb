//! Expressions, in the order of the grammar. Each holds its place: that of its operator's token (the
//! sign, the dot of an access or a method call, the bracket of an index, the word `if`, `has`,
//! `like`, `is` or `in`), or of its first token where it has no operator. Parentheses are no
//! expression of their own.
ghost use Rattle.std.specs.Prelude.{◌≡◌, IfOk};

use crate::literal::Literal;
use crate::operator::{BinaryOperator, UnaryOperator};
use crate::place::Place;
use sc_lists::{Boxed, Seq, Text};
use sc_names::Name;
use sc_pattern::Pattern;
use std::alloc::{AllocError, Global};

/// A part of the request.
#[derive(Clone, Copy, Debug, PartialEq, Eq)]
pub enum Variable {
    /// Who asks.
    Principal,
    /// What to do.
    Action,
    /// With what.
    Resource,
    /// What else is told of the request.
    Context,
}

/// The name of an entity type as a policy writes it.
#[derive(PartialEq, Eq, Drop)]
pub struct TypeName {
    /// The place of its first token.
    pub place: Place,
    /// The name.
    pub name: Name,
}

impl TypeName {
    /// A copy, which equals the name with its place.
    pub fn try_clone(&self, alloc: Global) -> Result<TypeName, AllocError>
        ensures { IfOk result (λ copy. copy ≡ self.now) }
    {
        Ok(TypeName {
            place: self.place,
            name: self.name.try_clone(alloc)?,
        })
    }
}

/// An expression.
#[derive(PartialEq, Eq, Drop)]
pub enum Expr {
    /// `if c then a else b`.
    If(Place, Boxed<Expr>, Boxed<Expr>, Boxed<Expr>),
    /// `a || b`.
    Or(Place, Boxed<Expr>, Boxed<Expr>),
    /// `a && b`.
    And(Place, Boxed<Expr>, Boxed<Expr>),
    /// An operator with two operands, or the call of a method with one argument. `a != b` is
    /// `!(a == b)`, both at the place of the `!=`.
    Binary(Place, BinaryOperator, Boxed<Expr>, Boxed<Expr>),
    /// `a has b.c.d`: the names after `has`, at least one.
    Has(Place, Boxed<Expr>, Seq<Text>),
    /// `a like "pattern"`.
    Like(Place, Boxed<Expr>, Pattern),
    /// `a is T`.
    Is(Place, Boxed<Expr>, TypeName),
    /// `a is T in b`; the second place is that of `in`.
    IsIn(Place, Boxed<Expr>, TypeName, Place, Boxed<Expr>),
    /// A prefix, the call of a method without arguments, or the call of a function.
    Unary(Place, UnaryOperator, Boxed<Expr>),
    /// `a.name` or `a["name"]`.
    Access(Place, Boxed<Expr>, Text),
    /// A literal.
    Literal(Place, Literal),
    /// A variable.
    Variable(Place, Variable),
    /// `[a, b]`.
    Set(Place, Seq<Expr>),
    /// `{a: x, "b": y}`: the fields in the order in which they are written, each name once.
    Record(Place, Seq<(Text, Expr)>),
}
