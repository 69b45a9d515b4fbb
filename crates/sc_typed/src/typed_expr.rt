//! Expressions with their types, in the order of the grammar.
ghost use Rattle.std.specs.Prelude.{◌≡◌};
ghost use Rattle.std.specs.Option.{option_copied};
ghost use Rattle.sc_typed.specs.TypedExprs.{type_of, place_of, expr_place};

use sc_ast::{BinaryOperator, Expr, Literal, Place, TypeName, UnaryOperator, Variable};
use sc_lists::{Boxed, Seq, Text};
use sc_pattern::Pattern;
use sc_schema::Ty;
use std::fmt;

/// A name after `has`.
#[derive(Drop)]
pub struct HasStep {
    /// The name.
    pub name: Text,
    /// The type of the record or the entity that it is asked of.
    pub object: Ty,
    /// Whether the object has it: `True`, `False` or `Bool`.
    pub found: Ty,
}

/// An expression with its type, as the expression that it was made of but for the types. `action` is
/// a literal.
#[derive(Drop)]
pub enum TypedExpr {
    /// `if c then a else b`. Where c is true or false, the other branch is skipped.
    If(Place, Ty, Boxed<TypedExpr>, Boxed<TypedExpr>, Boxed<TypedExpr>),
    /// `a || b`. Where a is true, b is skipped.
    Or(Place, Ty, Boxed<TypedExpr>, Boxed<TypedExpr>),
    /// `a && b`. Where a is false, b is skipped.
    And(Place, Ty, Boxed<TypedExpr>, Boxed<TypedExpr>),
    /// An operator with two operands, or the call of a method with one argument.
    Binary(Place, Ty, BinaryOperator, Boxed<TypedExpr>, Boxed<TypedExpr>),
    /// `a has b.c.d`: the names up to the first one that is never there, and those after it, which
    /// are skipped.
    Has(Place, Ty, Boxed<TypedExpr>, Seq<HasStep>, Seq<Text>),
    /// `a like "pattern"`.
    Like(Place, Ty, Boxed<TypedExpr>, Pattern),
    /// `a is T`.
    Is(Place, Ty, Boxed<TypedExpr>, TypeName),
    /// `a is T in b`; the second place is that of `in`. Where a isn't of the type T, b is skipped.
    IsIn(Place, Ty, Boxed<TypedExpr>, TypeName, Place, Boxed<TypedExpr>),
    /// A prefix, the call of a method without arguments, or the call of a function.
    Unary(Place, Ty, UnaryOperator, Boxed<TypedExpr>),
    /// `a.name` or `a["name"]`.
    Access(Place, Ty, Boxed<TypedExpr>, Text),
    /// A literal.
    Literal(Place, Ty, Literal),
    /// A variable.
    Variable(Place, Ty, Variable),
    /// `[a, b]`.
    Set(Place, Ty, Seq<TypedExpr>),
    /// `{a: x, "b": y}`: the fields in the order in which they are written.
    Record(Place, Ty, Seq<(Text, TypedExpr)>),
    /// An expression that is never evaluated, and has no type.
    Skipped(Expr),
}

/// An expression may be as long as a policy, so it is told by its place.
impl fmt::Debug for TypedExpr {
    fn fmt<W: fmt::Write>(&self, f: &mut fmt::Formatter<W>) -> fmt::Result {
        f.debug_struct("TypedExpr")
            .field("place", &place_of(self))
            .finish()
    }
}

/// The type of an expression. None exactly where the expression is skipped.
#[tactic(auto, unfolding(crate::specs::TypedExprs::type_of))]
pub fn type_of(expr: &TypedExpr) -> Option<&Ty>
    ensures { option_copied result ≡ type_of expr.now }
{
    match expr {
        TypedExpr::If(_, ty, _, _, _) => Some(ty),
        TypedExpr::Or(_, ty, _, _) => Some(ty),
        TypedExpr::And(_, ty, _, _) => Some(ty),
        TypedExpr::Binary(_, ty, _, _, _) => Some(ty),
        TypedExpr::Has(_, ty, _, _, _) => Some(ty),
        TypedExpr::Like(_, ty, _, _) => Some(ty),
        TypedExpr::Is(_, ty, _, _) => Some(ty),
        TypedExpr::IsIn(_, ty, _, _, _, _) => Some(ty),
        TypedExpr::Unary(_, ty, _, _) => Some(ty),
        TypedExpr::Access(_, ty, _, _) => Some(ty),
        TypedExpr::Literal(_, ty, _) => Some(ty),
        TypedExpr::Variable(_, ty, _) => Some(ty),
        TypedExpr::Set(_, ty, _) => Some(ty),
        TypedExpr::Record(_, ty, _) => Some(ty),
        TypedExpr::Skipped(_) => None,
    }
}

/// The place of an expression.
#[tactic(auto, unfolding(crate::specs::TypedExprs::place_of))]
pub fn place_of(expr: &TypedExpr) -> Place
    ensures { result ≡ place_of expr.now }
{
    match expr {
        TypedExpr::If(place, _, _, _, _) => *place,
        TypedExpr::Or(place, _, _, _) => *place,
        TypedExpr::And(place, _, _, _) => *place,
        TypedExpr::Binary(place, _, _, _, _) => *place,
        TypedExpr::Has(place, _, _, _, _) => *place,
        TypedExpr::Like(place, _, _, _) => *place,
        TypedExpr::Is(place, _, _, _) => *place,
        TypedExpr::IsIn(place, _, _, _, _, _) => *place,
        TypedExpr::Unary(place, _, _, _) => *place,
        TypedExpr::Access(place, _, _, _) => *place,
        TypedExpr::Literal(place, _, _) => *place,
        TypedExpr::Variable(place, _, _) => *place,
        TypedExpr::Set(place, _, _) => *place,
        TypedExpr::Record(place, _, _) => *place,
        TypedExpr::Skipped(skipped) => expr_place(skipped),
    }
}

/// The place of an expression without types.
#[tactic(auto, unfolding(crate::specs::TypedExprs::expr_place))]
fn expr_place(expr: &Expr) -> Place
    ensures { result ≡ expr_place expr.now }
{
    match expr {
        Expr::If(place, _, _, _) => *place,
        Expr::Or(place, _, _) => *place,
        Expr::And(place, _, _) => *place,
        Expr::Binary(place, _, _, _) => *place,
        Expr::Has(place, _, _) => *place,
        Expr::Like(place, _, _) => *place,
        Expr::Is(place, _, _) => *place,
        Expr::IsIn(place, _, _, _, _) => *place,
        Expr::Unary(place, _, _) => *place,
        Expr::Access(place, _, _) => *place,
        Expr::Literal(place, _) => *place,
        Expr::Variable(place, _) => *place,
        Expr::Set(place, _) => *place,
        Expr::Record(place, _) => *place,
    }
}
