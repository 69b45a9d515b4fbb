//! Operators with their operands.
ghost use Rattle.std.specs.Prelude.{◌≡◌, IfOk};
ghost use Rattle.sc_ast.specs.declared.expr.Expr.TheVariants as expr;

use sc_ast::{BinaryOperator, Expr, Place, UnaryOperator};
use sc_lists::Boxed;
use std::alloc::{AllocError, Global};

/// An operator with two operands.
pub(crate) fn binary(
    alloc: Global,
    place: Place,
    operator: BinaryOperator,
    a: Boxed<Expr>,
    b: Boxed<Expr>,
) -> Result<Boxed<Expr>, AllocError>
    ensures { IfOk result (λ x. x ≡ expr.Binary place operator a b) }
{
    Boxed::new(alloc, Expr::Binary(place, operator, a, b))
}

/// An operator with one operand.
pub fn prefixed(
    alloc: Global,
    place: Place,
    operator: UnaryOperator,
    a: Boxed<Expr>,
) -> Result<Boxed<Expr>, AllocError>
    ensures { IfOk result (λ x. x ≡ expr.Unary place operator a) }
{
    Boxed::new(alloc, Expr::Unary(place, operator, a))
}
