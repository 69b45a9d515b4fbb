//! Expressions of their parts.
ghost use Rattle.std.specs.Prelude.{◌≡◌, IfOk};
ghost use Rattle.sc_ast.specs.declared.expr.Expr.TheVariants as expr;

use sc_ast::{BinaryOperator, Expr, Place, TypeName, UnaryOperator};
use sc_lists::{Boxed, Seq, Text};
use sc_pattern::{Part, pattern_of};
use std::alloc::{AllocError, Global};

/// A choice by a condition.
pub(crate) fn choice(
    alloc: Global,
    place: Place,
    condition: Boxed<Expr>,
    first: Boxed<Expr>,
    second: Boxed<Expr>,
) -> Result<Boxed<Expr>, AllocError>
    ensures { IfOk result (λ x. x ≡ expr.If place condition first second) }
{
    Boxed::new(alloc, Expr::If(place, condition, first, second))
}

/// A test for attributes.
pub(crate) fn has(
    alloc: Global,
    place: Place,
    a: Boxed<Expr>,
    names: Seq<Text>,
) -> Result<Boxed<Expr>, AllocError>
    ensures { IfOk result (λ x. x ≡ expr.Has place a names) }
{
    Boxed::new(alloc, Expr::Has(place, a, names))
}

/// A test by a pattern.
pub(crate) fn like(
    alloc: Global,
    place: Place,
    a: Boxed<Expr>,
    parts: &[Part],
) -> Result<Boxed<Expr>, AllocError>
    ensures { IfOk result (λ x. x ≡ expr.Like place a parts.now) }
{
    let pattern = pattern_of(alloc, parts)?;
    Boxed::new(alloc, Expr::Like(place, a, pattern))
}

/// A test of the type.
pub(crate) fn is(
    alloc: Global,
    place: Place,
    a: Boxed<Expr>,
    type_name: TypeName,
) -> Result<Boxed<Expr>, AllocError>
    ensures { IfOk result (λ x. x ≡ expr.Is place a type_name) }
{
    Boxed::new(alloc, Expr::Is(place, a, type_name))
}

/// A test of the type and of what the entity is in.
pub(crate) fn is_in(
    alloc: Global,
    place: Place,
    a: Boxed<Expr>,
    type_name: TypeName,
    second: Place,
    b: Boxed<Expr>,
) -> Result<Boxed<Expr>, AllocError>
    ensures { IfOk result (λ x. x ≡ expr.IsIn place a type_name second b) }
{
    Boxed::new(alloc, Expr::IsIn(place, a, type_name, second, b))
}

/// The access to an attribute.
pub(crate) fn access(
    alloc: Global,
    place: Place,
    a: Boxed<Expr>,
    name: &str,
) -> Result<Boxed<Expr>, AllocError>
    ensures { IfOk result (λ x. x ≡ expr.Access place a name.now) }
{
    let name = Text::from_str(alloc, name)?;
    Boxed::new(alloc, Expr::Access(place, a, name))
}
