//! Operators, `like` and `is`, of operands with their types.
ghost use Rattle.std.specs.Prelude.{◌≡◌, [], IfOk};
ghost use Rattle.sc_lists.specs.Told.{Gives};
ghost use Rattle.sc_ast.specs.declared.operator.BinaryOperator.TheVariants.{In};
ghost use Rattle.sc_typed.specs.Outcomes.{made};
ghost use Rattle.sc_typing_rules.specs.Rules.{operation, application, with_right, match, is_of, test};

use crate::logic::skipped;
use crate::operators::{binary, given_by, unary, within};
use crate::outcome::{made, plain};
use crate::setting::Setting;
use sc_ast::{BinaryOperator, Expr, Place, TypeName, UnaryOperator};
use sc_lists::{Boxed, Fault};
use sc_pattern::Pattern;
use sc_schema::{Schema, Ty};
use sc_typed::operands::{entity, string};
use sc_typed::types::truth;
use sc_typed::{TypeFault, Typed, TypedExpr};
use std::alloc::{AllocError, Global};

/// An operator with two operands.
pub fn operate(
    setting: &Setting<'_>,
    place: Place,
    operator: BinaryOperator,
    a: &Expr,
    b: &Expr,
    x: Boxed<TypedExpr>,
    y: Boxed<TypedExpr>,
) -> Result<Typed, Fault<TypeFault>>
    ensures { Gives result (operation setting.now.schema.now setting.now.known.now place operator a.now b.now x y) }
{
    let alloc = setting.alloc;
    let ty = Boxed::new(
        alloc,
        binary(setting, place, operator, a, b, x.get(), y.get())?,
    )?;
    let given = given_by(alloc, operator, a, b, ty.get())?;
    let expr = TypedExpr::Binary(place, ty.into_inner(), operator, x, y);
    Ok(made(alloc, expr, given)?)
}

/// `a in b`, of a and of what is found of b.
pub fn contain(
    alloc: Global,
    place: Place,
    x: Boxed<TypedExpr>,
    right: (Ty, Boxed<TypedExpr>),
) -> Result<Typed, AllocError>
    ensures { IfOk result (λ t. t ≡ made (TypedExpr.Binary place right.0 In x right.1) []) }
{
    let (ty, y) = right;
    plain(
        alloc,
        TypedExpr::Binary(place, ty, BinaryOperator::In, x, y),
    )
}

/// The type of `in`, and its right side.
pub fn with_right(
    schema: &Schema,
    x: &TypedExpr,
    y: Boxed<TypedExpr>,
) -> Result<(Ty, Boxed<TypedExpr>), TypeFault>
    ensures { result ≡ with_right schema.now x.now y }
{
    let ty = within(schema, x, y.get())?;
    Ok((ty, y))
}

/// `a like "pattern"`.
pub fn like(
    alloc: Global,
    place: Place,
    pattern: &Pattern,
    x: Boxed<TypedExpr>,
) -> Result<Typed, Fault<TypeFault>>
    ensures { Gives result (match place pattern.now x) }
{
    string(x.get())?;
    let pattern = pattern.try_clone(alloc)?;
    Ok(plain(alloc, TypedExpr::Like(place, Ty::Bool, x, pattern))?)
}

/// Whether an entity is of a type.
pub fn is_of(x: &TypedExpr, type_name: &TypeName) -> Result<bool, TypeFault>
    ensures { result ≡ is_of type_name.now x.now }
{
    let name = entity(x)?;
    Ok(name.as_str() == type_name.name.as_str())
}

/// `a is T`.
pub fn is(
    alloc: Global,
    place: Place,
    type_name: &TypeName,
    x: Boxed<TypedExpr>,
) -> Result<Typed, Fault<TypeFault>>
    ensures { Gives result (test place type_name.now x) }
{
    let is = is_of(x.get(), type_name)?;
    let name = type_name.try_clone(alloc)?;
    Ok(plain(alloc, TypedExpr::Is(place, truth(is), x, name))?)
}

/// `a is T in b` where a isn't of the type T.
pub fn is_not(
    alloc: Global,
    place: Place,
    type_name: &TypeName,
    in_place: Place,
    x: Boxed<TypedExpr>,
    b: &Expr,
) -> Result<Typed, AllocError>
    ensures { IfOk result (λ t. t ≡ made (TypedExpr.IsIn place Ty.False x type_name.now in_place
        (TypedExpr.Skipped b.now)) []) }
{
    let other = skipped(alloc, b)?;
    let name = type_name.try_clone(alloc)?;
    let expr = TypedExpr::IsIn(place, Ty::False, x, name, in_place, other);
    plain(alloc, expr)
}

/// `a is T in b` where a is of the type T, of a and of what is found of b.
pub fn is_in(
    alloc: Global,
    place: Place,
    type_name: &TypeName,
    in_place: Place,
    x: Boxed<TypedExpr>,
    right: (Ty, Boxed<TypedExpr>),
) -> Result<Typed, AllocError>
    ensures { IfOk result (λ t. t ≡ made (TypedExpr.IsIn place right.0 x type_name.now in_place right.1) []) }
{
    let (ty, y) = right;
    let ty = Boxed::new(alloc, ty)?;
    let name = type_name.try_clone(alloc)?;
    let expr = TypedExpr::IsIn(place, ty.into_inner(), x, name, in_place, y);
    plain(alloc, expr)
}

/// An operator with one operand.
pub fn apply(
    alloc: Global,
    place: Place,
    operator: UnaryOperator,
    a: &Expr,
    x: Boxed<TypedExpr>,
) -> Result<Typed, Fault<TypeFault>>
    ensures { Gives result (application place operator a.now x) }
{
    let ty = unary(place, operator, a, x.get())?;
    Ok(plain(alloc, TypedExpr::Unary(place, ty, operator, x))?)
}
