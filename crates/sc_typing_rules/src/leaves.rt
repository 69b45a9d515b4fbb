//! Literals and variables, and the right side of `in` where it is made of literals.
ghost use Rattle.std.specs.Prelude.{◌≡◌, [], IfOk, map, unwrap_or};
ghost use Rattle.sc_schema.specs.Declarations.{context_of};
ghost use Rattle.sc_typed.specs.Outcomes.{made};
ghost use Rattle.sc_typing_rules.specs.Rules.{literal_type, literal_typed, variable_type, leaf, leaves, first_type};

use crate::outcome::plain;
use crate::setting::Setting;
use sc_ast::{Expr, Literal, Place, Variable, try_clone};
use sc_lists::{Boxed, Seq, Shared};
use sc_names::Uid;
use sc_schema::{Schema, Ty, context_of, kind_of, no_attributes};
use sc_typed::operands::copy_of_ty;
use sc_typed::types::truth;
use sc_typed::{Typed, TypedExpr};
use std::alloc::{AllocError, Global};

/// The type of a literal.
fn literal_type(alloc: Global, schema: &Schema, literal: &Literal) -> Result<Ty, AllocError>
    ensures { IfOk result (λ t. t ≡ literal_type schema.now literal.now) }
{
    match literal {
        Literal::Bool(value) => Ok(truth(*value)),
        Literal::Long(_) => Ok(Ty::Long),
        Literal::String(_) => Ok(Ty::String),
        Literal::Entity(uid) => Ok(Ty::Entity(kind_of(alloc, schema, &uid.type_name)?)),
    }
}

/// A literal with its type.
fn literal_typed(
    alloc: Global,
    schema: &Schema,
    place: Place,
    literal: &Literal,
) -> Result<TypedExpr, AllocError>
    ensures { IfOk result (λ x. x ≡ literal_typed schema.now place literal.now) }
{
    let ty = Boxed::new(alloc, literal_type(alloc, schema, literal)?)?;
    let literal = literal.try_clone(alloc)?;
    Ok(TypedExpr::Literal(place, ty.into_inner(), literal))
}

/// A literal, which gives nothing.
pub fn literal(
    alloc: Global,
    schema: &Schema,
    place: Place,
    literal: &Literal,
) -> Result<Typed, AllocError>
    ensures { IfOk result (λ x. x ≡ made (literal_typed schema.now place literal.now) []) }
{
    plain(alloc, literal_typed(alloc, schema, place, literal)?)
}

/// The type of a variable in an environment.
fn variable_type(setting: &Setting<'_>, variable: Variable) -> Result<Ty, AllocError>
    ensures { IfOk result (λ t. t ≡ variable_type setting.now.schema.now setting.now.env.now variable) }
{
    let alloc = setting.alloc;
    let schema = setting.schema;
    let env = setting.env;
    match variable {
        Variable::Principal => Ok(Ty::Entity(kind_of(alloc, schema, &env.principal)?)),
        Variable::Action => Ok(Ty::Entity(kind_of(alloc, schema, &env.action.type_name)?)),
        Variable::Resource => Ok(Ty::Entity(kind_of(alloc, schema, &env.resource)?)),
        Variable::Context => context_type(alloc, schema, &env.action),
    }
}

fn context_type(alloc: Global, schema: &Schema, action: &Uid) -> Result<Ty, AllocError>
    ensures { IfOk result (λ t. t ≡ unwrap_or (context_of schema.now action.now) (Ty.Record [])) }
{
    match context_of(schema, action) {
        Some(ty) => ty.try_clone(alloc),
        None => Ok(Ty::Record(no_attributes(schema).try_clone()?)),
    }
}

/// A variable, which gives nothing.
pub fn variable(
    setting: &Setting<'_>,
    place: Place,
    variable: Variable,
) -> Result<Typed, AllocError>
    ensures { IfOk result (λ x. x ≡ made (TypedExpr.Variable place
        (variable_type setting.now.schema.now setting.now.env.now variable) variable) []) }
{
    let ty = variable_type(setting, variable)?;
    plain(setting.alloc, TypedExpr::Variable(place, ty, variable))
}

/// A literal with its type; anything else is skipped.
fn leaf(alloc: Global, schema: &Schema, expr: &Expr) -> Result<TypedExpr, AllocError>
    ensures { IfOk result (λ x. x ≡ leaf schema.now expr.now) }
{
    match expr {
        Expr::Literal(place, literal) => literal_typed(alloc, schema, *place, literal),
        _ => Ok(TypedExpr::Skipped(try_clone(alloc, expr)?)),
    }
}

/// A literal or a set of literals with their types. The types of the members don't join; the set has
/// that of the first one.
pub fn leaves(alloc: Global, schema: &Schema, expr: &Expr) -> Result<Boxed<TypedExpr>, AllocError>
    ensures { IfOk result (λ x. x ≡ leaves schema.now expr.now) }
{
    Boxed::new(alloc, leaves_typed(alloc, schema, expr)?)
}

fn leaves_typed(alloc: Global, schema: &Schema, expr: &Expr) -> Result<TypedExpr, AllocError>
    ensures { IfOk result (λ x. x ≡ leaves schema.now expr.now) }
{
    match expr {
        Expr::Set(place, members) => leaf_set(alloc, schema, *place, members.as_slice()),
        _ => leaf(alloc, schema, expr),
    }
}

fn leaf_set(
    alloc: Global,
    schema: &Schema,
    place: Place,
    members: &[Expr],
) -> Result<TypedExpr, AllocError>
    ensures { IfOk result (λ x. x ≡ TypedExpr.Set place (Ty.Set (first_type (map (leaf schema.now) members.now)))
        (map (leaf schema.now) members.now)) }
{
    let typed = all_leaves(alloc, schema, members)?;
    let member = Shared::new(alloc, first_type(alloc, typed.as_slice())?)?;
    Ok(TypedExpr::Set(place, Ty::Set(member), typed))
}

fn all_leaves(
    alloc: Global,
    schema: &Schema,
    members: &[Expr],
) -> Result<Seq<TypedExpr>, AllocError>
    ensures { IfOk result (λ xs. xs ≡ map (leaf schema.now) members.now) }
{
    let mut typed = Seq::new(alloc);
    for member in members {
        typed.push(leaf(alloc, schema, member)?)?;
    }
    Ok(typed)
}

fn first_type(alloc: Global, members: &[TypedExpr]) -> Result<Ty, AllocError>
    ensures { IfOk result (λ t. t ≡ first_type members.now) }
{
    match members.first() {
        Some(first) => copy_of_ty(alloc, first),
        None => Ok(Ty::False),
    }
}
