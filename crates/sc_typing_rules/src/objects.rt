//! What is asked of records and entities: `has` and access.
ghost use Rattle.std.specs.Prelude.{◌≡◌, ◌||◌, ◌++◌, ◌∷◌, [], IfOk, OnOk};
ghost use Rattle.std.specs.Result.{result_map_both};
ghost use Rattle.sc_lists.specs.Told.{Gives};
ghost use Rattle.sc_typed.specs.Capabilities.{nowhere, attribute_of, is_known};
ghost use Rattle.sc_typed.specs.Outcomes.{ty, made, as_object};
ghost use Rattle.sc_typed.specs.TypedExprs.{place_of};
ghost use Rattle.sc_typed.specs.Types.{is_required};
ghost use Rattle.sc_typing_rules.specs.Paths.{no_names, step, ended, held, has_always, named, longer, along};
ghost use Rattle.sc_typing_rules.specs.Rules.{subject, read_type, access, path_of};

use crate::logic::boxed_type;
use crate::outcome::{made, plain};
use crate::path::Path;
use crate::setting::Setting;
use sc_ast::{Expr, Place, try_clone};
use sc_lists::{Boxed, Fault, Seq, Text};
use sc_schema::{Attributes, Presence, Schema, Ty};
use sc_typed::bare::{NOWHERE, bare, copy_of_names};
use sc_typed::capability::{attribute_of, is_known, is_known_in_either};
use sc_typed::kinds::is_record;
use sc_typed::operands::object;
use sc_typed::types::{attribute, is_required};
use sc_typed::{
    Capability, HasStep, Key, TypeFault, TypeRule, Typed, TypedExpr, place_of, type_of,
};
use std::alloc::{AllocError, Global};

/// The attributes that an object may have.
fn object_of<'s>(schema: &'s Schema, x: &'s TypedExpr) -> Result<&'s Attributes, TypeFault>
    ensures { result_map_both (λ fields. fields.now) (λ e. e) result ≡ as_object schema.now (place_of x.now)
        (ty x.now) }
{
    match type_of(x) {
        Some(ty) => object(schema, place_of(x), ty),
        None => Err(TypeFault {
            rule: TypeRule::NotObject,
            at: place_of(x),
        }),
    }
}

/// The type of an attribute that is read.
fn read_type(
    setting: &Setting<'_>,
    place: Place,
    name: &Text,
    a: &Expr,
    x: &TypedExpr,
) -> Result<Ty, Fault<TypeFault>>
    ensures { Gives result (read_type setting.now.schema.now setting.now.known.now place name.now a.now x.now) }
{
    let fields = object_of(setting.schema, x)?;
    let Some(field) = attribute(fields, name) else {
        return Err(Fault::Told(TypeFault {
            rule: TypeRule::NoAttribute,
            at: place,
        }));
    };
    if may_read(setting, field, a, name)? {
        return Ok(field.2.try_clone(setting.alloc)?);
    }
    Err(Fault::Told(TypeFault {
        rule: TypeRule::MaybeAbsent,
        at: place,
    }))
}

/// Whether an attribute is there wherever it is read: it is required, or known.
fn may_read(
    setting: &Setting<'_>,
    field: &(Text, Presence, Ty),
    a: &Expr,
    name: &Text,
) -> Result<bool, AllocError>
    ensures { IfOk result (λ may. may
        ≡ (is_required field.now || is_known setting.now.known.now (attribute_of a.now name.now))) }
{
    if is_required(field) {
        return Ok(true);
    }
    let capability = Boxed::new(setting.alloc, attribute_of(setting.alloc, a, name)?)?;
    Ok(is_known(setting.known, capability.get()))
}

/// `a.name`.
pub fn access(
    setting: &Setting<'_>,
    place: Place,
    name: &Text,
    a: &Expr,
    x: Boxed<TypedExpr>,
) -> Result<Typed, Fault<TypeFault>>
    ensures { Gives result (access setting.now.schema.now setting.now.known.now place name.now a.now x) }
{
    let own_name = name.try_clone(setting.alloc)?;
    let ty = read_type(setting, place, name, a, x.get())?;
    Ok(plain(setting.alloc, TypedExpr::Access(place, ty, x, own_name))?)
}

/// `a has b.c.d`.
pub fn has(
    setting: &Setting<'_>,
    place: Place,
    names: &[Text],
    a: &Expr,
    x: Boxed<TypedExpr>,
) -> Result<Typed, Fault<TypeFault>>
    ensures { Gives result (path_of setting.now.schema.now setting.now.known.now place names.now a.now x) }
{
    let path = path_of(setting, place, names, a, x.get())?;
    Ok(with_path(setting.alloc, place, x, path)?)
}

/// `a has b.c.d`, of a and of what is found along the names.
fn with_path(
    alloc: Global,
    place: Place,
    object: Boxed<TypedExpr>,
    path: Path,
) -> Result<Typed, AllocError>
    ensures { IfOk result (λ t. t ≡ made (TypedExpr.Has place path.found object path.steps path.skipped) path.given) }
{
    let Path {
        steps,
        found,
        given,
        skipped,
    } = path;
    made(
        alloc,
        TypedExpr::Has(place, found, object, steps, skipped),
        given,
    )
}

fn path_of(
    setting: &Setting<'_>,
    place: Place,
    names: &[Text],
    a: &Expr,
    x: &TypedExpr,
) -> Result<Path, Fault<TypeFault>>
    ensures { Gives result (along setting.now.schema.now place setting.now.known.now
        (subject a.now x.now) no_names names.now) }
{
    let mut path = no_names(setting.alloc);
    follow(setting, place, names, a, x, &mut path)?;
    Ok(path)
}

/// Puts to a path what is found along names that are asked of an expression.
fn follow(
    setting: &Setting<'_>,
    place: Place,
    names: &[Text],
    a: &Expr,
    x: &TypedExpr,
    path: &mut Path,
) -> Result<(), Fault<TypeFault>>
    ensures { Gives (result_map_both (λ _. path.new) (λ e. e) result)
        (along setting.now.schema.now place setting.now.known.now (subject a.now x.now) path.old names.now) }
{
    let ty = boxed_type(setting.alloc, x)?;
    let object = Boxed::new(setting.alloc, bare(setting.alloc, a)?)?;
    along(setting, place, names, object, place_of(x), ty.get(), path)
}

/// Puts to a path what is found along names, of which the first is asked of an object of a type.
fn along(
    setting: &Setting<'_>,
    place: Place,
    names: &[Text],
    mut object: Boxed<Expr>,
    mut at: Place,
    ty: &Ty,
    path: &mut Path,
) -> Result<(), Fault<TypeFault>>
    ensures { Gives (result_map_both (λ _. path.new) (λ e. e) result)
        (along setting.now.schema.now place setting.now.known.now
        (record { object = object; at = at; type = ty.now }) path.old names.now) }
{
    let mut ty = ty;
    for (i, name) in names.iter().enumerate() {
        let fields = sc_typed::operands::object(setting.schema, at, ty)?;
        match attribute(fields, name) {
            None => return Ok(end(setting.alloc, path, ty, name, &names[i + 1..])?),
            Some(field) => {
                lengthen(setting, path, object.get(), ty, name, field)?;
                object = attribute_in(setting.alloc, object, name)?;
                at = place;
                ty = &field.2;
            }
        }
    }
    Ok(())
}

fn no_names(alloc: Global) -> Path
    ensures { result ≡ no_names }
{
    Path {
        steps: Seq::new(alloc),
        found: Ty::True,
        given: Seq::new(alloc),
        skipped: Seq::new(alloc),
    }
}

/// The expression of an attribute, without places.
fn attribute_in(alloc: Global, object: Boxed<Expr>, name: &Text) -> Result<Boxed<Expr>, AllocError>
    ensures { IfOk result (λ e. e ≡ Expr.Access nowhere object name.now) }
{
    let name = name.try_clone(alloc)?;
    Boxed::new(alloc, Expr::Access(NOWHERE, object, name))
}

/// A name that is asked of an object of a type.
fn step(alloc: Global, name: &Text, object: &Ty, found: Boxed<Ty>) -> Result<HasStep, AllocError>
    ensures { IfOk result (λ s. s ≡ step name.now object.now found) }
{
    let name = name.try_clone(alloc)?;
    let object = object.try_clone(alloc)?;
    Ok(HasStep {
        name,
        object,
        found: found.into_inner(),
    })
}

/// Puts a name that is never there; those after it are skipped.
fn end(
    alloc: Global,
    path: &mut Path,
    ty: &Ty,
    name: &Text,
    names: &[Text],
) -> Result<(), AllocError>
    ensures { OnOk result (path.new ≡ ended path.old ty.now name.now names.now) }
{
    let found = Boxed::new(alloc, Ty::False)?;
    path.steps.push(step(alloc, name, ty, found)?)?;
    path.skipped = copy_of_names(alloc, names)?;
    path.given = Seq::new(alloc);
    set_found(path, Ty::False);
    Ok(())
}

/// Puts a name that is declared.
fn lengthen(
    setting: &Setting<'_>,
    path: &mut Path,
    object: &Expr,
    ty: &Ty,
    name: &Text,
    field: &(Text, Presence, Ty),
) -> Result<(), AllocError>
    ensures { OnOk result (path.new ≡ longer setting.now.known.now path.old object.now ty.now name.now field.now) }
{
    if has_always(ty, field) {
        return hold(setting.alloc, path, ty, name);
    }
    let capability = Boxed::new(setting.alloc, named(setting.alloc, object, name)?)?;
    if is_known_in_either(setting.known, path.given.as_slice(), capability.get()) {
        return hold(setting.alloc, path, ty, name);
    }
    path.given.push(capability.into_inner())?;
    maybe_hold(setting.alloc, path, ty, name)
}

/// Puts whether all names are there.
fn set_found(path: &mut Path, found: Ty)
    ensures { path.new
        ≡ record {
          steps = path.old.steps;
          found = found;
          given = path.old.given;
          skipped = path.old.skipped;
        } }
{
    path.found = found;
}

/// Whether each object of a type has an attribute.
fn has_always(ty: &Ty, field: &(Text, Presence, Ty)) -> bool
    ensures { result ≡ has_always ty.now field.now }
{
    is_record(ty) && is_required(field)
}

/// That an object has an attribute.
fn named(alloc: Global, object: &Expr, name: &Text) -> Result<Capability, AllocError>
    ensures { IfOk result (λ c. c ≡ named object.now name.now) }
{
    let name = name.try_clone(alloc)?;
    Ok(Capability {
        object: try_clone(alloc, object)?,
        key: Key::Attribute(name),
    })
}

/// Puts a name that is always there.
fn hold(alloc: Global, path: &mut Path, ty: &Ty, name: &Text) -> Result<(), AllocError>
    ensures { OnOk result (path.new ≡ held path.old ty.now name.now) }
{
    let found = Boxed::new(alloc, Ty::True)?;
    path.steps.push(step(alloc, name, ty, found)?)?;
    path.skipped = Seq::new(alloc);
    Ok(())
}

/// Puts a name that may be there or not, what holds where it is there being given already.
fn maybe_hold(alloc: Global, path: &mut Path, ty: &Ty, name: &Text) -> Result<(), AllocError>
    ensures { OnOk result (path.new
        ≡ record {
          steps = path.old.steps
              ++ step name.now ty.now Ty.Bool ∷ [];
          found = Ty.Bool;
          given = path.old.given;
          skipped = [];
        }) }
{
    let found = Boxed::new(alloc, Ty::Bool)?;
    path.steps.push(step(alloc, name, ty, found)?)?;
    path.skipped = Seq::new(alloc);
    set_found(path, Ty::Bool);
    Ok(())
}
