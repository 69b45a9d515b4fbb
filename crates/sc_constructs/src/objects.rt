//! `has` and `.`, of operands that are compiled.
ghost use Rattle.std.specs.Prelude.{◌≡◌, ◌<◌, length, Some, IfOk};
ghost use Rattle.sc_schema.specs.declared.ty.Presence.TheVariants.{Optional};
ghost use Rattle.sc_schema.specs.declared.ty.Ty.{out-Ty};
ghost use Rattle.sc_terms.specs.Folds.{field_term, present_term};
ghost use Rattle.sc_terms.specs.Tables.{tree, Keeps, StandsFor};
ghost use Rattle.sc_typed.specs.Outcomes.{ty as type_in};
ghost use Rattle.sc_constructs.specs.Objects.{presence_of, attributes_sort, object_in, field_of, has_code, read_code, access_code, along_code, path_code};
ghost use Rattle.sc_constructs.specs.Numbers.{IsCode, StandsAs, code_at};
ghost use Rattle.sc_constructs.specs.Code.{after, code};

use crate::logic::{and, tell};
use crate::opt::Opt;
use crate::setting::{Setting, record_sort};
use sc_lists::Text;
use sc_names::Name;
use sc_schema::{Presence, Schema, Ty, attrs_of};
use sc_sorts::Sort;
use sc_terms::Terms;
use sc_typed::types::{attribute, attributes};
use sc_typed::{HasStep, TypedExpr, type_of};
use std::alloc::{AllocError, Global};

/// Whether an object of a type may lack an attribute. None where it never has it.
fn presence_of(schema: &Schema, ty: &Ty, name: &Text) -> Option<Presence>
    ensures { result ≡ presence_of schema.now ty.now name.now }
{
    let fields = attributes(schema, ty)?;
    let field = attribute(fields, name)?;
    Some(field.1)
}

/// The sort of the attributes of a type's entities.
fn attributes_sort(alloc: Global, schema: &Schema, name: &Name) -> Result<Sort, AllocError>
    ensures { IfOk result (λ s. s ≡ attributes_sort schema.now name.now) }
{
    record_sort(alloc, attrs_of(schema, name))
}

/// The record that an attribute of an object of a type is read of.
fn object(setting: &Setting<'_>, terms: &mut Terms, ty: &Ty, a: u64) -> Result<u64, AllocError>
    requires { a < length terms.old }
    ensures ok { IfOk result (λ n. StandsFor terms.new n (object_in setting.now.schema.now (out-Ty ty.now)
        (tree terms.old a))) }
    ensures kept { Keeps terms.old terms.new }
{
    match ty {
        Ty::Entity(kind) => {
            let sort = attributes_sort(setting.alloc, setting.schema, &kind.name)?;
            terms.attributes(a, sort)
        }
        _ => Ok(a),
    }
}

/// The attribute of a name.
fn field(
    setting: &Setting<'_>,
    terms: &mut Terms,
    ty: &Ty,
    name: &Text,
    a: u64,
) -> Result<u64, AllocError>
    requires { a < length terms.old }
    ensures ok { IfOk result (λ n. StandsFor terms.new n (field_of setting.now.schema.now ty.now name.now
        (tree terms.old a))) }
    ensures kept { Keeps terms.old terms.new }
{
    let object = object(setting, terms, ty, a)?;
    let n = record_field(setting, terms, name, object)?;
    Ok(n)
}

/// The field of a name of a record.
fn record_field(
    setting: &Setting<'_>,
    terms: &mut Terms,
    name: &Text,
    a: u64,
) -> Result<u64, AllocError>
    requires { a < length terms.old }
    ensures ok { IfOk result (λ n. StandsFor terms.new n (field_term name.now (tree terms.old a))) }
    ensures kept { Keeps terms.old terms.new }
{
    let name = name.try_clone(setting.alloc)?;
    terms.field(a, name)
}

/// `a has name`, of an object of a type.
fn has(
    setting: &Setting<'_>,
    terms: &mut Terms,
    ty: &Ty,
    name: &Text,
    a: Opt,
) -> Result<Opt, AllocError>
    requires { IsCode terms.old a }
    ensures ok { IfOk result (λ o. StandsAs terms.new o (has_code setting.now.schema.now ty.now name.now
        (code_at terms.old a))) }
    ensures kept { Keeps terms.old terms.new }
{
    match presence_of(setting.schema, ty, name) {
        None => tell(terms, a, false),
        Some(Presence::Required) => tell(terms, a, true),
        Some(Presence::Optional) => has_optional(setting, terms, ty, name, a),
    }
}

/// `a has name`, where a may lack the attribute.
fn has_optional(
    setting: &Setting<'_>,
    terms: &mut Terms,
    ty: &Ty,
    name: &Text,
    a: Opt,
) -> Result<Opt, AllocError>
    requires { IsCode terms.old a }
    ensures ok { IfOk result (λ o. StandsAs terms.new o (code (tree terms.old a.ok) (present_term (field_of
        setting.now.schema.now ty.now name.now (tree terms.old a.val))))) }
    ensures kept { Keeps terms.old terms.new }
{
    let field = field(setting, terms, ty, name, a.val)?;
    let val = terms.present(field)?;
    Ok(Opt { ok: a.ok, val })
}

/// `a.name`.
pub fn access(
    setting: &Setting<'_>,
    terms: &mut Terms,
    expr: &TypedExpr,
    name: &Text,
    a: Opt,
) -> Result<Opt, AllocError>
    requires { IsCode terms.old a }
    ensures ok { IfOk result (λ o. StandsAs terms.new o (access_code setting.now.schema.now (type_in expr.now) name.now
        (code_at terms.old a))) }
    ensures kept { Keeps terms.old terms.new }
{
    match type_of(expr) {
        Some(ty) => read(setting, terms, ty, name, a),
        None => read_record(setting, terms, name, a),
    }
}

/// `a.name`, of a record that has the attribute.
fn read_record(
    setting: &Setting<'_>,
    terms: &mut Terms,
    name: &Text,
    a: Opt,
) -> Result<Opt, AllocError>
    requires { IsCode terms.old a }
    ensures ok { IfOk result (λ o. StandsAs terms.new o (after (code_at terms.old a) (field_term name.now
        (tree terms.old a.val)))) }
    ensures kept { Keeps terms.old terms.new }
{
    let val = record_field(setting, terms, name, a.val)?;
    Ok(Opt { ok: a.ok, val })
}

/// `a.name`, of an object of a type.
fn read(
    setting: &Setting<'_>,
    terms: &mut Terms,
    ty: &Ty,
    name: &Text,
    a: Opt,
) -> Result<Opt, AllocError>
    requires { IsCode terms.old a }
    ensures ok { IfOk result (λ o. StandsAs terms.new o (access_code setting.now.schema.now ty.now name.now
        (code_at terms.old a))) }
    ensures kept { Keeps terms.old terms.new }
{
    let field = field(setting, terms, ty, name, a.val)?;
    match presence_of(setting.schema, ty, name) {
        Some(Presence::Optional) => read_optional(terms, a, field),
        Some(Presence::Required) => Ok(Opt {
            ok: a.ok,
            val: field,
        }),
        None => Ok(Opt {
            ok: a.ok,
            val: field,
        }),
    }
}

/// What an optional field holds, which errs where it is absent.
fn read_optional(terms: &mut Terms, a: Opt, field: u64) -> Result<Opt, AllocError>
    requires a_in { IsCode terms.old a }
    requires field_in { field < length terms.old }
    ensures ok { IfOk result (λ o. StandsAs terms.new o (read_code (Some Optional) (code_at terms.old a)
        (tree terms.old field))) }
    ensures kept { Keeps terms.old terms.new }
{
    let present = terms.present(field)?;
    let ok = terms.and(a.ok, present)?;
    let val = terms.held(field)?;
    Ok(Opt { ok, val })
}

/// `a has b.c`, which is `a has b && a.b has c`.
pub fn path(
    setting: &Setting<'_>,
    terms: &mut Terms,
    a: Opt,
    steps: &[HasStep],
) -> Result<Opt, AllocError>
    requires { IsCode terms.old a }
    ensures ok { IfOk result (λ o. StandsAs terms.new o (path_code setting.now.schema.now
        (code_at terms.old a) steps.now)) }
    ensures kept { Keeps terms.old terms.new }
{
    let Some((step, rest)) = steps.split_first() else {
        return tell(terms, a, true);
    };
    let front = has(setting, terms, &step.object, &step.name, a)?;
    let object = read(setting, terms, &step.object, &step.name, a)?;
    let opt = along(setting, terms, front, object, rest)?;
    Ok(opt)
}

/// `front && a has b && a.b has c`.
#[tactic(auto, using(crate::proofs::AlongLaws::still_along))]
fn along(
    setting: &Setting<'_>,
    terms: &mut Terms,
    front: Opt,
    object: Opt,
    steps: &[HasStep],
) -> Result<Opt, AllocError>
    requires front_in { IsCode terms.old front }
    requires object_in { IsCode terms.old object }
    ensures ok { IfOk result (λ o. StandsAs terms.new o (along_code setting.now.schema.now (code_at terms.old front)
        (code_at terms.old object) steps.now)) }
    ensures kept { Keeps terms.old terms.new }
{
    let mut front = front;
    let mut object = object;
    let mut rest = steps;
    while let Some((step, later)) = rest.split_first() {
        let found = has(setting, terms, &step.object, &step.name, object)?;
        front = and(terms, front, found)?;
        object = read(setting, terms, &step.object, &step.name, object)?;
        rest = later;
    }
    Ok(front)
}
