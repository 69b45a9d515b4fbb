//! Compilation. It goes as deep as the expression does.
ghost use Rattle.std.specs.Prelude.{false, map, IfOk};
ghost use Rattle.sc_typed.specs.Outcomes.{ty as type_in};
ghost use Rattle.sc_typed.specs.Types.{is_true};
ghost use Rattle.sc_terms.specs.Tables.{Keeps};
ghost use Rattle.sc_constructs.specs.Code.{branch_code, choice_code, like_code, is_code, set_code, record_code};
ghost use Rattle.sc_constructs.specs.Objects.{access_code, path_code};
ghost use Rattle.sc_symeval.specs.Codes.{of_choice, of_either, of_both, binary_code, unary_code, among_code, is_in_code, code_of};
ghost use Rattle.sc_constructs.specs.Numbers.{StandsAs, StandAs, StandAsFields};
ghost use Rattle.sc_symeval.specs.Settings.{IsReady, code_in, codes_in, field_in, seen};

use crate::collections::{record_of, set_of};
use crate::leaves::{literal, variable};
use crate::operators::{among, apply, is_named, like, operate};
use sc_ast::{BinaryOperator, TypeName, UnaryOperator};
use sc_constructs::logic::{and, branch, choose, constant, or, tell};
use sc_constructs::objects::{access, path};
use sc_constructs::{Opt, Setting, variables_of};
use sc_lists::{Seq, Text};
use sc_pattern::Pattern;
use sc_schema::{Env, Schema, Ty};
use sc_terms::Terms;
use sc_typed::operands::{is_false, is_true};
use sc_typed::{HasStep, TypedExpr, kinds};
use std::alloc::{AllocError, Global};

/// The terms of an expression that is typed for an environment of a schema: one that is true in a world
/// exactly where the expression doesn't err there, and one that is its value then. Terms of the table
/// keep their numbers, also where memory is wanted.
pub fn compile(
    alloc: Global,
    terms: &mut Terms,
    schema: &Schema,
    expr: &TypedExpr,
    env: &Env,
) -> Result<Opt, AllocError>
    ensures ok { IfOk result (λ o. StandsAs terms.new o (code_of schema.now env.now expr.now)) }
    ensures kept { Keeps terms.old terms.new }
{
    let variables = variables_of(alloc, terms, schema, env)?;
    let setting = Setting {
        alloc,
        schema,
        env,
        variables,
    };
    let opt = compile_in(&setting, terms, expr)?;
    Ok(opt)
}

/// The same in a setting whose variables are terms of the table, so that they are made once for many
/// expressions.
#[cycle(compile)]
pub fn compile_in(
    setting: &Setting<'_>,
    terms: &mut Terms,
    expr: &TypedExpr,
) -> Result<Opt, AllocError>
    requires { IsReady terms.old setting.now }
    ensures ok { IfOk result (λ o. StandsAs terms.new o (code_in setting.now expr.now)) }
    ensures kept { Keeps terms.old terms.new }
{
    match expr {
        TypedExpr::If(_, _, c, a, b) => choice(setting, terms, c.get(), a.get(), b.get()),
        TypedExpr::Or(_, _, a, b) => either(setting, terms, a.get(), b.get()),
        TypedExpr::And(_, _, a, b) => both(setting, terms, a.get(), b.get()),
        TypedExpr::Binary(_, ty, operator, a, b) => {
            operated(setting, terms, *operator, ty, a.get(), b.get())
        }
        TypedExpr::Has(_, _, a, steps, _) => having(setting, terms, a.get(), steps.as_slice()),
        TypedExpr::Like(_, _, a, pattern) => matching(setting, terms, a.get(), pattern),
        TypedExpr::Is(_, ty, a, _) => tested(setting, terms, ty, a.get()),
        TypedExpr::IsIn(_, ty, a, type_name, _, b) => {
            tested_in(setting, terms, ty, type_name, a.get(), b.get())
        }
        TypedExpr::Unary(_, _, operator, a) => applied(setting, terms, *operator, a.get()),
        TypedExpr::Access(_, _, a, name) => accessed(setting, terms, a.get(), name),
        TypedExpr::Literal(_, _, value) => literal(setting, terms, value),
        TypedExpr::Variable(_, _, which) => variable(setting, terms, *which),
        TypedExpr::Set(_, _, members) => set(setting, terms, members.as_slice()),
        TypedExpr::Record(_, _, fields) => record(setting, terms, fields.as_slice()),
        TypedExpr::Skipped(_) => constant(terms, false),
    }
}

/// `if c then a else b`, where a branch may be skipped.
#[cycle(compile)]
fn choice(
    setting: &Setting<'_>,
    terms: &mut Terms,
    c: &TypedExpr,
    a: &TypedExpr,
    b: &TypedExpr,
) -> Result<Opt, AllocError>
    requires { IsReady terms.old setting.now }
    ensures ok { IfOk result (λ o. StandsAs terms.new o (of_choice (seen setting.now c.now) (seen setting.now a.now)
        (seen setting.now b.now))) }
    ensures kept { Keeps terms.old terms.new }
{
    if is_true(c) {
        return taken(setting, terms, c, a);
    }
    if is_false(c) {
        return taken(setting, terms, c, b);
    }
    chosen(setting, terms, c, a, b)
}

/// `if c then a else b` where one branch is always taken.
#[cycle(compile)]
#[tactic(auto, using(crate::proofs::StandLaws::later, crate::proofs::StandLaws::still_ready, crate::proofs::StandLaws::branch_stands))]
fn taken(
    setting: &Setting<'_>,
    terms: &mut Terms,
    c: &TypedExpr,
    a: &TypedExpr,
) -> Result<Opt, AllocError>
    requires { IsReady terms.old setting.now }
    ensures ok { IfOk result (λ o. StandsAs terms.new o (branch_code (code_in setting.now c.now)
        (code_in setting.now a.now))) }
    ensures kept { Keeps terms.old terms.new }
{
    let test = compile_in(setting, terms, c)?;
    let x = compile_in(setting, terms, a)?;
    let opt = branch(terms, test, x)?;
    Ok(opt)
}

/// `if c then a else b` where either branch may be taken.
#[cycle(compile)]
#[tactic(auto, using(crate::proofs::StandLaws::later, crate::proofs::StandLaws::later_still, crate::proofs::StandLaws::still_ready, crate::proofs::StandLaws::choice_stands))]
fn chosen(
    setting: &Setting<'_>,
    terms: &mut Terms,
    c: &TypedExpr,
    a: &TypedExpr,
    b: &TypedExpr,
) -> Result<Opt, AllocError>
    requires { IsReady terms.old setting.now }
    ensures ok { IfOk result (λ o. StandsAs terms.new o (choice_code (code_in setting.now c.now)
        (code_in setting.now a.now) (code_in setting.now b.now))) }
    ensures kept { Keeps terms.old terms.new }
{
    let test = compile_in(setting, terms, c)?;
    let x = compile_in(setting, terms, a)?;
    let y = compile_in(setting, terms, b)?;
    let opt = choose(terms, test, x, y)?;
    Ok(opt)
}

/// `a || b`, where b may be skipped.
#[cycle(compile)]
#[tactic(auto, using(crate::proofs::StandLaws::later, crate::proofs::StandLaws::still_ready, crate::proofs::StandLaws::or_stands))]
fn either(
    setting: &Setting<'_>,
    terms: &mut Terms,
    a: &TypedExpr,
    b: &TypedExpr,
) -> Result<Opt, AllocError>
    requires { IsReady terms.old setting.now }
    ensures ok { IfOk result (λ o. StandsAs terms.new o (of_either (seen setting.now a.now) (seen setting.now b.now))) }
    ensures kept { Keeps terms.old terms.new }
{
    if is_true(a) {
        return compile_in(setting, terms, a);
    }
    let x = compile_in(setting, terms, a)?;
    let y = compile_in(setting, terms, b)?;
    let opt = or(terms, x, y)?;
    Ok(opt)
}

/// `a && b`, where b may be skipped.
#[cycle(compile)]
#[tactic(auto, using(crate::proofs::StandLaws::later, crate::proofs::StandLaws::still_ready, crate::proofs::StandLaws::and_stands))]
fn both(
    setting: &Setting<'_>,
    terms: &mut Terms,
    a: &TypedExpr,
    b: &TypedExpr,
) -> Result<Opt, AllocError>
    requires { IsReady terms.old setting.now }
    ensures ok { IfOk result (λ o. StandsAs terms.new o (of_both (seen setting.now a.now) (seen setting.now b.now))) }
    ensures kept { Keeps terms.old terms.new }
{
    if is_false(a) {
        return compile_in(setting, terms, a);
    }
    let x = compile_in(setting, terms, a)?;
    let y = compile_in(setting, terms, b)?;
    let opt = and(terms, x, y)?;
    Ok(opt)
}

/// An operator with two operands, or the call of a method with one argument.
#[cycle(compile)]
#[tactic(auto, using(crate::proofs::StandLaws::later, crate::proofs::StandLaws::still_ready, crate::proofs::StandLaws::binary_stands))]
fn operated(
    setting: &Setting<'_>,
    terms: &mut Terms,
    operator: BinaryOperator,
    ty: &Ty,
    a: &TypedExpr,
    b: &TypedExpr,
) -> Result<Opt, AllocError>
    requires { IsReady terms.old setting.now }
    ensures ok { IfOk result (λ o. StandsAs terms.new o (binary_code setting.now.schema.now operator ty.now a.now b.now
        (code_in setting.now a.now) (code_in setting.now b.now))) }
    ensures kept { Keeps terms.old terms.new }
{
    let x = compile_in(setting, terms, a)?;
    let y = compile_in(setting, terms, b)?;
    let opt = operate(setting, terms, operator, ty, a, b, x, y)?;
    Ok(opt)
}

/// `a has b.c`.
#[cycle(compile)]
#[tactic(auto, using(sc_constructs::proofs::NumbersLaws::in_table, crate::proofs::StandLaws::path_stands))]
fn having(
    setting: &Setting<'_>,
    terms: &mut Terms,
    a: &TypedExpr,
    steps: &[HasStep],
) -> Result<Opt, AllocError>
    requires { IsReady terms.old setting.now }
    ensures ok { IfOk result (λ o. StandsAs terms.new o (path_code setting.now.schema.now
        (code_in setting.now a.now) steps.now)) }
    ensures kept { Keeps terms.old terms.new }
{
    let x = compile_in(setting, terms, a)?;
    let opt = path(setting, terms, x, steps)?;
    Ok(opt)
}

/// `a like "pattern"`.
#[cycle(compile)]
#[tactic(auto, using(sc_constructs::proofs::NumbersLaws::in_table, crate::proofs::StandLaws::like_stands))]
fn matching(
    setting: &Setting<'_>,
    terms: &mut Terms,
    a: &TypedExpr,
    pattern: &Pattern,
) -> Result<Opt, AllocError>
    requires { IsReady terms.old setting.now }
    ensures ok { IfOk result (λ o. StandsAs terms.new o (like_code pattern.now (code_in setting.now a.now))) }
    ensures kept { Keeps terms.old terms.new }
{
    let x = compile_in(setting, terms, a)?;
    let opt = like(setting, terms, x, pattern)?;
    Ok(opt)
}

/// `a is T`, which typing decides.
#[cycle(compile)]
#[tactic(auto, using(sc_constructs::proofs::NumbersLaws::in_table, crate::proofs::StandLaws::is_stands))]
fn tested(
    setting: &Setting<'_>,
    terms: &mut Terms,
    ty: &Ty,
    a: &TypedExpr,
) -> Result<Opt, AllocError>
    requires { IsReady terms.old setting.now }
    ensures ok { IfOk result (λ o. StandsAs terms.new o (is_code (is_true ty.now) (code_in setting.now a.now))) }
    ensures kept { Keeps terms.old terms.new }
{
    let x = compile_in(setting, terms, a)?;
    let opt = tell(terms, x, kinds::is_true(ty))?;
    Ok(opt)
}

/// `a is T in b`, where b is skipped where a isn't of the type T.
#[cycle(compile)]
fn tested_in(
    setting: &Setting<'_>,
    terms: &mut Terms,
    ty: &Ty,
    type_name: &TypeName,
    a: &TypedExpr,
    b: &TypedExpr,
) -> Result<Opt, AllocError>
    requires { IsReady terms.old setting.now }
    ensures ok { IfOk result (λ o. StandsAs terms.new o (is_in_code setting.now.schema.now ty.now type_name.now
        a.now b.now (code_in setting.now a.now) (code_in setting.now b.now))) }
    ensures kept { Keeps terms.old terms.new }
{
    if is_named(type_name, a) {
        tested_among(setting, terms, ty, a, b)
    } else {
        refused(setting, terms, a)
    }
}

/// `a is T in b` where a is of the type T.
#[cycle(compile)]
#[tactic(auto, using(crate::proofs::StandLaws::later, crate::proofs::StandLaws::still_ready, crate::proofs::StandLaws::among_stands))]
fn tested_among(
    setting: &Setting<'_>,
    terms: &mut Terms,
    ty: &Ty,
    a: &TypedExpr,
    b: &TypedExpr,
) -> Result<Opt, AllocError>
    requires { IsReady terms.old setting.now }
    ensures ok { IfOk result (λ o. StandsAs terms.new o (among_code setting.now.schema.now ty.now a.now b.now
        (code_in setting.now a.now) (code_in setting.now b.now))) }
    ensures kept { Keeps terms.old terms.new }
{
    let x = compile_in(setting, terms, a)?;
    let y = compile_in(setting, terms, b)?;
    let opt = among(setting, terms, ty, a, b, x, y)?;
    Ok(opt)
}

/// `a is T` where a isn't of the type T.
#[cycle(compile)]
#[tactic(auto, using(sc_constructs::proofs::NumbersLaws::in_table, crate::proofs::StandLaws::is_stands))]
fn refused(setting: &Setting<'_>, terms: &mut Terms, a: &TypedExpr) -> Result<Opt, AllocError>
    requires { IsReady terms.old setting.now }
    ensures ok { IfOk result (λ o. StandsAs terms.new o (is_code false (code_in setting.now a.now))) }
    ensures kept { Keeps terms.old terms.new }
{
    let x = compile_in(setting, terms, a)?;
    let opt = tell(terms, x, false)?;
    Ok(opt)
}

/// A prefix, the call of a method without arguments, or the call of a function.
#[cycle(compile)]
#[tactic(auto, using(sc_constructs::proofs::NumbersLaws::in_table, crate::proofs::StandLaws::unary_stands))]
fn applied(
    setting: &Setting<'_>,
    terms: &mut Terms,
    operator: UnaryOperator,
    a: &TypedExpr,
) -> Result<Opt, AllocError>
    requires { IsReady terms.old setting.now }
    ensures ok { IfOk result (λ o. StandsAs terms.new o (unary_code operator a.now (code_in setting.now a.now))) }
    ensures kept { Keeps terms.old terms.new }
{
    let x = compile_in(setting, terms, a)?;
    let opt = apply(setting, terms, operator, a, x)?;
    Ok(opt)
}

/// `a.name`.
#[cycle(compile)]
#[tactic(auto, using(sc_constructs::proofs::NumbersLaws::in_table, crate::proofs::StandLaws::access_stands))]
fn accessed(
    setting: &Setting<'_>,
    terms: &mut Terms,
    a: &TypedExpr,
    name: &Text,
) -> Result<Opt, AllocError>
    requires { IsReady terms.old setting.now }
    ensures ok { IfOk result (λ o. StandsAs terms.new o (access_code setting.now.schema.now (type_in a.now) name.now
        (code_in setting.now a.now))) }
    ensures kept { Keeps terms.old terms.new }
{
    let x = compile_in(setting, terms, a)?;
    let opt = access(setting, terms, a, name, x)?;
    Ok(opt)
}

/// `[a, b]`.
#[cycle(compile)]
fn set(setting: &Setting<'_>, terms: &mut Terms, members: &[TypedExpr]) -> Result<Opt, AllocError>
    requires { IsReady terms.old setting.now }
    ensures ok { IfOk result (λ o. StandsAs terms.new o (set_code (codes_in setting.now members.now))) }
    ensures kept { Keeps terms.old terms.new }
{
    let codes = all_of(setting, terms, members)?;
    let opt = set_of(setting, terms, codes.as_slice())?;
    Ok(opt)
}

/// What members are compiled to, in order.
#[cycle(compile)]
fn all_of(
    setting: &Setting<'_>,
    terms: &mut Terms,
    members: &[TypedExpr],
) -> Result<Seq<Opt>, AllocError>
    requires { IsReady terms.old setting.now }
    ensures ok { IfOk result (λ codes. StandAs terms.new codes (codes_in setting.now members.now)) }
    ensures kept { Keeps terms.old terms.new }
{
    let mut codes = Seq::new(setting.alloc);
    for member in members {
        let opt = compile_in(setting, terms, member)?;
        codes.push(opt)?;
    }
    Ok(codes)
}

/// `{a: x, b: y}`.
#[cycle(compile)]
fn record(
    setting: &Setting<'_>,
    terms: &mut Terms,
    fields: &[(Text, TypedExpr)],
) -> Result<Opt, AllocError>
    requires { IsReady terms.old setting.now }
    ensures ok { IfOk result (λ o. StandsAs terms.new o (record_code (map (field_in setting.now) fields.now))) }
    ensures kept { Keeps terms.old terms.new }
{
    let codes = all_fields(setting, terms, fields)?;
    let opt = record_of(setting, terms, codes.as_slice())?;
    Ok(opt)
}

/// What fields are compiled to, in the order in which they are written.
#[cycle(compile)]
fn all_fields(
    setting: &Setting<'_>,
    terms: &mut Terms,
    fields: &[(Text, TypedExpr)],
) -> Result<Seq<(Text, Opt)>, AllocError>
    requires { IsReady terms.old setting.now }
    ensures ok { IfOk result (λ codes. StandAsFields terms.new codes (map (field_in setting.now) fields.now)) }
    ensures kept { Keeps terms.old terms.new }
{
    let mut codes = Seq::new(setting.alloc);
    for field in fields {
        let opt = compile_in(setting, terms, &field.1)?;
        let name = field.0.try_clone(setting.alloc)?;
        codes.push((name, opt))?;
    }
    Ok(codes)
}
