//! Typing of expressions. It goes as deep as the expression does.
ghost use Rattle.std.specs.Prelude.{◌≡◌, ◌++◌, ℕ, List, map, []};
ghost use Rattle.sc_lists.specs.Told.{Gives};
ghost use Rattle.sc_ast.specs.declared.expr.Expr.{Expr as AnyExpr};
ghost use Rattle.sc_typed.specs.Outcomes.{gives};
ghost use Rattle.sc_typing.specs.Settings.{seen, typed_in, choice_first, choice_second, choice_rest, tested_among};
ghost use Rattle.sc_typing_rules.specs.Rules.{choice, choice_open, either, both, operated, contained, membership, computed, having, matching, tested, tested_in, applied, accessed, literal_typed, variable_type, all_typed, set_literal, fields_typed, record_literal};
ghost use Rattle.sc_typing.specs.Typing.{typing};

use sc_ast::{BinaryOperator, Expr, Literal, Place, TypeName, UnaryOperator, Variable};
use sc_lists::{Boxed, Fault, Seq, Text};
use sc_pattern::Pattern;
use sc_schema::Ty;
use sc_typed::capability::copies;
use sc_typed::operands::{is_false, is_true};
use sc_typed::types::truth;
use sc_typed::{Capability, TypeFault, Typed, TypedExpr};
use sc_typing_rules::Setting;
use sc_typing_rules::actions::decided;
use sc_typing_rules::collections::{record_of, set_of};
use sc_typing_rules::leaves::{leaves, literal, variable};
use sc_typing_rules::logic::{
    and_false, branches, conjunction, disjunction, first_branch, or_true, second_branch,
};
use sc_typing_rules::objects::{access, has};
use sc_typing_rules::operations::{
    apply, contain, is, is_in, is_not, is_of, like, operate, with_right,
};

/// The types of an expression where some capabilities are known, and the capabilities that it gives.
/// Operands are typed from left to right, but for those that a rule skips, and then their kinds are
/// asked for. The first fault stands.
#[cycle(typing)]
pub(crate) fn type_expr(setting: &Setting<'_>, expr: &Expr) -> Result<Typed, Fault<TypeFault>>
    ensures { Gives result (typed_in setting.now expr.now) }
{
    match expr {
        Expr::If(place, c, a, b) => choose(setting, *place, c, a, b),
        Expr::Or(place, a, b) => or_else(setting, *place, a, b),
        Expr::And(place, a, b) => and_also(setting, *place, a, b),
        Expr::Binary(place, operator, a, b) => type_binary(setting, *place, *operator, a, b),
        Expr::Has(place, a, names) => type_has(setting, *place, names.as_slice(), a),
        Expr::Like(place, a, pattern) => type_like(setting, *place, pattern, a),
        Expr::Is(place, a, type_name) => type_is(setting, *place, type_name, a),
        Expr::IsIn(place, a, type_name, in_place, b) => {
            type_is_in(setting, *place, type_name, *in_place, a, b)
        }
        Expr::Unary(place, operator, a) => type_unary(setting, *place, *operator, a),
        Expr::Access(place, a, name) => type_access(setting, *place, name, a),
        Expr::Literal(place, l) => type_literal(setting, *place, l),
        Expr::Variable(place, x) => type_variable(setting, *place, *x),
        Expr::Set(place, members) => type_set(setting, *place, members.as_slice()),
        Expr::Record(place, fields) => type_record(setting, *place, fields.as_slice()),
    }
}

/// The types of an expression where further capabilities are known.
#[cycle(typing)]
fn type_under(
    setting: &Setting<'_>,
    given: &[Capability],
    expr: &Expr,
) -> Result<Typed, Fault<TypeFault>>
    ensures { Gives result (typing setting.now.schema.now setting.now.env.now expr.now (setting.now.known.now
        ++ given.now)) }
{
    if given.is_empty() {
        return type_expr(setting, expr);
    }
    let all = copies(setting.alloc, setting.known, given)?;
    let more = Setting {
        alloc: setting.alloc,
        schema: setting.schema,
        env: setting.env,
        known: all.as_slice(),
    };
    type_expr(&more, expr)
}

#[cycle(typing)]
fn choose(
    setting: &Setting<'_>,
    place: Place,
    c: &Boxed<Expr>,
    a: &Boxed<Expr>,
    b: &Boxed<Expr>,
) -> Result<Typed, Fault<TypeFault>>
    ensures { Gives result (choice place (seen setting.now c.now) (seen setting.now a.now)
        (seen setting.now b.now) setting.now.known.now) }
{
    let x = type_expr(setting, c.get())?;
    if is_true(x.expr.get()) {
        return choose_first(setting, place, x, a, b);
    }
    if is_false(x.expr.get()) {
        return choose_second(setting, place, x, a, b);
    }
    choose_open(setting, place, x, a, b)
}

/// `if c then a else b` where c is true.
#[cycle(typing)]
fn choose_first(
    setting: &Setting<'_>,
    place: Place,
    x: Typed,
    a: &Boxed<Expr>,
    b: &Boxed<Expr>,
) -> Result<Typed, Fault<TypeFault>>
    ensures { Gives result (choice_first place x (seen setting.now a.now) b.now setting.now.known.now) }
{
    let y = type_under(setting, x.given.as_slice(), a.get())?;
    Ok(first_branch(setting.alloc, place, x, y, b.get())?)
}

/// `if c then a else b` where c is false.
#[cycle(typing)]
fn choose_second(
    setting: &Setting<'_>,
    place: Place,
    x: Typed,
    a: &Boxed<Expr>,
    b: &Boxed<Expr>,
) -> Result<Typed, Fault<TypeFault>>
    ensures { Gives result (choice_second place x a.now (seen setting.now b.now) setting.now.known.now) }
{
    let z = type_expr(setting, b.get())?;
    Ok(second_branch(setting.alloc, place, x, a.get(), z)?)
}

/// `if c then a else b` where c may be true or false.
#[cycle(typing)]
fn choose_open(
    setting: &Setting<'_>,
    place: Place,
    x: Typed,
    a: &Boxed<Expr>,
    b: &Boxed<Expr>,
) -> Result<Typed, Fault<TypeFault>>
    ensures { Gives result (choice_open place x (seen setting.now a.now) (seen setting.now b.now)
        setting.now.known.now) }
{
    let y = type_under(setting, x.given.as_slice(), a.get())?;
    choose_rest(setting, place, x, y, b)
}

/// The same, of c and of a with their types.
#[cycle(typing)]
fn choose_rest(
    setting: &Setting<'_>,
    place: Place,
    x: Typed,
    y: Typed,
    b: &Boxed<Expr>,
) -> Result<Typed, Fault<TypeFault>>
    ensures { Gives result (choice_rest place x y (seen setting.now b.now) setting.now.known.now) }
{
    let z = type_expr(setting, b.get())?;
    branches(setting.alloc, place, x, y, z)
}

#[cycle(typing)]
fn or_else(
    setting: &Setting<'_>,
    place: Place,
    a: &Boxed<Expr>,
    b: &Boxed<Expr>,
) -> Result<Typed, Fault<TypeFault>>
    ensures { Gives result (either place (seen setting.now a.now) (seen setting.now b.now) setting.now.known.now) }
{
    let x = type_expr(setting, a.get())?;
    if is_true(x.expr.get()) {
        return Ok(or_true(setting.alloc, place, x, b.get())?);
    }
    let y = type_expr(setting, b.get())?;
    disjunction(setting.alloc, place, x, y)
}

#[cycle(typing)]
fn and_also(
    setting: &Setting<'_>,
    place: Place,
    a: &Boxed<Expr>,
    b: &Boxed<Expr>,
) -> Result<Typed, Fault<TypeFault>>
    ensures { Gives result (both place (seen setting.now a.now) (seen setting.now b.now) setting.now.known.now) }
{
    let x = type_expr(setting, a.get())?;
    if is_false(x.expr.get()) {
        return Ok(and_false(setting.alloc, place, x, b.get())?);
    }
    let y = type_under(setting, x.given.as_slice(), b.get())?;
    conjunction(setting.alloc, place, x, y)
}

#[cycle(typing)]
fn type_binary(
    setting: &Setting<'_>,
    place: Place,
    operator: BinaryOperator,
    a: &Boxed<Expr>,
    b: &Boxed<Expr>,
) -> Result<Typed, Fault<TypeFault>>
    ensures { Gives result (operated setting.now.schema.now place operator (seen setting.now a.now)
        (seen setting.now b.now) setting.now.known.now) }
{
    match operator {
        BinaryOperator::In => type_in(setting, place, a, b),
        _ => type_operands(setting, place, operator, a, b),
    }
}

#[cycle(typing)]
fn type_operands(
    setting: &Setting<'_>,
    place: Place,
    operator: BinaryOperator,
    a: &Boxed<Expr>,
    b: &Boxed<Expr>,
) -> Result<Typed, Fault<TypeFault>>
    ensures { Gives result (computed setting.now.schema.now place operator (seen setting.now a.now)
        (seen setting.now b.now) setting.now.known.now) }
{
    let a = a.get();
    let b = b.get();
    let x = type_expr(setting, a)?;
    let y = type_expr(setting, b)?;
    operate(setting, place, operator, a, b, x.into_expr(), y.into_expr())
}

#[cycle(typing)]
fn type_in(
    setting: &Setting<'_>,
    place: Place,
    a: &Boxed<Expr>,
    b: &Boxed<Expr>,
) -> Result<Typed, Fault<TypeFault>>
    ensures { Gives result (contained setting.now.schema.now place (seen setting.now a.now)
        (seen setting.now b.now) setting.now.known.now) }
{
    let a = a.get();
    let x = type_expr(setting, a)?;
    let right = type_right(setting, a, b.get(), x.expr.get())?;
    Ok(contain(setting.alloc, place, x.into_expr(), right)?)
}

/// The right side of `a in b`, of a with its types, and the type of the whole.
#[cycle(typing)]
fn type_right(
    setting: &Setting<'_>,
    a: &Expr,
    b: &Expr,
    x: &TypedExpr,
) -> Result<(Ty, Boxed<TypedExpr>), Fault<TypeFault>>
    ensures { Gives result (membership setting.now.schema.now a.now (seen setting.now b.now)
        setting.now.known.now x.now) }
{
    if let Some(is_in) = decided(setting.schema, a, b) {
        let right = leaves(setting.alloc, setting.schema, b)?;
        return Ok((truth(is_in), right));
    }
    let y = type_expr(setting, b)?;
    Ok(with_right(setting.schema, x, y.into_expr())?)
}

#[cycle(typing)]
fn type_has(
    setting: &Setting<'_>,
    place: Place,
    names: &[Text],
    a: &Boxed<Expr>,
) -> Result<Typed, Fault<TypeFault>>
    ensures { Gives result (having setting.now.schema.now place names.now (seen setting.now a.now)
        setting.now.known.now) }
{
    let a = a.get();
    let x = type_expr(setting, a)?;
    has(setting, place, names, a, x.into_expr())
}

#[cycle(typing)]
fn type_like(
    setting: &Setting<'_>,
    place: Place,
    pattern: &Pattern,
    a: &Boxed<Expr>,
) -> Result<Typed, Fault<TypeFault>>
    ensures { Gives result (matching place pattern.now (seen setting.now a.now) setting.now.known.now) }
{
    let x = type_expr(setting, a.get())?;
    like(setting.alloc, place, pattern, x.into_expr())
}

#[cycle(typing)]
fn type_is(
    setting: &Setting<'_>,
    place: Place,
    type_name: &TypeName,
    a: &Boxed<Expr>,
) -> Result<Typed, Fault<TypeFault>>
    ensures { Gives result (tested place type_name.now (seen setting.now a.now) setting.now.known.now) }
{
    let x = type_expr(setting, a.get())?;
    is(setting.alloc, place, type_name, x.into_expr())
}

#[cycle(typing)]
fn type_is_in(
    setting: &Setting<'_>,
    place: Place,
    type_name: &TypeName,
    in_place: Place,
    a: &Boxed<Expr>,
    b: &Boxed<Expr>,
) -> Result<Typed, Fault<TypeFault>>
    ensures { Gives result (tested_in setting.now.schema.now place type_name.now in_place (seen setting.now a.now)
        (seen setting.now b.now) setting.now.known.now) }
{
    let x = type_expr(setting, a.get())?;
    if is_of(x.expr.get(), type_name)? {
        return type_among(setting, place, type_name, in_place, a, x, b);
    }
    Ok(is_not(
        setting.alloc,
        place,
        type_name,
        in_place,
        x.into_expr(),
        b.get(),
    )?)
}

/// `a is T in b` where a is of the type T.
#[cycle(typing)]
fn type_among(
    setting: &Setting<'_>,
    place: Place,
    type_name: &TypeName,
    in_place: Place,
    a: &Boxed<Expr>,
    x: Typed,
    b: &Boxed<Expr>,
) -> Result<Typed, Fault<TypeFault>>
    ensures { Gives result (tested_among setting.now.schema.now place type_name.now in_place a.now x.expr
        (seen setting.now b.now) setting.now.known.now) }
{
    let right = type_right(setting, a.get(), b.get(), x.expr.get())?;
    Ok(is_in(
        setting.alloc,
        place,
        type_name,
        in_place,
        x.into_expr(),
        right,
    )?)
}

#[cycle(typing)]
fn type_unary(
    setting: &Setting<'_>,
    place: Place,
    operator: UnaryOperator,
    a: &Boxed<Expr>,
) -> Result<Typed, Fault<TypeFault>>
    ensures { Gives result (applied place operator (seen setting.now a.now) setting.now.known.now) }
{
    let a = a.get();
    let x = type_expr(setting, a)?;
    apply(setting.alloc, place, operator, a, x.into_expr())
}

#[cycle(typing)]
fn type_access(
    setting: &Setting<'_>,
    place: Place,
    name: &Text,
    a: &Boxed<Expr>,
) -> Result<Typed, Fault<TypeFault>>
    ensures { Gives result (accessed setting.now.schema.now place name.now (seen setting.now a.now)
        setting.now.known.now) }
{
    let a = a.get();
    let x = type_expr(setting, a)?;
    access(setting, place, name, a, x.into_expr())
}

/// A literal with its type.
fn type_literal(
    setting: &Setting<'_>,
    place: Place,
    value: &Literal,
) -> Result<Typed, Fault<TypeFault>>
    ensures { Gives result (gives (literal_typed setting.now.schema.now place value.now) []) }
{
    Ok(literal(setting.alloc, setting.schema, place, value)?)
}

/// A variable with its type.
fn type_variable(
    setting: &Setting<'_>,
    place: Place,
    name: Variable,
) -> Result<Typed, Fault<TypeFault>>
    ensures { Gives result (gives (TypedExpr.Variable place (variable_type setting.now.schema.now
        setting.now.env.now name) name) []) }
{
    Ok(variable(setting, place, name)?)
}

#[cycle(typing)]
fn type_set(
    setting: &Setting<'_>,
    place: Place,
    members: &[Expr],
) -> Result<Typed, Fault<TypeFault>>
    ensures { Gives result (set_literal place (map (seen setting.now) members.now) setting.now.known.now) }
{
    let typed = type_all(setting, members)?;
    set_of(setting.alloc, place, typed)
}

/// Members with their types, in order.
#[cycle(typing)]
#[tactic(auto, using(crate::proofs::ToComeLaws::members_to_come_more))]
fn type_all(setting: &Setting<'_>, members: &[Expr]) -> Result<Seq<TypedExpr>, Fault<TypeFault>>
    ensures { Gives result (all_typed (map (seen setting.now) members.now) setting.now.known.now) }
{
    let mut typed = Seq::new(setting.alloc);
    for member in members {
        let x = type_expr(setting, member)?;
        typed.push(x.into_expr().into_inner())?;
    }
    Ok(typed)
}

#[cycle(typing)]
fn type_record(
    setting: &Setting<'_>,
    place: Place,
    fields: &[(Text, Expr)],
) -> Result<Typed, Fault<TypeFault>>
    ensures { Gives result (record_literal place (map (λ (f : List ℕ × AnyExpr).
        (f.0, seen setting.now f.1)) fields.now) setting.now.known.now) }
{
    let typed = type_fields(setting, fields)?;
    Ok(record_of(setting.alloc, place, typed)?)
}

/// The names of fields, and these with their types, in order.
#[cycle(typing)]
#[tactic(auto, using(crate::proofs::ToComeLaws::fields_to_come_more))]
fn type_fields(
    setting: &Setting<'_>,
    fields: &[(Text, Expr)],
) -> Result<Seq<(Text, TypedExpr)>, Fault<TypeFault>>
    ensures { Gives result (fields_typed (map (λ (f : List ℕ × AnyExpr).
        (f.0, seen setting.now f.1)) fields.now) setting.now.known.now) }
{
    let mut typed = Seq::new(setting.alloc);
    for field in fields {
        let name = field.0.try_clone(setting.alloc)?;
        let x = type_expr(setting, &field.1)?;
        typed.push((name, x.into_expr().into_inner()))?;
    }
    Ok(typed)
}
