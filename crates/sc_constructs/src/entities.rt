//! `in` and tags, of operands that are compiled.
ghost use Rattle.std.specs.Prelude.{◌≡◌, ◌<◌, length, Some, IfOk};
ghost use Rattle.std.specs.Option.{option_copied};
ghost use Rattle.sc_schema.specs.declared.ty.Ty.{out-Ty};
ghost use Rattle.sc_terms.specs.Tables.{tree, Keeps, StandsFor};
ghost use Rattle.sc_typed.specs.Outcomes.{ty as type_in};
ghost use Rattle.sc_typed.specs.Types.{entity_name as name_of_type};
ghost use Rattle.sc_typed.specs.declared.typed_expr.TypedExpr.{out-TypedExpr};
ghost use Rattle.sc_constructs.specs.Code.{only_where, after_both};
ghost use Rattle.sc_constructs.specs.Objects.{tag_type as tags_in, has_key as key_is, has_tag_code, get_tag_code, above as ancestors_above, may_be_above, in_one as one_in, in_some as some_in, in_type as type_holds, in_term as term_in, in_code, uid_at as uid_in_expr, is_declared_action, is_uid as uid_is, are_uids as uids_are, are_some_uids as some_uids_are, is_group_in, is_decided as typing_decides};
ghost use Rattle.sc_constructs.specs.Numbers.{IsCode, StandsAs, code_at};
ghost use Rattle.sc_sorts.specs.declared.node.BinaryOp.TheVariants as binary;
ghost use Rattle.sc_terms.specs.Trees.{two};

use crate::logic::{both_have, constant, tell_both};
use crate::numbers::only_so;
use crate::opt::Opt;
use crate::sets::equal_where;
use crate::setting::Setting;
use sc_ast::Literal;
use sc_names::{Name, Uid};
use sc_schema::{Schema, Ty, action_ancestors, ancestor_types, tags_of};
use sc_sorts::{entity_sort, sort_of};
use sc_terms::Terms;
use sc_typed::kinds::{entity_name, is_true};
use sc_typed::{TypedExpr, type_of};
use std::alloc::AllocError;

/// The name of the type of an entity.
pub fn name_of(x: &TypedExpr) -> Option<&Name>
    ensures { option_copied result ≡ name_of_type (type_in x.now) }
{
    match type_of(x) {
        Some(ty) => entity_name(ty),
        None => None,
    }
}

// ---- tags

/// The type of the tags of an entity. None where it has none.
fn tag_type<'s>(schema: &'s Schema, x: &TypedExpr) -> Option<&'s Ty>
    ensures { option_copied result ≡ tags_in schema.now (type_in x.now) }
{
    match name_of(x) {
        Some(name) => tags_of(schema, name),
        None => None,
    }
}

/// Whether an entity has a tag of a key.
fn has_key(terms: &mut Terms, a: Opt, b: Opt) -> Result<u64, AllocError>
    requires a_in { IsCode terms.old a }
    requires b_in { IsCode terms.old b }
    ensures ok { IfOk result (λ n. StandsFor terms.new n (key_is (code_at terms.old a) (code_at terms.old b))) }
    ensures kept { Keeps terms.old terms.new }
{
    let keys = terms.keys(a.val)?;
    let n = terms.member(b.val, keys)?;
    Ok(n)
}

/// `a.hasTag(b)`, which is false where entities of the type have no tags.
pub fn has_tag(
    setting: &Setting<'_>,
    terms: &mut Terms,
    x: &TypedExpr,
    a: Opt,
    b: Opt,
) -> Result<Opt, AllocError>
    requires a_in { IsCode terms.old a }
    requires b_in { IsCode terms.old b }
    ensures ok { IfOk result (λ o. StandsAs terms.new o (has_tag_code (tags_in setting.now.schema.now (type_in x.now))
        (code_at terms.old a) (code_at terms.old b))) }
    ensures kept { Keeps terms.old terms.new }
{
    match tag_type(setting.schema, x) {
        Some(_) => has_some_tag(terms, a, b),
        None => tell_both(terms, a, b, false),
    }
}

fn has_some_tag(terms: &mut Terms, a: Opt, b: Opt) -> Result<Opt, AllocError>
    requires a_in { IsCode terms.old a }
    requires b_in { IsCode terms.old b }
    ensures ok { IfOk result (λ o. StandsAs terms.new o (after_both (code_at terms.old a) (code_at terms.old b) (key_is
        (code_at terms.old a) (code_at terms.old b)))) }
    ensures kept { Keeps terms.old terms.new }
{
    let val = has_key(terms, a, b)?;
    let opt = both_have(terms, a, b, val)?;
    Ok(opt)
}

/// `a.getTag(b)`, which errs where the entity lacks the tag.
pub fn get_tag(
    setting: &Setting<'_>,
    terms: &mut Terms,
    x: &TypedExpr,
    a: Opt,
    b: Opt,
) -> Result<Opt, AllocError>
    requires a_in { IsCode terms.old a }
    requires b_in { IsCode terms.old b }
    ensures ok { IfOk result (λ o. StandsAs terms.new o (get_tag_code (tags_in setting.now.schema.now (type_in x.now))
        (code_at terms.old a) (code_at terms.old b))) }
    ensures kept { Keeps terms.old terms.new }
{
    match tag_type(setting.schema, x) {
        Some(ty) => get_some_tag(setting, terms, ty, a, b),
        None => tell_both(terms, a, b, false),
    }
}

fn get_some_tag(
    setting: &Setting<'_>,
    terms: &mut Terms,
    ty: &Ty,
    a: Opt,
    b: Opt,
) -> Result<Opt, AllocError>
    requires a_in { IsCode terms.old a }
    requires b_in { IsCode terms.old b }
    ensures ok { IfOk result (λ o. StandsAs terms.new o (get_tag_code (Some ty.now) (code_at terms.old a)
        (code_at terms.old b))) }
    ensures kept { Keeps terms.old terms.new }
{
    let present = has_key(terms, a, b)?;
    let sort = sort_of(setting.alloc, ty)?;
    let val = terms.tag(a.val, b.val, sort)?;
    let opt = only_so(terms, a, b, present, val)?;
    Ok(opt)
}

// ---- `in`

/// Whether entities of a type may have ancestors of another.
fn may_be_above(schema: &Schema, name: &Name, above: &Name) -> bool
    ensures { result ≡ may_be_above schema.now name.now above.now }
{
    match ancestor_types(schema, name) {
        Some(names) => names.iter().any(|other| above.as_str() == other.as_str()),
        None => false,
    }
}

/// The ancestors of an entity that are of a type.
fn ancestors(
    setting: &Setting<'_>,
    terms: &mut Terms,
    name: &Name,
    a: u64,
) -> Result<u64, AllocError>
    requires { a < length terms.old }
    ensures ok { IfOk result (λ n. StandsFor terms.new n (ancestors_above setting.now.schema.now name.now
        (tree terms.old a))) }
    ensures kept { Keeps terms.old terms.new }
{
    let sort = entity_sort(setting.alloc, setting.schema, name)?;
    terms.ancestors(a, sort)
}

/// Whether an entity of a type is another one, or in it.
fn in_one(
    setting: &Setting<'_>,
    terms: &mut Terms,
    name: &Name,
    of: &Name,
    a: u64,
    b: u64,
) -> Result<u64, AllocError>
    requires a_in { a < length terms.old }
    requires b_in { b < length terms.old }
    ensures ok { IfOk result (λ n. StandsFor terms.new n
        (one_in setting.now.schema.now name.now of.now (tree terms.old a)
        (tree terms.old b))) }
    ensures kept { Keeps terms.old terms.new }
{
    let same = equal_where(terms, name.as_str() == of.as_str(), a, b)?;
    let below = below_one(setting, terms, name, of, a, b)?;
    let n = terms.or(same, below)?;
    Ok(n)
}

/// Whether an entity of a type has another one among its ancestors.
fn below_one(
    setting: &Setting<'_>,
    terms: &mut Terms,
    name: &Name,
    of: &Name,
    a: u64,
    b: u64,
) -> Result<u64, AllocError>
    requires a_in { a < length terms.old }
    requires b_in { b < length terms.old }
    ensures ok { IfOk result (λ n. StandsFor terms.new n
        (only_where (may_be_above setting.now.schema.now name.now of.now)
        (two binary.Member (tree terms.old b) (ancestors_above setting.now.schema.now of.now (tree terms.old a))))) }
    ensures kept { Keeps terms.old terms.new }
{
    if !may_be_above(setting.schema, name, of) {
        return terms.truth(false);
    }
    let all = ancestors(setting, terms, of, a)?;
    let n = terms.member(b, all)?;
    Ok(n)
}

/// Whether an entity of a type is a member of a set, or in one.
fn in_some(
    setting: &Setting<'_>,
    terms: &mut Terms,
    name: &Name,
    of: &Name,
    a: u64,
    b: u64,
) -> Result<u64, AllocError>
    requires a_in { a < length terms.old }
    requires b_in { b < length terms.old }
    ensures ok { IfOk result (λ n. StandsFor terms.new n
        (some_in setting.now.schema.now name.now of.now (tree terms.old a)
        (tree terms.old b))) }
    ensures kept { Keeps terms.old terms.new }
{
    let same = member_where(terms, name.as_str() == of.as_str(), a, b)?;
    let below = below_some(setting, terms, name, of, a, b)?;
    let n = terms.or(same, below)?;
    Ok(n)
}

/// Whether a set has a member, where it may be one, and else `false`.
fn member_where(terms: &mut Terms, so: bool, a: u64, b: u64) -> Result<u64, AllocError>
    requires a_in { a < length terms.old }
    requires b_in { b < length terms.old }
    ensures ok { IfOk result (λ n. StandsFor terms.new n (only_where so (two binary.Member (tree terms.old a)
        (tree terms.old b)))) }
    ensures kept { Keeps terms.old terms.new }
{
    if so {
        terms.member(a, b)
    } else {
        terms.truth(false)
    }
}

/// Whether an entity of a type has a member of a set among its ancestors.
fn below_some(
    setting: &Setting<'_>,
    terms: &mut Terms,
    name: &Name,
    of: &Name,
    a: u64,
    b: u64,
) -> Result<u64, AllocError>
    requires a_in { a < length terms.old }
    requires b_in { b < length terms.old }
    ensures ok { IfOk result (λ n. StandsFor terms.new n
        (only_where (may_be_above setting.now.schema.now name.now of.now)
        (two binary.Common (ancestors_above setting.now.schema.now of.now (tree terms.old a)) (tree terms.old b)))) }
    ensures kept { Keeps terms.old terms.new }
{
    if !may_be_above(setting.schema, name, of) {
        return terms.truth(false);
    }
    let all = ancestors(setting, terms, of, a)?;
    let n = terms.common(all, b)?;
    Ok(n)
}

/// Whether an entity is what another term is, or in it, by the types of both.
fn in_term(
    setting: &Setting<'_>,
    terms: &mut Terms,
    name: Option<&Name>,
    y: &TypedExpr,
    a: u64,
    b: u64,
) -> Result<u64, AllocError>
    requires a_in { a < length terms.old }
    requires b_in { b < length terms.old }
    ensures ok { IfOk result (λ n. StandsFor terms.new n (term_in setting.now.schema.now (option_copied name.entry)
        (type_in y.now) (tree terms.old a) (tree terms.old b))) }
    ensures kept { Keeps terms.old terms.new }
{
    let Some(name) = name else {
        return terms.truth(false);
    };
    match type_of(y) {
        Some(ty) => in_type(setting, terms, name, ty, a, b),
        None => terms.truth(false),
    }
}

/// Whether an entity of a type is what a term of a type is, or in it.
fn in_type(
    setting: &Setting<'_>,
    terms: &mut Terms,
    name: &Name,
    ty: &Ty,
    a: u64,
    b: u64,
) -> Result<u64, AllocError>
    requires a_in { a < length terms.old }
    requires b_in { b < length terms.old }
    ensures ok { IfOk result (λ n. StandsFor terms.new n (type_holds setting.now.schema.now name.now (out-Ty ty.now)
        (tree terms.old a) (tree terms.old b))) }
    ensures kept { Keeps terms.old terms.new }
{
    match ty {
        Ty::Entity(of) => in_one(setting, terms, name, &of.name, a, b),
        Ty::Set(member) => match entity_name(member.get()) {
            Some(of) => in_some(setting, terms, name, of, a, b),
            None => terms.truth(false),
        },
        _ => terms.truth(false),
    }
}

/// Whether typing decides `x in y`: of a declared action, and of entities that are written.
fn is_decided(schema: &Schema, x: &TypedExpr, y: &TypedExpr) -> bool
    ensures { result ≡ typing_decides schema.now x.now y.now }
{
    is_action(schema, uid_at(x)) && is_group(y)
}

fn is_action(schema: &Schema, uid: Option<&Uid>) -> bool
    ensures { result ≡ is_declared_action schema.now (option_copied uid.entry) }
{
    match uid {
        Some(uid) => action_ancestors(schema, uid).is_some(),
        None => false,
    }
}

/// The entity that an expression is.
fn uid_at(x: &TypedExpr) -> Option<&Uid>
    ensures { option_copied result ≡ uid_in_expr (out-TypedExpr x.now) }
{
    match x {
        TypedExpr::Literal(_, _, Literal::Entity(uid)) => Some(uid),
        _ => None,
    }
}

fn is_uid(x: &TypedExpr) -> bool
    ensures { result ≡ uid_is x.now }
{
    uid_at(x).is_some()
}

/// Whether an expression is an entity that is written, or a set of one or more.
fn is_group(y: &TypedExpr) -> bool
    ensures { result ≡ is_group_in (out-TypedExpr y.now) }
{
    match y {
        TypedExpr::Literal(_, _, Literal::Entity(_)) => true,
        TypedExpr::Set(_, _, members) => are_some_uids(members.as_slice()),
        _ => false,
    }
}

fn are_some_uids(members: &[TypedExpr]) -> bool
    ensures { result ≡ some_uids_are members.now }
{
    match members.split_first() {
        Some(_) => are_uids(members),
        None => false,
    }
}

fn are_uids(members: &[TypedExpr]) -> bool
    ensures { result ≡ uids_are members.now }
{
    let mut rest = members;
    while let Some((first, later)) = rest.split_first() {
        if !is_uid(first) {
            return false;
        }
        rest = later;
    }
    true
}

/// `x in y`, whose type is the first one.
pub fn contained(
    setting: &Setting<'_>,
    terms: &mut Terms,
    ty: &Ty,
    x: &TypedExpr,
    y: &TypedExpr,
    a: Opt,
    b: Opt,
) -> Result<Opt, AllocError>
    requires a_in { IsCode terms.old a }
    requires b_in { IsCode terms.old b }
    ensures ok { IfOk result (λ o. StandsAs terms.new o (in_code setting.now.schema.now ty.now x.now y.now
        (code_at terms.old a) (code_at terms.old b))) }
    ensures kept { Keeps terms.old terms.new }
{
    if is_decided(setting.schema, x, y) {
        return constant(terms, is_true(ty));
    }
    let val = in_term(setting, terms, name_of(x), y, a.val, b.val)?;
    let opt = both_have(terms, a, b, val)?;
    Ok(opt)
}
