//! Whether a leaf is a term.
ghost use Rattle.std.specs.Prelude.{◌≡◌, ◌↔◌, ◌⊎◌, [], is_some, IsTrue, IfOk, Contains, FitsSigned};
ghost use Rattle.std.specs.Int.{w64};
ghost use Rattle.std.specs.List.{list_any};
ghost use Rattle.std.specs.Ordering.{is_eq};
ghost use Rattle.sc_ip.specs.Addresses.{IsIp};
ghost use Rattle.sc_names.specs.declared.uid.Uid.{Uid as AnyUid};
ghost use Rattle.sc_names.specs.Uids.{uid_cmp};
ghost use Rattle.sc_sorts.specs.NodeSorts.{leaf_sort};
ghost use Rattle.sc_schema.specs.Declarations.{attrs_of};
ghost use Rattle.sc_sorts.specs.Entities.{entity_sort as sort_of_entities};
ghost use Rattle.sc_sorts.specs.contracts.sort.SortPartialEq.TheImpl.{ghosts as sorts};
ghost use Rattle.sc_terms.specs.Trees.{leaf as leaf_tree};
ghost use Rattle.sc_term_laws.specs.Judging.{IsTermOf};
ghost use Rattle.sc_term_laws.specs.Judged.{IsLiteralOf, IsEntityLiteral};

use crate::lawful_sorts::is_lawful_held;
use crate::names::is_text;
use crate::schema_sorts::is_sort_of;
use sc_decimal::Decimal;
use sc_ip::Ip;
use sc_lists::Seq;
use sc_names::{Lits, Name, Uid, compare};
use sc_schema::{Env, Schema, attrs_of, context_of};
use sc_sorts::{Leaf, Literal, Sort, choices_of, entity_sort};
use std::alloc::{AllocError, Global};

/// Whether a leaf is a term, in an environment of a schema and with the entities that policies
/// write.
pub(crate) fn leaf_test(
    alloc: Global,
    schema: &Schema,
    env: &Env,
    lits: &Lits,
    leaf: &Leaf,
) -> Result<bool, AllocError>
    ensures { IfOk result (λ b. IsTrue b ↔
        IsTermOf schema.now env.now lits.now (leaf_sort leaf.now) (leaf_tree leaf.now)) }
{
    match leaf {
        Leaf::Literal(literal) => literal_test(alloc, schema, lits, literal),
        Leaf::None(held) => is_lawful_held(alloc, schema, held),
        Leaf::Principal(sort) => is_sort_of_entities(alloc, schema, &env.principal, sort),
        Leaf::Resource(sort) => is_sort_of_entities(alloc, schema, &env.resource, sort),
        Leaf::Context(sort) => is_sort_of(alloc, context_of(schema, &env.action), sort),
    }
}

/// Whether a sort is that of a type's entities.
fn is_sort_of_entities(
    alloc: Global,
    schema: &Schema,
    name: &Name,
    sort: &Sort,
) -> Result<bool, AllocError>
    ensures { IfOk result (λ b. b ≡ sorts.eq sort.now (sort_of_entities schema.now name.now)) }
{
    let own = entity_sort(alloc, schema, name)?;
    Ok(*sort == own)
}

fn literal_test(
    alloc: Global,
    schema: &Schema,
    lits: &Lits,
    literal: &Literal,
) -> Result<bool, AllocError>
    ensures { IfOk result (λ b. IsTrue b ↔ IsLiteralOf schema.now lits.now literal.now) }
{
    match literal {
        Literal::Bool(_) => Ok(true),
        Literal::Long(n) => Ok(is_long(n)),
        Literal::String(text) => Ok(is_text(text)),
        Literal::Decimal(number) => Ok(is_decimal(number)),
        Literal::Ip(ip) => Ok(is_ip(*ip)),
        Literal::Entity(uid, choices) => entity_test(alloc, schema, lits, uid, choices),
    }
}

fn is_long(n: &i64) -> bool
    ensures { IsTrue result ↔ FitsSigned w64 n.now }
{
    let _n = *n;
    true
}

fn is_decimal(number: &Decimal) -> bool
    ensures { IsTrue result ↔ FitsSigned w64 number.now }
{
    let _n = number.ten_thousandths();
    true
}

/// Whether a prefix is no longer than the address.
fn is_ip(ip: Ip) -> bool
    ensures { IsTrue result ↔ IsIp ip }
{
    match ip {
        Ip::V4 { prefix, .. } => prefix <= 32,
        Ip::V6 { prefix, .. } => prefix <= 128,
    }
}

#[tactic(auto, using(crate::proofs::ChoicesLaws::entity_fails, crate::proofs::ChoicesLaws::entity_holds, crate::proofs::ChoicesLaws::entity_default))]
fn entity_test(
    alloc: Global,
    schema: &Schema,
    lits: &Lits,
    uid: &Uid,
    choices: &Seq<Uid>,
) -> Result<bool, AllocError>
    ensures { IfOk result (λ b. IsTrue b ↔ IsEntityLiteral schema.now lits.now uid.now choices.now) }
{
    let chosen = choices_of(alloc, schema, &uid.type_name)?;
    if !are_same(choices.as_slice(), chosen.as_slice()) {
        return Ok(false);
    }
    if is_written(lits, uid, &chosen) {
        return Ok(true);
    }
    Ok(is_nameless(schema, uid, &chosen))
}

/// Whether two lists are of the same uids, in the same order.
#[tactic(auto, using(sc_world::proofs::TestLaws::one_list))]
fn are_same(a: &[Uid], b: &[Uid]) -> bool
    ensures { IsTrue result ↔ a.now ≡ b.now }
{
    a == b
}

/// Whether policies write an entity, or it is among those that its type lists.
#[tactic(auto, using(crate::proofs::ToldLaws::either_first, crate::proofs::ToldLaws::either_second))]
fn is_written(lits: &Lits, uid: &Uid, chosen: &Seq<Uid>) -> bool
    ensures { IsTrue result ↔ (Contains lits.now uid.now ⊎ Contains chosen.now uid.now) }
{
    if lits.contains(uid) {
        return true;
    }
    is_listed(chosen.as_slice(), uid)
}

fn is_listed(uids: &[Uid], uid: &Uid) -> bool
    ensures { IsTrue result ↔ Contains uids.now uid.now }
{
    is_among(uids, uid)
}

fn is_among(uids: &[Uid], uid: &Uid) -> bool
    ensures { result ≡ list_any (λ (one : AnyUid). is_eq (uid_cmp uid.now one)) uids.now }
{
    uids.iter().any(|one| compare(uid, one).is_eq())
}

/// Whether an entity of a declared type that lists none has the empty id.
#[tactic(auto, using(crate::proofs::ToldLaws::first_fails, crate::proofs::ToldLaws::first_holds))]
fn is_nameless(schema: &Schema, uid: &Uid, chosen: &Seq<Uid>) -> bool
    ensures { IsTrue result ↔
        ((uid.now.id ≡ []) × (chosen.now ≡ []) × IsTrue (is_some (attrs_of schema.now uid.now.type_name))) }
{
    if !is_empty_text(uid) {
        return false;
    }
    is_unlisted(schema, &uid.type_name, chosen.as_slice())
}

#[tactic(auto, using(crate::proofs::ToldLaws::empty_told))]
fn is_empty_text(uid: &Uid) -> bool
    ensures { IsTrue result ↔ uid.now.id ≡ [] }
{
    uid.id.as_str().is_empty()
}

/// Whether a type is declared, and nothing is listed of it.
#[tactic(auto, using(crate::proofs::ToldLaws::first_fails, crate::proofs::ToldLaws::first_with))]
fn is_unlisted(schema: &Schema, name: &Name, chosen: &[Uid]) -> bool
    ensures { IsTrue result ↔ ((chosen.now ≡ []) × IsTrue (is_some (attrs_of schema.now name.now))) }
{
    if !is_empty_list(chosen) {
        return false;
    }
    is_typed(schema, name)
}

#[tactic(auto, using(crate::proofs::ToldLaws::empty_told))]
fn is_empty_list(uids: &[Uid]) -> bool
    ensures { IsTrue result ↔ uids.now ≡ [] }
{
    uids.is_empty()
}

fn is_typed(schema: &Schema, name: &Name) -> bool
    ensures { result ≡ is_some (attrs_of schema.now name.now) }
{
    attrs_of(schema, name).is_some()
}
