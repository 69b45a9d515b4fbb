//! Which sorts are those of a schema's values.
ghost use Rattle.std.specs.Prelude.{◌↔◌, ◌≡◌, All, IsTrue, IfOk};
ghost use Rattle.std.specs.Map.{keys_of};
ghost use Rattle.sc_sorts.specs.Inside.{SortField};
ghost use Rattle.sc_term_laws.specs.LawfulSorts.{AreNames, IsDeclared, IsSortOf, IsHeldSort};
ghost use Rattle.sc_term_laws.specs.Tests.{is_entity_sort as entity_sort_is};

use crate::names::are_names;
use crate::schema_sorts::is_entity_sort;
use crate::sort_tests::is_option;
use sc_lists::{Seq, Text};
use sc_names::Name;
use sc_schema::{Schema, attrs_of};
use sc_sorts::Sort;
use std::alloc::{AllocError, Global};

/// Whether a sort is that of values of a schema: it names declared types, lists the entities
/// that they list, no set and no option holds options, and names of fields ascend.
#[cycle(lawful)]
pub fn is_lawful_sort(alloc: Global, schema: &Schema, sort: &Sort) -> Result<bool, AllocError>
    ensures { IfOk result (λ b. IsTrue b ↔ IsSortOf schema.now sort.now) }
{
    match sort {
        Sort::Bool => Ok(true),
        Sort::Long => Ok(true),
        Sort::String => Ok(true),
        Sort::Decimal => Ok(true),
        Sort::Ip => Ok(true),
        Sort::Entity(name, _) => is_lawful_entity(alloc, schema, name, sort),
        Sort::Set(member) => is_lawful_held(alloc, schema, member.get()),
        Sort::Record(fields) => is_lawful_record(alloc, schema, fields),
        Sort::Option(held) => is_lawful_held(alloc, schema, held.get()),
    }
}

/// Of a sort that a set or an option holds.
#[cycle(lawful)]
#[tactic(auto, using(crate::proofs::LawfulSortLaws::held_fails, crate::proofs::LawfulSortLaws::held_told))]
pub(crate) fn is_lawful_held(
    alloc: Global,
    schema: &Schema,
    sort: &Sort,
) -> Result<bool, AllocError>
    ensures { IfOk result (λ b. IsTrue b ↔ IsHeldSort schema.now sort.now) }
{
    if is_option(sort) {
        return Ok(false);
    }
    let lawful = is_lawful_sort(alloc, schema, sort)?;
    Ok(lawful)
}

#[cycle(lawful)]
#[tactic(auto, using(crate::proofs::ToldLaws::first_fails, crate::proofs::ToldLaws::first_holds))]
fn is_lawful_record(
    alloc: Global,
    schema: &Schema,
    fields: &Seq<(Text, Sort)>,
) -> Result<bool, AllocError>
    ensures { IfOk result (λ b. IsTrue b ↔
        (AreNames (keys_of fields.now) × All (λ (f : SortField). IsSortOf schema.now f.1) fields.now)) }
{
    if !are_names(fields.as_slice()) {
        return Ok(false);
    }
    let lawful = are_lawful_fields(alloc, schema, fields)?;
    Ok(lawful)
}

#[cycle(lawful)]
fn are_lawful_fields(
    alloc: Global,
    schema: &Schema,
    fields: &Seq<(Text, Sort)>,
) -> Result<bool, AllocError>
    ensures { IfOk result (λ b. IsTrue b ↔ All (λ (f : SortField). IsSortOf schema.now f.1) fields.now) }
{
    for field in fields.as_slice() {
        let lawful = is_lawful_sort(alloc, schema, &field.1)?;
        if !lawful {
            return Ok(false);
        }
    }
    Ok(true)
}

/// Of a sort of entities of this type.
#[tactic(auto, using(crate::proofs::ToldLaws::first_fails, crate::proofs::ToldLaws::first_with))]
fn is_lawful_entity(
    alloc: Global,
    schema: &Schema,
    name: &Name,
    sort: &Sort,
) -> Result<bool, AllocError>
    ensures { IfOk result (λ b. IsTrue b ↔
        (IsDeclared schema.now name.now × IsTrue (entity_sort_is schema.now sort.now))) }
{
    if !is_declared(schema, name) {
        return Ok(false);
    }
    let own = is_entity_sort(alloc, schema, sort)?;
    Ok(own)
}

/// Whether a type of entities or of actions is declared.
#[tactic(auto, using(crate::proofs::ChoicesLaws::declared_told))]
pub(crate) fn is_declared(schema: &Schema, name: &Name) -> bool
    ensures { IsTrue result ↔ IsDeclared schema.now name.now }
{
    attrs_of(schema, name).is_some()
}
