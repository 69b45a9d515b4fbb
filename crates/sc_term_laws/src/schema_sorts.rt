//! Sorts of a schema's entities, and what is told of their types.
ghost use Rattle.std.specs.Prelude.{◌≡◌, IfOk};
ghost use Rattle.std.specs.List.{list_any};
ghost use Rattle.std.specs.Option.{option_copied};
ghost use Rattle.std.specs.Str.{bytes_eq};
ghost use Rattle.sc_term_laws.specs.Tests as tests;

use crate::sort_tests::is_string;
use sc_names::Name;
use sc_schema::{Schema, Ty, ancestor_types, attrs_of, tags_of};
use sc_sorts::{Sort, entity_sort, sort_of};
use std::alloc::{AllocError, Global};

/// Whether a sort is that of a type's entities.
pub(crate) fn is_entity_sort(
    alloc: Global,
    schema: &Schema,
    sort: &Sort,
) -> Result<bool, AllocError>
    ensures { IfOk result (λ b. b ≡ tests.is_entity_sort schema.now sort.now) }
{
    match sort {
        Sort::Entity(name, _) => {
            let own = entity_sort(alloc, schema, name)?;
            Ok(*sort == own)
        }
        _ => Ok(false),
    }
}

/// Whether a sort is that of a type, where there is one.
pub(crate) fn is_sort_of(alloc: Global, ty: Option<&Ty>, sort: &Sort) -> Result<bool, AllocError>
    ensures { IfOk result (λ b. b ≡ tests.is_sort_of (option_copied ty.entry) sort.now) }
{
    match ty {
        Some(ty) => {
            let own = sort_of(alloc, ty)?;
            Ok(*sort == own)
        }
        None => Ok(false),
    }
}

pub(crate) fn attributes_test(
    alloc: Global,
    schema: &Schema,
    own: &Sort,
    sort: &Sort,
) -> Result<bool, AllocError>
    ensures { IfOk result (λ b. b ≡ tests.attributes_test schema.now own.now sort.now) }
{
    if !is_entity_sort(alloc, schema, sort)? {
        return Ok(false);
    }
    match sort {
        Sort::Entity(name, _) => is_sort_of(alloc, attrs_of(schema, name), own),
        _ => Ok(false),
    }
}

pub(crate) fn ancestors_test(
    alloc: Global,
    schema: &Schema,
    own: &Sort,
    sort: &Sort,
) -> Result<bool, AllocError>
    ensures { IfOk result (λ b. b ≡ tests.ancestors_test schema.now own.now sort.now) }
{
    if !is_entity_sort(alloc, schema, sort)? {
        return Ok(false);
    }
    if !is_entity_sort(alloc, schema, own)? {
        return Ok(false);
    }
    match (sort, own) {
        (Sort::Entity(name, _), Sort::Entity(above, _)) => Ok(is_above(schema, name, above)),
        _ => Ok(false),
    }
}

/// Whether entities of a type may have ancestors of another.
fn is_above(schema: &Schema, name: &Name, above: &Name) -> bool
    ensures { result ≡ tests.is_above schema.now name.now above.now }
{
    match ancestor_types(schema, name) {
        Some(names) => is_among(names, above),
        None => false,
    }
}

fn is_among(names: &[Name], name: &Name) -> bool
    ensures { result ≡ list_any (bytes_eq name.now) names.now }
{
    names.iter().any(|one| name.as_str() == one.as_str())
}

pub(crate) fn keys_test(alloc: Global, schema: &Schema, sort: &Sort) -> Result<bool, AllocError>
    ensures { IfOk result (λ b. b ≡ tests.keys_test schema.now sort.now) }
{
    if !is_entity_sort(alloc, schema, sort)? {
        return Ok(false);
    }
    match sort {
        Sort::Entity(name, _) => Ok(tags_of(schema, name).is_some()),
        _ => Ok(false),
    }
}

/// Of an entity of a sort, and a key of another.
pub(crate) fn tag_test(
    alloc: Global,
    schema: &Schema,
    own: &Sort,
    sort: &Sort,
    key: &Sort,
) -> Result<bool, AllocError>
    ensures { IfOk result (λ b. b ≡ tests.tag_test schema.now own.now sort.now key.now) }
{
    if !is_entity_sort(alloc, schema, sort)? {
        return Ok(false);
    }
    if !is_string(key) {
        return Ok(false);
    }
    match sort {
        Sort::Entity(name, _) => is_sort_of(alloc, tags_of(schema, name), own),
        _ => Ok(false),
    }
}
