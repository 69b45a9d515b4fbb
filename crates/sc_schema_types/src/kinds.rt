//! The entity types of a schema, each with its choices.
ghost use Rattle.std.specs.Prelude.{◌≡◌, ◌++◌, map, find, IfOk, OnOk};
ghost use Rattle.std.specs.Str.{bytes_eq};
ghost use Rattle.std.specs.Option.{option_copied};
ghost use Rattle.sc_schema.specs.declared.ty.EntityKind.{EntityKind as AnyKind};
ghost use Rattle.sc_schema_types.specs.Expansions.{kind_of_type, kinds_of, choices_among, kind_among};

use sc_lists::{Seq, Shared};
use sc_names::Name;
use sc_schema::{Choices, EntityKind, ResolvedEntityType, ResolvedSchema};
use std::alloc::{AllocError, Global};

/// The entity types of a schema, each with its choices, in the order of their declarations.
pub(crate) fn kinds_of(
    alloc: Global,
    schema: &ResolvedSchema,
) -> Result<Seq<EntityKind>, AllocError>
    ensures { IfOk result (λ kinds. kinds ≡ kinds_of schema.now) }
{
    let mut kinds = Seq::new(alloc);
    for namespace in schema.namespaces.as_slice() {
        put_kinds(alloc, &mut kinds, namespace.entity_types.as_slice())?;
    }
    Ok(kinds)
}

/// Puts entity types at the end. Where memory runs out, some of them may be put.
fn put_kinds(
    alloc: Global,
    kinds: &mut Seq<EntityKind>,
    types: &[ResolvedEntityType],
) -> Result<(), AllocError>
    ensures { OnOk result (kinds.new ≡ kinds.old ++ map kind_of_type types.now) }
{
    for declared in types {
        kinds.push(EntityKind {
            name: declared.name.try_clone(alloc)?,
            choices: declared.choices.try_clone()?,
        })?;
    }
    Ok(())
}

/// The entity type of a name among these, which has its choices.
pub(crate) fn kind_among(
    alloc: Global,
    kinds: &[EntityKind],
    name: &Name,
) -> Result<EntityKind, AllocError>
    ensures { IfOk result (λ kind. kind ≡ kind_among kinds.now name.now) }
{
    Ok(EntityKind {
        name: name.try_clone(alloc)?,
        choices: choices_among(alloc, kinds, name)?,
    })
}

/// The choices of the first of these that has the name, and none where no type has it.
fn choices_among(alloc: Global, kinds: &[EntityKind], name: &Name) -> Result<Choices, AllocError>
    ensures { IfOk result (λ ids. ids ≡ choices_among kinds.now name.now) }
{
    match first_of(kinds, name) {
        Some(kind) => kind.choices.try_clone(),
        None => Shared::new(alloc, Seq::new(alloc)),
    }
}

/// The first of these that has the name.
fn first_of<'k>(kinds: &'k [EntityKind], name: &Name) -> Option<&'k EntityKind>
    ensures { option_copied result ≡ find (λ (k : AnyKind). bytes_eq name.now k.name) kinds.now }
{
    kinds
        .iter()
        .find(|kind| name.as_str() == kind.name.as_str())
}
