//! The bodies of common types, by their names.
ghost use Rattle.std.specs.Prelude.{◌≡◌, ◌∷◌, [], ℕ, List, IfOk, OnOk};
ghost use Rattle.std.specs.Option.{option_or};
ghost use Rattle.std.specs.List.Sorted.{IsStrictlySortedBy};
ghost use Rattle.std.specs.Map.{keys_of};
ghost use Rattle.sc_names.specs.Uids.{text_cmp};
ghost use Rattle.sc_schema_types.specs.References.{body_among, body_of, references};
ghost use Rattle.sc_schema_types.specs.Tables.{body_in};

use crate::names::names_in;
use sc_lists::Seq;
use sc_names::Name;
use sc_schema::{ResolvedCommonType, ResolvedSchema, ResolvedType};
use std::alloc::{AllocError, Global};
use std::collections::BTreeMap;

/// The bodies of the common types that a schema declares, by their names.
pub(crate) fn bodies_of<'s>(
    alloc: Global,
    schema: &'s ResolvedSchema,
) -> Result<BTreeMap<Name, &'s ResolvedType>, AllocError>
    ensures { IfOk result (λ bodies. (name : List ℕ) → body_in bodies.entries name ≡ body_of schema.now name) }
{
    let mut bodies = BTreeMap::new(alloc);
    for namespace in schema.namespaces.as_slice() {
        put_all(alloc, &mut bodies, namespace.common_types.as_slice())?;
    }
    Ok(bodies)
}

/// Puts the bodies of common types into a table, but for those whose names are there.
fn put_all<'s>(
    alloc: Global,
    bodies: &mut BTreeMap<Name, &'s ResolvedType>,
    types: &'s [ResolvedCommonType],
) -> Result<(), AllocError>
    ensures { OnOk result ((name : List ℕ) →
        body_in bodies.new.entries name ≡ option_or (body_in bodies.old.entries name) (body_among types.now name)) }
{
    for declared in types {
        put(alloc, bodies, declared)?;
    }
    Ok(())
}

/// Puts the body of a common type into a table, unless its name is there.
fn put<'s>(
    alloc: Global,
    bodies: &mut BTreeMap<Name, &'s ResolvedType>,
    declared: &'s ResolvedCommonType,
) -> Result<(), AllocError>
    ensures { OnOk result ((name : List ℕ) →
        body_in bodies.new.entries name ≡ option_or (body_in bodies.old.entries name)
        (body_among (declared.now ∷ []) name)) }
{
    if bodies.contains_key(&declared.name) {
        return Ok(());
    }
    bodies.insert(declared.name.try_clone(alloc)?, &declared.body)?;
    Ok(())
}

/// The names of common types, ascending.
pub(crate) fn names_of(
    alloc: Global,
    bodies: &BTreeMap<Name, &ResolvedType>,
) -> Result<Seq<Name>, AllocError>
    ensures value { IfOk result (λ names. names ≡ keys_of bodies.now.entries) }
    ensures ascending { IfOk result (λ names. IsStrictlySortedBy text_cmp names) }
{
    let mut names = Seq::new(alloc);
    for (name, _) in bodies.iter() {
        names.push(name.try_clone(alloc)?)?;
    }
    Ok(names)
}

/// The common types that the body of one names, in order.
pub(crate) fn references(
    alloc: Global,
    bodies: &BTreeMap<Name, &ResolvedType>,
    name: &Name,
) -> Result<Seq<Name>, AllocError>
    ensures { IfOk result (λ names. names ≡ references (body_in bodies.now.entries) name.now) }
{
    match bodies.get(name) {
        Some(body) => names_in(alloc, body),
        None => Ok(Seq::new(alloc)),
    }
}
