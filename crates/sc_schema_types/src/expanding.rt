//! Schemas, each common type in them written out.
ghost use Rattle.std.specs.Prelude.{◌≡◌, ◌++◌, ℕ, List, map, option_map, IfOk, IfErr, OnOk};
ghost use Rattle.std.specs.Option.{option_copied};
ghost use Rattle.sc_schema_types.specs.Expansions.{kinds_of, expanded};
ghost use Rattle.sc_schema_types.specs.Orders.{IsOrder};
ghost use Rattle.sc_schema_types.specs.References.{body_of};
ghost use Rattle.sc_schema_types.specs.Tables.{body_in, outline_in, outlines_by, type_in};
ghost use Rattle.sc_schema_types.specs.Types.{record_type, expanded_action, expanded_entity_type, expanded_by, IsExpansion, Refuses};

use crate::bodies::bodies_of;
use crate::copying::copy_names;
use crate::expansion::{expanded, meaning_of};
use crate::faults::first_fault;
use crate::kinds::kinds_of;
use crate::outline::{Outline, outlines_of};
use sc_lists::{Boxed, Fault, Seq};
use sc_names::{Name, clone_uids};
use sc_schema::{
    Attributes, EntityKind, ExpandedAction, ExpandedEntityType, ExpandedSchema, ResolvedAction,
    ResolvedEntityType, ResolvedSchema, ResolvedType, Ty,
};
use sc_schema_syntax::SchemaFault;
use std::alloc::{AllocError, Global};
use std::collections::BTreeMap;

/// What a schema declares, each common type written out, by the order of its common types that
/// `order_types` gives.
///
/// # Errors
///
/// The first fault in a walk that takes the members of an object in the order of their bytes:
/// `NotRecord` for a context or a shape that stands for no record type, and `TypeTooLarge` for a
/// common type, context, shape or type of tags that stands for one of more than 32 levels or 4,096
/// nodes. `NoMemory` comes for want of memory.
pub fn expand(
    alloc: Global,
    schema: &ResolvedSchema,
    order: &[Name],
) -> Result<ExpandedSchema, Fault<SchemaFault>>
    requires { IsOrder schema.now order.now }
    ensures ok { IfOk result (λ all. IsExpansion schema.now all) }
    ensures err { IfErr result (λ fault. Refuses schema.now fault) }
{
    let bodies = bodies_of(alloc, schema)?;
    let outlines = outlines_of(alloc, &bodies, order)?;
    let kinds = kinds_of(alloc, schema)?;
    expand_by(alloc, kinds.as_slice(), &bodies, &outlines, order, schema)
}

/// The same, of the entity types, the bodies of common types and the outlines of what they stand for.
fn expand_by(
    alloc: Global,
    kinds: &[EntityKind],
    bodies: &BTreeMap<Name, &ResolvedType>,
    outlines: &BTreeMap<Name, Outline>,
    order: &[Name],
    schema: &ResolvedSchema,
) -> Result<ExpandedSchema, Fault<SchemaFault>>
    requires order { IsOrder schema.now order.now }
    requires bodies { (name : List ℕ) → body_in bodies.now.entries name ≡ body_of schema.now name }
    requires kinds { kinds.now ≡ kinds_of schema.now }
    requires outlines { outline_in outlines.now.entries ≡ outlines_by (body_in bodies.now.entries) order.now }
    ensures ok { IfOk result (λ all. IsExpansion schema.now all) }
    ensures err { IfErr result (λ fault. Refuses schema.now fault) }
{
    match first_fault(alloc, outlines, schema)? {
        Some(fault) => Err(Fault::Told(fault)),
        None => {
            let table = meaning_of(alloc, kinds, bodies, order)?;
            Ok(expanded_by(alloc, kinds, &table, schema)?)
        }
    }
}

/// What a schema declares, each common type being looked up in a table, each entity type among these.
fn expanded_by(
    alloc: Global,
    kinds: &[EntityKind],
    table: &BTreeMap<Name, Ty>,
    schema: &ResolvedSchema,
) -> Result<ExpandedSchema, AllocError>
    ensures { IfOk result (λ all. all ≡ expanded_by kinds.now (type_in table.now.entries) schema.now) }
{
    let mut entity_types = Seq::new(alloc);
    let mut actions = Seq::new(alloc);
    for namespace in schema.namespaces.as_slice() {
        put_entity_types(
            alloc,
            kinds,
            table,
            &mut entity_types,
            namespace.entity_types.as_slice(),
        )?;
        put_actions(
            alloc,
            kinds,
            table,
            &mut actions,
            namespace.actions.as_slice(),
        )?;
    }
    Ok(ExpandedSchema {
        entity_types,
        actions,
    })
}

fn put_entity_types(
    alloc: Global,
    kinds: &[EntityKind],
    table: &BTreeMap<Name, Ty>,
    all: &mut Seq<ExpandedEntityType>,
    types: &[ResolvedEntityType],
) -> Result<(), AllocError>
    ensures { OnOk result (all.new
        ≡ all.old ++ map (expanded_entity_type kinds.now (type_in table.now.entries)) types.now) }
{
    for declared in types {
        all.push(expanded_entity_type(alloc, kinds, table, declared)?)?;
    }
    Ok(())
}

/// An entity type, each common type being looked up in a table.
fn expanded_entity_type(
    alloc: Global,
    kinds: &[EntityKind],
    table: &BTreeMap<Name, Ty>,
    declared: &ResolvedEntityType,
) -> Result<ExpandedEntityType, AllocError>
    ensures { IfOk result (λ x. x ≡ expanded_entity_type kinds.now (type_in table.now.entries) declared.now) }
{
    let shape = record_type(alloc, kinds, table, declared.shape.as_ref())?;
    let shape = Boxed::new(alloc, shape)?;
    Ok(ExpandedEntityType {
        parents: copy_names(alloc, &declared.parents)?,
        name: declared.name.try_clone(alloc)?,
        tags: tag_type(alloc, kinds, table, declared.tags.as_ref())?,
        choices: declared.choices.try_clone()?,
        shape: shape.into_inner(),
    })
}

fn put_actions(
    alloc: Global,
    kinds: &[EntityKind],
    table: &BTreeMap<Name, Ty>,
    all: &mut Seq<ExpandedAction>,
    actions: &[ResolvedAction],
) -> Result<(), AllocError>
    ensures { OnOk result (all.new
        ≡ all.old ++ map (expanded_action kinds.now (type_in table.now.entries)) actions.now) }
{
    for action in actions {
        all.push(expanded_action(alloc, kinds, table, action)?)?;
    }
    Ok(())
}

/// An action, each common type being looked up in a table.
fn expanded_action(
    alloc: Global,
    kinds: &[EntityKind],
    table: &BTreeMap<Name, Ty>,
    action: &ResolvedAction,
) -> Result<ExpandedAction, AllocError>
    ensures { IfOk result (λ x. x ≡ expanded_action kinds.now (type_in table.now.entries) action.now) }
{
    Ok(ExpandedAction {
        parents: clone_uids(alloc, &action.parents)?,
        principals: copy_names(alloc, &action.principals)?,
        resources: copy_names(alloc, &action.resources)?,
        uid: action.uid.try_clone(alloc)?,
        context: record_type(alloc, kinds, table, action.context.as_ref())?,
    })
}

/// The type of attributes, and that of records without attributes where none is written.
fn record_type(
    alloc: Global,
    kinds: &[EntityKind],
    table: &BTreeMap<Name, Ty>,
    resolved: Option<&ResolvedType>,
) -> Result<Ty, AllocError>
    ensures { IfOk result (λ ty. ty
        ≡ record_type kinds.now (type_in table.now.entries) (option_copied resolved.entry)) }
{
    match resolved {
        Some(resolved) => expanded(alloc, kinds, table, resolved),
        None => Ok(Ty::Record(Attributes::new(alloc, Seq::new(alloc))?)),
    }
}

/// The type of tags, if one is written.
fn tag_type(
    alloc: Global,
    kinds: &[EntityKind],
    table: &BTreeMap<Name, Ty>,
    resolved: Option<&ResolvedType>,
) -> Result<Option<Ty>, AllocError>
    ensures { IfOk result (λ ty. ty ≡ option_map (expanded kinds.now (type_in table.now.entries))
        (option_copied resolved.entry)) }
{
    match resolved {
        Some(resolved) => Ok(Some(expanded(alloc, kinds, table, resolved)?)),
        None => Ok(None),
    }
}
