//! Finds the first fault of the types of a schema.
ghost use Rattle.std.specs.Prelude.{◌≡◌, Some, IfOk};
ghost use Rattle.std.specs.Option.{option_copied};
ghost use Rattle.sc_schema_types.specs.Faults.{inside, first, optional_fault, action_fault, common_type_fault, entity_type_fault, namespace_fault, first_fault};
ghost use Rattle.sc_schema_types.specs.Tables.{outline_in, judged_by};

use crate::outline::{Outline, outline_fault, outline_of};
use crate::wanted::Wanted;
use sc_names::Name;
use sc_schema::{
    ResolvedAction, ResolvedCommonType, ResolvedEntityType, ResolvedNamespace, ResolvedSchema,
    ResolvedType,
};
use sc_schema_syntax::{SchemaFault, under};
use std::alloc::{AllocError, Global};
use std::collections::BTreeMap;

/// The first fault of the types of a schema, where common types have the outlines of a table. The
/// walk takes the members of an object in the order of their bytes.
pub(crate) fn first_fault(
    alloc: Global,
    table: &BTreeMap<Name, Outline>,
    schema: &ResolvedSchema,
) -> Result<Option<SchemaFault>, AllocError>
    ensures { IfOk result (λ fault. fault ≡ first_fault (judged_by (outline_in table.now.entries)) schema.now) }
{
    for namespace in schema.namespaces.as_slice() {
        if let Some(fault) = namespace_fault(alloc, table, namespace)? {
            return Ok(Some(fault));
        }
    }
    Ok(None)
}

/// The first fault of a namespace.
fn namespace_fault(
    alloc: Global,
    table: &BTreeMap<Name, Outline>,
    namespace: &ResolvedNamespace,
) -> Result<Option<SchemaFault>, AllocError>
    ensures { IfOk result (λ fault. fault ≡ namespace_fault (judged_by (outline_in table.now.entries)) namespace.now) }
{
    let name = namespace.name.as_str();
    if let Some(fault) = actions_fault(alloc, table, namespace.actions.as_slice())? {
        return inside(alloc, name, "actions", fault);
    }
    if let Some(fault) = common_types_fault(alloc, table, namespace.common_types.as_slice())? {
        return inside(alloc, name, "commonTypes", fault);
    }
    if let Some(fault) = entity_types_fault(alloc, table, namespace.entity_types.as_slice())? {
        return inside(alloc, name, "entityTypes", fault);
    }
    Ok(None)
}

/// A fault at a member of a member.
fn inside(
    alloc: Global,
    outer: &str,
    inner: &str,
    fault: SchemaFault,
) -> Result<Option<SchemaFault>, AllocError>
    ensures { IfOk result (λ seen. seen ≡ inside outer.now (inside inner.now (Some fault))) }
{
    let fault = under(alloc, inner, fault)?;
    Ok(Some(under(alloc, outer, fault)?))
}

/// The first fault of actions.
fn actions_fault(
    alloc: Global,
    table: &BTreeMap<Name, Outline>,
    actions: &[ResolvedAction],
) -> Result<Option<SchemaFault>, AllocError>
    ensures { IfOk result (λ fault. fault ≡ first (action_fault (judged_by (outline_in table.now.entries)))
        actions.now) }
{
    for action in actions {
        if let Some(fault) = action_fault(alloc, table, action)? {
            return Ok(Some(fault));
        }
    }
    Ok(None)
}

/// The first fault of an action.
fn action_fault(
    alloc: Global,
    table: &BTreeMap<Name, Outline>,
    action: &ResolvedAction,
) -> Result<Option<SchemaFault>, AllocError>
    ensures { IfOk result (λ fault. fault ≡ action_fault (judged_by (outline_in table.now.entries)) action.now) }
{
    match optional_fault(alloc, table, Wanted::RecordType, action.context.as_ref())? {
        Some(fault) => {
            let fault = under(alloc, "context", fault)?;
            inside(alloc, action.uid.id.as_str(), "appliesTo", fault)
        }
        None => Ok(None),
    }
}

/// The first fault of common types.
fn common_types_fault(
    alloc: Global,
    table: &BTreeMap<Name, Outline>,
    types: &[ResolvedCommonType],
) -> Result<Option<SchemaFault>, AllocError>
    ensures { IfOk result (λ fault. fault
        ≡ first (common_type_fault (judged_by (outline_in table.now.entries))) types.now) }
{
    for declared in types {
        if let Some(fault) = common_type_fault(alloc, table, declared)? {
            return Ok(Some(fault));
        }
    }
    Ok(None)
}

/// The first fault of a common type.
fn common_type_fault(
    alloc: Global,
    table: &BTreeMap<Name, Outline>,
    declared: &ResolvedCommonType,
) -> Result<Option<SchemaFault>, AllocError>
    ensures { IfOk result (λ fault. fault ≡ common_type_fault (judged_by (outline_in table.now.entries)) declared.now) }
{
    match outline_fault(alloc, Wanted::AnyType, outline_of(table, &declared.body))? {
        Some(fault) => Ok(Some(under(alloc, declared.key.as_str(), fault)?)),
        None => Ok(None),
    }
}

/// The first fault of entity types.
fn entity_types_fault(
    alloc: Global,
    table: &BTreeMap<Name, Outline>,
    types: &[ResolvedEntityType],
) -> Result<Option<SchemaFault>, AllocError>
    ensures { IfOk result (λ fault. fault
        ≡ first (entity_type_fault (judged_by (outline_in table.now.entries))) types.now) }
{
    for declared in types {
        if let Some(fault) = entity_type_fault(alloc, table, declared)? {
            return Ok(Some(fault));
        }
    }
    Ok(None)
}

/// The first fault of an entity type.
fn entity_type_fault(
    alloc: Global,
    table: &BTreeMap<Name, Outline>,
    declared: &ResolvedEntityType,
) -> Result<Option<SchemaFault>, AllocError>
    ensures { IfOk result (λ fault. fault ≡ entity_type_fault (judged_by (outline_in table.now.entries)) declared.now) }
{
    let key = declared.key.as_str();
    if let Some(fault) = optional_fault(
        alloc,
        table,
        Wanted::RecordType,
        declared.shape.as_ref(),
    )? {
        return inside(alloc, key, "shape", fault);
    }
    if let Some(fault) = optional_fault(alloc, table, Wanted::AnyType, declared.tags.as_ref())? {
        return inside(alloc, key, "tags", fault);
    }
    Ok(None)
}

/// The fault of a type that may be absent, at its own place.
fn optional_fault(
    alloc: Global,
    table: &BTreeMap<Name, Outline>,
    wanted: Wanted,
    resolved: Option<&ResolvedType>,
) -> Result<Option<SchemaFault>, AllocError>
    ensures { IfOk result (λ fault. fault
        ≡ optional_fault (judged_by (outline_in table.now.entries)) wanted (option_copied resolved.entry)) }
{
    match resolved {
        Some(resolved) => outline_fault(alloc, wanted, outline_of(table, resolved)),
        None => Ok(None),
    }
}
