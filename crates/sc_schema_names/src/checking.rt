//! Finds the first name in a schema file that nothing declared has.
ghost use Rattle.std.specs.Prelude.{◌≡◌, IfOk};
ghost use Rattle.sc_schema_names.specs.Tables.{known};
ghost use Rattle.sc_schema_names.specs.Unknown.{inside, any_type_fault, applies_to_fault, action_fault, common_type_fault, declared_entity_type_fault, namespace_fault, schema_fault};

use crate::declared::Declared;
use crate::items::items_fault;
use crate::members::{Declaration, members_fault};
use crate::unknown_types::{inside, type_fault};
use sc_schema_syntax::{
    SchemaFault, WrittenAction, WrittenCommonType, WrittenEntityType, WrittenNamespace,
    WrittenSchema, WrittenType, under,
};
use std::alloc::{AllocError, Global};

/// The first fault of a schema file. The walk takes the members of an object in the order of their
/// bytes.
pub(crate) fn schema_fault(
    alloc: Global,
    declared: &Declared,
    written: &WrittenSchema,
) -> Result<Option<SchemaFault>, AllocError>
    ensures { IfOk result (λ fault. fault ≡ schema_fault (known declared.now) written.now) }
{
    for namespace in written.namespaces.as_slice() {
        if let Some(fault) = namespace_fault(alloc, declared, namespace)? {
            return Ok(Some(under(alloc, namespace.name.as_str(), fault)?));
        }
    }
    Ok(None)
}

/// The first fault of what a namespace declares.
fn namespace_fault(
    alloc: Global,
    declared: &Declared,
    namespace: &WrittenNamespace,
) -> Result<Option<SchemaFault>, AllocError>
    ensures { IfOk result (λ fault. fault ≡ namespace_fault (known declared.now) namespace.now) }
{
    let name = namespace.name.as_str();
    if let Some(fault) = members_fault(alloc, declared, name, "actions", &namespace.actions)? {
        return Ok(Some(fault));
    }
    if let Some(fault) = members_fault(
        alloc,
        declared,
        name,
        "commonTypes",
        &namespace.common_types,
    )? {
        return Ok(Some(fault));
    }
    members_fault(
        alloc,
        declared,
        name,
        "entityTypes",
        &namespace.entity_types,
    )
}

impl Declaration for WrittenAction {
    ghost key_of = { λ a. a.id };

    ghost fault_of = { action_fault };

    fn key(&self) -> &str {
        self.id.as_str()
    }

    fn first_fault(
        &self,
        alloc: Global,
        declared: &Declared,
        namespace: &str,
    ) -> Result<Option<SchemaFault>, AllocError> {
        let fault = applies_to_fault(alloc, declared, namespace, self)?;
        if let Some(fault) = inside(alloc, "appliesTo", fault)? {
            return Ok(Some(fault));
        }
        items_fault(alloc, declared, namespace, "memberOf", &self.parents)
    }
}

impl Declaration for WrittenCommonType {
    ghost key_of = { λ c. c.name };

    ghost fault_of = { common_type_fault };

    fn key(&self) -> &str {
        self.name.as_str()
    }

    fn first_fault(
        &self,
        alloc: Global,
        declared: &Declared,
        namespace: &str,
    ) -> Result<Option<SchemaFault>, AllocError> {
        type_fault(alloc, declared, namespace, &self.body)
    }
}

impl Declaration for WrittenEntityType {
    ghost key_of = { λ e. e.name };

    ghost fault_of = { declared_entity_type_fault };

    fn key(&self) -> &str {
        self.name.as_str()
    }

    fn first_fault(
        &self,
        alloc: Global,
        declared: &Declared,
        namespace: &str,
    ) -> Result<Option<SchemaFault>, AllocError> {
        if let Some(fault) = items_fault(
            alloc,
            declared,
            namespace,
            "memberOfTypes",
            &self.parents,
        )? {
            return Ok(Some(fault));
        }
        if let Some(fault) = any_type_fault(alloc, declared, namespace, "shape", &self.shape)? {
            return Ok(Some(fault));
        }
        any_type_fault(alloc, declared, namespace, "tags", &self.tags)
    }
}

/// The first fault of what an action says of the requests that it is for.
fn applies_to_fault(
    alloc: Global,
    declared: &Declared,
    namespace: &str,
    action: &WrittenAction,
) -> Result<Option<SchemaFault>, AllocError>
    ensures { IfOk result (λ fault. fault ≡ applies_to_fault (known declared.now) namespace.now action.now) }
{
    if let Some(fault) = any_type_fault(alloc, declared, namespace, "context", &action.context)? {
        return Ok(Some(fault));
    }
    if let Some(fault) = items_fault(
        alloc,
        declared,
        namespace,
        "principalTypes",
        &action.principals,
    )? {
        return Ok(Some(fault));
    }
    items_fault(
        alloc,
        declared,
        namespace,
        "resourceTypes",
        &action.resources,
    )
}

/// The first fault of the type at this member, if there is a type.
fn any_type_fault(
    alloc: Global,
    declared: &Declared,
    namespace: &str,
    key: &str,
    written: &Option<WrittenType>,
) -> Result<Option<SchemaFault>, AllocError>
    ensures { IfOk result (λ fault. fault
        ≡ inside key.now (any_type_fault (known declared.now) namespace.now written.now)) }
{
    match written {
        Some(written) => inside(alloc, key, type_fault(alloc, declared, namespace, written)?),
        None => Ok(None),
    }
}
