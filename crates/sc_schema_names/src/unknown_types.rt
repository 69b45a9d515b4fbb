//! Finds the first name in a type that nothing declared has.
ghost use Rattle.std.specs.Prelude.{◌≡◌, [], ℕ, List, codes, IfOk};
ghost use Rattle.sc_schema_syntax.specs.declared.attribute.WrittenPresence.{WrittenPresence as AnyPresence};
ghost use Rattle.sc_schema_syntax.specs.declared.fault.SchemaFault.TheVariants.{UnknownType};
ghost use Rattle.sc_schema_syntax.specs.declared.written_type.WrittenType.{WrittenType as AnyType};
ghost use Rattle.sc_schema_names.specs.Names.{common_type_named};
ghost use Rattle.sc_schema_names.specs.Resolution.{type_named};
ghost use Rattle.sc_schema_names.specs.Tables.{known};
ghost use Rattle.sc_schema_names.specs.Unknown.{inside, first_member, no_type, entity_type_fault, type_fault};

use crate::declared::Declared;
use crate::lookup::{common_type_named, entity_type_named, type_named};
use sc_lists::Text;
use sc_schema_syntax::{SchemaFault, WrittenAttributes, WrittenType, under};
use std::alloc::{AllocError, Global};

/// The first fault of a type in a namespace.
#[cycle(unknown)]
#[tactic(auto, unfolding(crate::specs::Unknown::type_fault))]
pub(crate) fn type_fault(
    alloc: Global,
    declared: &Declared,
    namespace: &str,
    written: &WrittenType,
) -> Result<Option<SchemaFault>, AllocError>
    ensures { IfOk result (λ fault. fault ≡ type_fault (known declared.now) namespace.now written.now) }
{
    match written {
        WrittenType::Boolean
        | WrittenType::Long
        | WrittenType::String
        | WrittenType::Extension(_) => Ok(None),
        WrittenType::Set(element) => element_fault(alloc, declared, namespace, element.get()),
        WrittenType::Record(attributes) => record_fault(alloc, declared, namespace, attributes),
        WrittenType::Entity(name) => entity_fault(alloc, declared, namespace, name),
        WrittenType::EntityOrCommon(name) => any_fault(alloc, declared, namespace, name),
        WrittenType::Common(name) => common_fault(alloc, declared, namespace, name),
    }
}

/// The first fault of the members' type of a set type.
#[cycle(unknown)]
fn element_fault(
    alloc: Global,
    declared: &Declared,
    namespace: &str,
    element: &WrittenType,
) -> Result<Option<SchemaFault>, AllocError>
    ensures { IfOk result (λ fault. fault
        ≡ inside (codes "element") (type_fault (known declared.now) namespace.now element.now)) }
{
    let fault = type_fault(alloc, declared, namespace, element)?;
    inside(alloc, "element", fault)
}

/// The first fault of the attributes of a record type.
#[cycle(unknown)]
fn record_fault(
    alloc: Global,
    declared: &Declared,
    namespace: &str,
    attributes: &WrittenAttributes,
) -> Result<Option<SchemaFault>, AllocError>
    ensures { IfOk result (λ fault. fault ≡ inside (codes "attributes")
        (first_member (λ (a : List ℕ × AnyPresence × AnyType). a.0)
        (λ a. type_fault (known declared.now) namespace.now a.2) attributes.now)) }
{
    let fault = attributes_fault(alloc, declared, namespace, attributes)?;
    inside(alloc, "attributes", fault)
}

/// The first fault of attributes, each at its name.
#[cycle(unknown)]
fn attributes_fault(
    alloc: Global,
    declared: &Declared,
    namespace: &str,
    attributes: &WrittenAttributes,
) -> Result<Option<SchemaFault>, AllocError>
    ensures { IfOk result (λ fault. fault ≡
        first_member (λ (a : List ℕ × AnyPresence × AnyType). a.0)
        (λ a. type_fault (known declared.now) namespace.now a.2) attributes.now) }
{
    for attribute in attributes.as_slice() {
        if let Some(fault) = type_fault(alloc, declared, namespace, &attribute.2)? {
            return Ok(Some(under(alloc, attribute.0.as_str(), fault)?));
        }
    }
    Ok(None)
}

/// The fault of the name of an entity type, if nothing has it.
fn entity_fault(
    alloc: Global,
    declared: &Declared,
    namespace: &str,
    name: &Text,
) -> Result<Option<SchemaFault>, AllocError>
    ensures { IfOk result (λ fault. fault
        ≡ inside (codes "name") (entity_type_fault (known declared.now) namespace.now name.now)) }
{
    let fault = entity_type_fault(alloc, declared, namespace, name.as_str())?;
    inside(alloc, "name", fault)
}

/// The fault of a text that may name an entity type, if no entity type has the name.
pub(crate) fn entity_type_fault(
    alloc: Global,
    declared: &Declared,
    namespace: &str,
    text: &str,
) -> Result<Option<SchemaFault>, AllocError>
    ensures { IfOk result (λ fault. fault ≡ entity_type_fault (known declared.now) namespace.now text.now) }
{
    match entity_type_named(alloc, declared, namespace, text)? {
        Some(_) => Ok(None),
        None => Ok(Some(unknown_type(alloc)?)),
    }
}

/// The fault of the name of any type, if no type has it.
fn any_fault(
    alloc: Global,
    declared: &Declared,
    namespace: &str,
    name: &Text,
) -> Result<Option<SchemaFault>, AllocError>
    ensures { IfOk result (λ fault. fault
        ≡ inside (codes "name") (no_type (type_named (known declared.now) namespace.now name.now))) }
{
    match type_named(alloc, declared, namespace, name.as_str())? {
        Some(_) => Ok(None),
        None => inside(alloc, "name", Some(unknown_type(alloc)?)),
    }
}

/// The fault of the name of a common type, if no common type has it.
fn common_fault(
    alloc: Global,
    declared: &Declared,
    namespace: &str,
    name: &Text,
) -> Result<Option<SchemaFault>, AllocError>
    ensures { IfOk result (λ fault. fault
        ≡ inside (codes "type") (no_type (common_type_named (known declared.now) namespace.now name.now))) }
{
    match common_type_named(alloc, declared, namespace, name.as_str())? {
        Some(_) => Ok(None),
        None => inside(alloc, "type", Some(unknown_type(alloc)?)),
    }
}

/// A fault of what stands at a member, as one of the value whose member it is.
pub(crate) fn inside(
    alloc: Global,
    key: &str,
    fault: Option<SchemaFault>,
) -> Result<Option<SchemaFault>, AllocError>
    ensures { IfOk result (λ seen. seen ≡ inside key.now fault) }
{
    match fault {
        Some(fault) => Ok(Some(under(alloc, key, fault)?)),
        None => Ok(None),
    }
}

/// The fault that a text names no type.
fn unknown_type(alloc: Global) -> Result<SchemaFault, AllocError>
    ensures { IfOk result (λ fault. fault ≡ UnknownType []) }
{
    Ok(SchemaFault::UnknownType(Text::from_str(alloc, "")?))
}
