//! Types with the names in them looked up.
ghost use Rattle.std.specs.Prelude.{◌≡◌, map, IfOk};
ghost use Rattle.sc_schema_names.specs.Resolution.{entity_type_of, common_type_of, any_type_of, extension_type, presence_of, resolved_type, resolved_attribute};
ghost use Rattle.sc_schema_names.specs.Tables.{known};

use crate::declared::Declared;
use crate::full::name_of;
use crate::lookup::{common_type_named, entity_type_named, type_named};
use sc_lists::{Boxed, Seq, Text};
use sc_names::Name;
use sc_schema::{Presence, ResolvedAttributes, ResolvedType};
use sc_schema_syntax::{ExtensionKind, WrittenAttributes, WrittenPresence, WrittenType};
use std::alloc::{AllocError, Global};

/// A type in a namespace, with the names in it looked up.
#[cycle(resolved)]
#[tactic(auto, using(crate::proofs::RecordsLaws::resolved_record), unfolding(crate::specs::Resolution::resolved_type))]
pub(crate) fn resolved_type(
    alloc: Global,
    declared: &Declared,
    namespace: &str,
    written: &WrittenType,
) -> Result<ResolvedType, AllocError>
    ensures { IfOk result (λ type. type ≡ resolved_type (known declared.now) namespace.now written.now) }
{
    match written {
        WrittenType::Boolean => Ok(ResolvedType::Boolean),
        WrittenType::Long => Ok(ResolvedType::Long),
        WrittenType::String => Ok(ResolvedType::String),
        WrittenType::Set(element) => resolved_set(alloc, declared, namespace, element),
        WrittenType::Record(attributes) => Ok(ResolvedType::Record(resolved_attributes(
            alloc, declared, namespace, attributes,
        )?)),
        WrittenType::Entity(name) => resolved_entity(alloc, declared, namespace, name),
        WrittenType::Extension(kind) => Ok(extension_type(*kind)),
        WrittenType::EntityOrCommon(name) => any_type_of(alloc, declared, namespace, name),
        WrittenType::Common(name) => resolved_common(alloc, declared, namespace, name),
    }
}

/// A set type, of its members' type.
#[cycle(resolved)]
fn resolved_set(
    alloc: Global,
    declared: &Declared,
    namespace: &str,
    element: &Boxed<WrittenType>,
) -> Result<ResolvedType, AllocError>
    ensures { IfOk result (λ type. type ≡ ResolvedType.Set (resolved_type (known declared.now) namespace.now
        element.now)) }
{
    let element = resolved_type(alloc, declared, namespace, element.get())?;
    Ok(ResolvedType::Set(Boxed::new(alloc, element)?))
}

/// The attributes of a record type.
#[cycle(resolved)]
fn resolved_attributes(
    alloc: Global,
    declared: &Declared,
    namespace: &str,
    attributes: &WrittenAttributes,
) -> Result<ResolvedAttributes, AllocError>
    ensures { IfOk result (λ all. all ≡ map (resolved_attribute (known declared.now) namespace.now) attributes.now) }
{
    let mut all = Seq::new(alloc);
    for attribute in attributes.as_slice() {
        all.push((
            attribute.0.try_clone(alloc)?,
            presence_of(attribute.1),
            resolved_type(alloc, declared, namespace, &attribute.2)?,
        ))?;
    }
    Ok(all)
}

/// Whether an attribute has to be there.
fn presence_of(written: WrittenPresence) -> Presence
    ensures { result ≡ presence_of written }
{
    match written {
        WrittenPresence::Required => Presence::Required,
        WrittenPresence::Optional => Presence::Optional,
    }
}

/// An extension type.
fn extension_type(kind: ExtensionKind) -> ResolvedType
    ensures { result ≡ extension_type kind }
{
    match kind {
        ExtensionKind::Ipaddr => ResolvedType::Ip,
        ExtensionKind::Decimal => ResolvedType::Decimal,
    }
}

/// The entity type that a text names, or the text itself where there is none.
pub(crate) fn entity_type_of(
    alloc: Global,
    declared: &Declared,
    namespace: &str,
    text: &str,
) -> Result<Name, AllocError>
    ensures { IfOk result (λ name. name ≡ entity_type_of (known declared.now) namespace.now text.now) }
{
    match entity_type_named(alloc, declared, namespace, text)? {
        Some(name) => Ok(name),
        None => name_of(alloc, text),
    }
}

/// The entities of the type that a text names.
fn resolved_entity(
    alloc: Global,
    declared: &Declared,
    namespace: &str,
    text: &Text,
) -> Result<ResolvedType, AllocError>
    ensures { IfOk result (λ type. type ≡ ResolvedType.Entity (entity_type_of (known declared.now) namespace.now
        text.now)) }
{
    let name = entity_type_of(alloc, declared, namespace, text.as_str())?;
    Ok(ResolvedType::Entity(name))
}

/// The type that the name of a common type means.
fn resolved_common(
    alloc: Global,
    declared: &Declared,
    namespace: &str,
    text: &Text,
) -> Result<ResolvedType, AllocError>
    ensures { IfOk result (λ type. type ≡ ResolvedType.Common (common_type_of (known declared.now) namespace.now
        text.now)) }
{
    let name = common_type_of(alloc, declared, namespace, text)?;
    Ok(ResolvedType::Common(name))
}

/// The common type that a text names, or the text itself where there is none.
fn common_type_of(
    alloc: Global,
    declared: &Declared,
    namespace: &str,
    text: &Text,
) -> Result<Name, AllocError>
    ensures { IfOk result (λ name. name ≡ common_type_of (known declared.now) namespace.now text.now) }
{
    match common_type_named(alloc, declared, namespace, text.as_str())? {
        Some(name) => Ok(name),
        None => name_of(alloc, text.as_str()),
    }
}

/// The type that a text names, or the entities of its name where there is none.
fn any_type_of(
    alloc: Global,
    declared: &Declared,
    namespace: &str,
    text: &Text,
) -> Result<ResolvedType, AllocError>
    ensures { IfOk result (λ type. type ≡ any_type_of (known declared.now) namespace.now text.now) }
{
    match type_named(alloc, declared, namespace, text.as_str())? {
        Some(found) => Ok(found),
        None => entities_of(alloc, text),
    }
}

/// The type of the entities of a name.
fn entities_of(alloc: Global, name: &Text) -> Result<ResolvedType, AllocError>
    ensures { IfOk result (λ type. type ≡ ResolvedType.Entity name.now) }
{
    Ok(ResolvedType::Entity(name_of(alloc, name.as_str())?))
}
