//! What a schema file declares, with the names in it looked up.
ghost use Rattle.std.specs.Prelude.{◌≡◌, ℕ, List, [], map, option_map, unwrap_or, IfOk};
ghost use Rattle.sc_schema_names.specs.Names.{Known, uid_of};
ghost use Rattle.sc_schema_names.specs.Tables.{known};
ghost use Rattle.sc_schema_names.specs.Resolution.{entity_type_of, resolved_type, resolved_parent, resolved_action, resolved_common_type, resolved_entity_type, resolved_namespace, resolved_by};

use crate::declared::Declared;
use crate::full::{action_uid, full_name, name_of};
use crate::lookup::action_named;
use crate::resolved_types::{entity_type_of, resolved_type};
use sc_lists::{Seq, Text};
use sc_names::{Name, Uid};
use sc_schema::{
    ResolvedAction, ResolvedCommonType, ResolvedEntityType, ResolvedNamespace, ResolvedSchema,
    ResolvedType,
};
use sc_schema_syntax::{
    WrittenAction, WrittenCommonType, WrittenEntityType, WrittenNamespace, WrittenParent,
    WrittenSchema, WrittenType,
};
use std::alloc::{AllocError, Global};

/// What a schema file declares.
pub(crate) fn resolved_by(
    alloc: Global,
    declared: &Declared,
    written: &WrittenSchema,
) -> Result<ResolvedSchema, AllocError>
    ensures { IfOk result (λ schema. schema ≡ resolved_by (known declared.now) written.now) }
{
    let mut namespaces = Seq::new(alloc);
    for namespace in written.namespaces.as_slice() {
        namespaces.push(resolved_namespace(alloc, declared, namespace)?)?;
    }
    Ok(ResolvedSchema { namespaces })
}

/// What a namespace declares.
fn resolved_namespace(
    alloc: Global,
    declared: &Declared,
    namespace: &WrittenNamespace,
) -> Result<ResolvedNamespace, AllocError>
    ensures { IfOk result (λ resolved. resolved ≡ resolved_namespace (known declared.now) namespace.now) }
{
    let name = namespace.name.as_str();
    Ok(ResolvedNamespace {
        name: namespace.name.try_clone(alloc)?,
        actions: each(alloc, declared, name, &namespace.actions)?,
        common_types: each(alloc, declared, name, &namespace.common_types)?,
        entity_types: each(alloc, declared, name, &namespace.entity_types)?,
    })
}

/// What something written is with the names in it looked up.
trait FromWritten<W>: Drop {
    ghost said: { Known → List ℕ → W → Self };

    /// What this is in a namespace.
    fn from_written(
        alloc: Global,
        declared: &Declared,
        namespace: &str,
        written: &W,
    ) -> Result<Self, AllocError>
        ensures { IfOk result (λ resolved. resolved ≡ said (known declared.now) namespace.now written.now) };
}

/// What each of a list is.
fn each<W, T: FromWritten<W>>(
    alloc: Global,
    declared: &Declared,
    namespace: &str,
    written: &Seq<W>,
) -> Result<Seq<T>, AllocError>
    ensures { IfOk result (λ all. all ≡ map (T.said (known declared.now) namespace.now) written.now) }
{
    let mut all = Seq::new(alloc);
    for one in written.as_slice() {
        all.push(T::from_written(alloc, declared, namespace, one)?)?;
    }
    Ok(all)
}

impl FromWritten<WrittenAction> for ResolvedAction {
    ghost said = { resolved_action };

    fn from_written(
        alloc: Global,
        declared: &Declared,
        namespace: &str,
        written: &WrittenAction,
    ) -> Result<Self, AllocError> {
        Ok(ResolvedAction {
            parents: each(alloc, declared, namespace, &written.parents)?,
            principals: each(alloc, declared, namespace, &written.principals)?,
            resources: each(alloc, declared, namespace, &written.resources)?,
            uid: action_uid(alloc, namespace, &written.id)?,
            context: any_type(alloc, declared, namespace, &written.context)?,
        })
    }
}

impl FromWritten<WrittenCommonType> for ResolvedCommonType {
    ghost said = { resolved_common_type };

    fn from_written(
        alloc: Global,
        declared: &Declared,
        namespace: &str,
        written: &WrittenCommonType,
    ) -> Result<Self, AllocError> {
        Ok(ResolvedCommonType {
            key: written.name.try_clone(alloc)?,
            name: full_name(alloc, namespace, written.name.as_str())?,
            body: resolved_type(alloc, declared, namespace, &written.body)?,
        })
    }
}

impl FromWritten<WrittenEntityType> for ResolvedEntityType {
    ghost said = { resolved_entity_type };

    fn from_written(
        alloc: Global,
        declared: &Declared,
        namespace: &str,
        written: &WrittenEntityType,
    ) -> Result<Self, AllocError> {
        Ok(ResolvedEntityType {
            parents: each(alloc, declared, namespace, &written.parents)?,
            key: written.name.try_clone(alloc)?,
            name: full_name(alloc, namespace, written.name.as_str())?,
            shape: any_type(alloc, declared, namespace, &written.shape)?,
            tags: any_type(alloc, declared, namespace, &written.tags)?,
            choices: written.choices.try_clone()?,
        })
    }
}

impl FromWritten<Text> for Name {
    ghost said = { entity_type_of };

    fn from_written(
        alloc: Global,
        declared: &Declared,
        namespace: &str,
        written: &Text,
    ) -> Result<Self, AllocError> {
        entity_type_of(alloc, declared, namespace, written.as_str())
    }
}

impl FromWritten<WrittenParent> for Uid {
    ghost said = { resolved_parent };

    fn from_written(
        alloc: Global,
        declared: &Declared,
        namespace: &str,
        written: &WrittenParent,
    ) -> Result<Self, AllocError> {
        match action_named(alloc, declared, namespace, written)? {
            Some(uid) => Ok(uid),
            None => written_uid(alloc, written),
        }
    }
}

/// The uid that an item of `memberOf` has as it is written.
fn written_uid(alloc: Global, parent: &WrittenParent) -> Result<Uid, AllocError>
    ensures { IfOk result (λ uid. uid ≡ uid_of parent.now.id (unwrap_or parent.now.type_name [])) }
{
    let type_name = match &parent.type_name {
        Some(name) => name_of(alloc, name.as_str())?,
        None => name_of(alloc, "")?,
    };
    Ok(Uid {
        type_name,
        id: parent.id.try_clone(alloc)?,
    })
}

/// A type in a namespace, if there is one.
fn any_type(
    alloc: Global,
    declared: &Declared,
    namespace: &str,
    written: &Option<WrittenType>,
) -> Result<Option<ResolvedType>, AllocError>
    ensures { IfOk result (λ type. type ≡ option_map (resolved_type (known declared.now) namespace.now) written.now) }
{
    match written {
        Some(written) => Ok(Some(resolved_type(alloc, declared, namespace, written)?)),
        None => Ok(None),
    }
}
