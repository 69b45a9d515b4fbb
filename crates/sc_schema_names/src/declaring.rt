//! Gathers what a schema file declares.
ghost use Rattle.std.specs.Prelude.{◌≡◌, ◌++◌, IfOk, OnOk};
ghost use Rattle.sc_lists.specs.Ordered.{is_in};
ghost use Rattle.sc_schema_names.specs.Names.{entity_types, entity_types_of, common_types, common_types_of, actions, actions_of, known_in};
ghost use Rattle.sc_schema_names.specs.Tables.{known};

use crate::declared::Declared;
use crate::full::{action_uid, full_name};
use sc_lists::Seq;
use sc_names::{Name, Uid};
use sc_schema_syntax::{WrittenNamespace, WrittenSchema};
use std::alloc::{AllocError, Global};
use std::collections::BTreeSet;

/// What a schema file declares.
pub(crate) fn declared_of(alloc: Global, written: &WrittenSchema) -> Result<Declared, AllocError>
    ensures { IfOk result (λ declared. known declared ≡ known_in written.now) }
{
    Ok(Declared {
        entity_types: set_of(alloc, entity_types(alloc, written)?)?,
        common_types: set_of(alloc, common_types(alloc, written)?)?,
        actions: set_of(alloc, actions(alloc, written)?)?,
    })
}

/// The set of the keys in a list.
fn set_of<K: Ord + Drop>(alloc: Global, keys: Seq<K>) -> Result<BTreeSet<K>, AllocError>
    ensures { IfOk result (λ set. (k : K) → is_in K.cmp k set.keys ≡ is_in K.cmp k keys) }
{
    let mut set = BTreeSet::new(alloc);
    for key in keys.into_vec() {
        set.insert(key)?;
    }
    Ok(set)
}

/// The full names of the entity types.
fn entity_types(alloc: Global, written: &WrittenSchema) -> Result<Seq<Name>, AllocError>
    ensures { IfOk result (λ names. names ≡ entity_types written.now) }
{
    let mut names = Seq::new(alloc);
    for namespace in written.namespaces.as_slice() {
        put_entity_types(alloc, &mut names, namespace)?;
    }
    Ok(names)
}

/// Puts the full names of a namespace's entity types at the end. Where memory runs out, some of them
/// may be put.
fn put_entity_types(
    alloc: Global,
    names: &mut Seq<Name>,
    namespace: &WrittenNamespace,
) -> Result<(), AllocError>
    ensures { OnOk result (names.new ≡ names.old ++ entity_types_of namespace.now) }
{
    for entity_type in namespace.entity_types.as_slice() {
        names.push(full_name(alloc, namespace.name.as_str(), entity_type.name.as_str())?)?;
    }
    Ok(())
}

/// The full names of the common types.
fn common_types(alloc: Global, written: &WrittenSchema) -> Result<Seq<Name>, AllocError>
    ensures { IfOk result (λ names. names ≡ common_types written.now) }
{
    let mut names = Seq::new(alloc);
    for namespace in written.namespaces.as_slice() {
        put_common_types(alloc, &mut names, namespace)?;
    }
    Ok(names)
}

/// Puts the full names of a namespace's common types at the end. Where memory runs out, some of them
/// may be put.
fn put_common_types(
    alloc: Global,
    names: &mut Seq<Name>,
    namespace: &WrittenNamespace,
) -> Result<(), AllocError>
    ensures { OnOk result (names.new ≡ names.old ++ common_types_of namespace.now) }
{
    for common_type in namespace.common_types.as_slice() {
        names.push(full_name(alloc, namespace.name.as_str(), common_type.name.as_str())?)?;
    }
    Ok(())
}

/// The uids of the actions.
fn actions(alloc: Global, written: &WrittenSchema) -> Result<Seq<Uid>, AllocError>
    ensures { IfOk result (λ uids. uids ≡ actions written.now) }
{
    let mut uids = Seq::new(alloc);
    for namespace in written.namespaces.as_slice() {
        put_actions(alloc, &mut uids, namespace)?;
    }
    Ok(uids)
}

/// Puts the uids of a namespace's actions at the end. Where memory runs out, some of them may be put.
fn put_actions(
    alloc: Global,
    uids: &mut Seq<Uid>,
    namespace: &WrittenNamespace,
) -> Result<(), AllocError>
    ensures { OnOk result (uids.new ≡ uids.old ++ actions_of namespace.now) }
{
    for action in namespace.actions.as_slice() {
        uids.push(action_uid(alloc, namespace.name.as_str(), &action.id)?)?;
    }
    Ok(())
}
