//! What a text in a namespace names.
ghost use Rattle.std.specs.Prelude.{◌≡◌, IfOk};
ghost use Rattle.std.specs.List.{find};
ghost use Rattle.sc_schema_names.specs.Names.{entity_type_named, common_type_named, action_named};
ghost use Rattle.sc_schema_names.specs.Resolution.{declared_type, type_named};
ghost use Rattle.sc_schema_names.specs.Tables.{known};

use crate::builtin::builtin;
use crate::declared::Declared;
use crate::full::{candidates, parent_candidates};
use sc_lists::Seq;
use sc_names::{Name, Uid};
use sc_schema::ResolvedType;
use sc_schema_syntax::WrittenParent;
use std::alloc::{AllocError, Global};

/// Whether an entity type has this full name.
#[tactic(auto, unfolding(crate::specs::Tables::known))]
fn is_entity_type(declared: &Declared, name: &Name) -> bool
    ensures { result ≡ (known declared.now).is_entity_type name.now }
{
    declared.entity_types.contains(name)
}

/// Whether a common type has this full name.
#[tactic(auto, unfolding(crate::specs::Tables::known))]
fn is_common_type(declared: &Declared, name: &Name) -> bool
    ensures { result ≡ (known declared.now).is_common_type name.now }
{
    declared.common_types.contains(name)
}

/// Whether an action has this uid.
#[tactic(auto, unfolding(crate::specs::Tables::known))]
fn is_action(declared: &Declared, uid: &Uid) -> bool
    ensures { result ≡ (known declared.now).is_action uid.now }
{
    declared.actions.contains(uid)
}

/// The declared entity type that a text in a namespace names, if there is one.
pub(crate) fn entity_type_named(
    alloc: Global,
    declared: &Declared,
    namespace: &str,
    text: &str,
) -> Result<Option<Name>, AllocError>
    ensures { IfOk result (λ name. name ≡ entity_type_named (known declared.now) namespace.now text.now) }
{
    let names = candidates(alloc, namespace, text)?;
    Ok(first_entity_type(declared, names))
}

/// The first of these names that an entity type has.
fn first_entity_type(declared: &Declared, names: Seq<Name>) -> Option<Name>
    ensures { result ≡ find (known declared.now).is_entity_type names }
{
    for name in names.into_vec() {
        if is_entity_type(declared, &name) {
            return Some(name);
        }
    }
    None
}

/// The declared common type that a text in a namespace names, if there is one.
pub(crate) fn common_type_named(
    alloc: Global,
    declared: &Declared,
    namespace: &str,
    text: &str,
) -> Result<Option<Name>, AllocError>
    ensures { IfOk result (λ name. name ≡ common_type_named (known declared.now) namespace.now text.now) }
{
    let names = candidates(alloc, namespace, text)?;
    Ok(first_common_type(declared, names))
}

/// The first of these names that a common type has.
fn first_common_type(declared: &Declared, names: Seq<Name>) -> Option<Name>
    ensures { result ≡ find (known declared.now).is_common_type names }
{
    for name in names.into_vec() {
        if is_common_type(declared, &name) {
            return Some(name);
        }
    }
    None
}

/// The type that a text in a namespace names, if there is one: a common type, entities, or a
/// primitive or extension type.
pub(crate) fn type_named(
    alloc: Global,
    declared: &Declared,
    namespace: &str,
    text: &str,
) -> Result<Option<ResolvedType>, AllocError>
    ensures { IfOk result (λ type. type ≡ type_named (known declared.now) namespace.now text.now) }
{
    let names = candidates(alloc, namespace, text)?;
    match declared_type(declared, names) {
        Some(found) => Ok(Some(found)),
        None => Ok(builtin(text)),
    }
}

/// What the first of these names is that a common type or an entity type has.
fn declared_type(declared: &Declared, names: Seq<Name>) -> Option<ResolvedType>
    ensures { result ≡ declared_type (known declared.now) names }
{
    for name in names.into_vec() {
        if is_common_type(declared, &name) {
            return Some(ResolvedType::Common(name));
        }
        if is_entity_type(declared, &name) {
            return Some(ResolvedType::Entity(name));
        }
    }
    None
}

/// The declared action that an item of `memberOf` names, if there is one.
pub(crate) fn action_named(
    alloc: Global,
    declared: &Declared,
    namespace: &str,
    parent: &WrittenParent,
) -> Result<Option<Uid>, AllocError>
    ensures { IfOk result (λ uid. uid ≡ action_named (known declared.now) namespace.now parent.now) }
{
    let uids = parent_candidates(alloc, namespace, parent)?;
    Ok(first_action(declared, uids))
}

/// The first of these uids that an action has.
fn first_action(declared: &Declared, uids: Seq<Uid>) -> Option<Uid>
    ensures { result ≡ find (known declared.now).is_action uids }
{
    for uid in uids.into_vec() {
        if is_action(declared, &uid) {
            return Some(uid);
        }
    }
    None
}
