//! The schema that a tree says.
ghost use Rattle.std.specs.Prelude.{◌≡◌, map, option_map, option_and_then, IfOk, codes};
ghost use Rattle.serde_json.specs.Find.{get, as_str};
ghost use Rattle.serde_json.specs.View.{view};
ghost use Rattle.sc_schema_syntax.specs.Written.{text_of, parent_of, elements_of, applies_to, type_of, entity_type_of, action_of, common_type_of, namespace_of, schema_of};

use crate::entries::{FromMember, each_member, text_of, texts_of};
use crate::member::value_at;
use crate::types::type_of;
use crate::written_action::{WrittenAction, WrittenParent};
use crate::written_common_type::WrittenCommonType;
use crate::written_entity_type::WrittenEntityType;
use crate::written_namespace::WrittenNamespace;
use crate::written_schema::WrittenSchema;
use crate::written_type::WrittenType;
use sc_lists::{Seq, Shared, Text};
use serde_json::Value;
use std::alloc::{AllocError, Global};

/// The schema that a tree says.
pub(crate) fn schema_of(alloc: Global, value: &Value) -> Result<WrittenSchema, AllocError>
    ensures { IfOk result (λ schema. schema ≡ schema_of (view value.now)) }
{
    Ok(WrittenSchema {
        namespaces: each_member(alloc, Some(value))?,
    })
}

impl FromMember for WrittenNamespace {
    ghost said = { namespace_of };

    fn from_member(alloc: Global, name: &str, value: &Value) -> Result<Self, AllocError> {
        Ok(WrittenNamespace {
            name: Text::from_str(alloc, name)?,
            actions: each_member(alloc, value_at(value, "actions"))?,
            common_types: each_member(alloc, value_at(value, "commonTypes"))?,
            entity_types: each_member(alloc, value_at(value, "entityTypes"))?,
        })
    }
}

impl FromMember for WrittenEntityType {
    ghost said = { entity_type_of };

    fn from_member(alloc: Global, name: &str, value: &Value) -> Result<Self, AllocError> {
        Ok(WrittenEntityType {
            parents: texts_of(alloc, value_at(value, "memberOfTypes"))?,
            name: Text::from_str(alloc, name)?,
            shape: type_of_any(alloc, value_at(value, "shape"))?,
            tags: type_of_any(alloc, value_at(value, "tags"))?,
            choices: Shared::new(alloc, texts_of(alloc, value_at(value, "enum"))?)?,
        })
    }
}

impl FromMember for WrittenAction {
    ghost said = { action_of };

    fn from_member(alloc: Global, name: &str, value: &Value) -> Result<Self, AllocError> {
        Ok(WrittenAction {
            parents: parents_of(alloc, value_at(value, "memberOf"))?,
            principals: texts_of(alloc, applies_to(value, "principalTypes"))?,
            resources: texts_of(alloc, applies_to(value, "resourceTypes"))?,
            id: Text::from_str(alloc, name)?,
            context: type_of_any(alloc, applies_to(value, "context"))?,
        })
    }
}

impl FromMember for WrittenCommonType {
    ghost said = { common_type_of };

    fn from_member(alloc: Global, name: &str, value: &Value) -> Result<Self, AllocError> {
        Ok(WrittenCommonType {
            name: Text::from_str(alloc, name)?,
            body: type_of(alloc, value)?,
        })
    }
}

/// The type that a value says, if there is a value.
fn type_of_any(alloc: Global, value: Option<&Value>) -> Result<Option<WrittenType>, AllocError>
    ensures { IfOk result (λ type. type ≡ option_map type_of (option_map (λ v. view v.now) value.entry)) }
{
    match value {
        Some(value) => Ok(Some(type_of(alloc, value)?)),
        None => Ok(None),
    }
}

/// What an action says of the requests that it is for, at this name.
fn applies_to<'v>(value: &'v Value, name: &str) -> Option<&'v Value>
    ensures { option_map (λ v. view v.now) result ≡ applies_to name.now (view value.now) }
{
    match value_at(value, "appliesTo") {
        Some(requests) => value_at(requests, name),
        None => None,
    }
}

/// The actions that a list names, if the value is one.
fn parents_of(alloc: Global, value: Option<&Value>) -> Result<Seq<WrittenParent>, AllocError>
    ensures { IfOk result (λ parents. parents
        ≡ map parent_of (elements_of (option_map (λ v. view v.now) value.entry))) }
{
    let mut parents = Seq::new(alloc);
    let Some(value) = value else {
        return Ok(parents);
    };
    let Some(items) = value.as_array() else {
        return Ok(parents);
    };
    for item in items {
        parents.push(parent_of(alloc, item)?)?;
    }
    Ok(parents)
}

/// The action that an object names.
fn parent_of(alloc: Global, value: &Value) -> Result<WrittenParent, AllocError>
    ensures { IfOk result (λ parent. parent ≡ parent_of (view value.now)) }
{
    Ok(WrittenParent {
        id: Text::from_str(alloc, text_of(value_at(value, "id")))?,
        type_name: text_at(alloc, value_at(value, "type"))?,
    })
}

/// A copy of a text, if the value is one.
fn text_at(alloc: Global, value: Option<&Value>) -> Result<Option<Text>, AllocError>
    ensures { IfOk result (λ text. text ≡ option_and_then as_str (option_map (λ v. view v.now) value.entry)) }
{
    let Some(value) = value else {
        return Ok(None);
    };
    match value.as_str() {
        Some(text) => Ok(Some(Text::from_str(alloc, text)?)),
        None => Ok(None),
    }
}
