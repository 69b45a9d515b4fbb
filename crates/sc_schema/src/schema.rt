//! Schemas, and what they declare.
ghost use Rattle.std.specs.Prelude.{◌≡◌, [], IfOk, IfSome, option_map};
ghost use Rattle.std.specs.List.Sorted.{IsStrictlySortedBy};
ghost use Rattle.std.specs.Option.{option_copied};
ghost use Rattle.sc_names.specs.Uids.{uid_cmp};
ghost use Rattle.sc_schema.specs.Declarations.{environments, env_cmp, entity_types, action_uids, attrs_of, tags_of, choices_of, declared_choices, kind_of, ancestor_types, action_ancestors, context_of, entity_type, action, is_action_type};
ghost use Rattle.sc_schema.specs.Indices.{types_above_actions};
ghost use Rattle.sc_schema.specs.Lawful.{IsLawful, IsLawfulType, IsLawfulAction, AreAscending};

use crate::declarations::{Action, EntityType, Env};
use crate::index::{Index, index_of};
use crate::place::{place_of_name, place_of_uid};
use crate::ty::{Attributes, Choices, EntityKind, Ty};
use sc_lists::{Seq, Text};
use sc_names::{Name, Uid};
use std::alloc::{AllocError, Global};
use std::marker::Model;

/// A schema: its entity types, ascending by name, and its actions, ascending by uid. What its
/// types and actions name is declared, ancestors of ancestors are ancestors, and no type of it has more
/// than 32 levels or 4,096 nodes.
#[derive(Drop)]
pub struct Schema {
    types: Seq<EntityType>,
    actions: Seq<Action>,
    index: Index,
}

impl Model for Schema {
    ghost use Rattle.std.specs.Coded.{codes};
    ghost use Rattle.sc_schema.specs.contracts.ty.Ty as ty;
    ghost use Rattle.sc_schema.specs.Declarations.{Declarations};
    ghost use Rattle.sc_schema.specs.Indices.{IsIndexOf};
    ghost use Rattle.sc_schema.specs.Lawful.{IsLawful};

    ghost Value = { Declarations };

    ghost coded = { Prim.hlevel (codes, ty.the_row.coded) };

    ghost view = { λ s. record { types = s.types; actions = s.actions } };

    ghost invariant = { λ s. IsLawful (record { types = s.types; actions = s.actions })
        × IsIndexOf (record { types = s.types; actions = s.actions }) s.index };
}

impl Schema {
    /// The schema of these declarations.
    pub fn new(
        alloc: Global,
        types: Seq<EntityType>,
        actions: Seq<Action>,
    ) -> Result<Schema, AllocError>
        requires { IsLawful (record { types = types; actions = actions }) }
        ensures { IfOk result (λ s. s ≡ record { types = types; actions = actions }) }
    {
        let index = index_of(alloc, types.as_slice(), actions.as_slice())?;
        Ok(Schema {
            types,
            actions,
            index,
        })
    }

    /// What holds of the schema, whichever it is; and its environments ascend, so each comes once.
    pub fn laws(&self)
        ensures lawful { IsLawful self.now }
        ensures ordered { IsStrictlySortedBy env_cmp (environments self.now) }
    {
        let _index = &self.index;
    }

    /// The entity types, ascending by name.
    pub fn types(&self) -> &[EntityType]
        ensures { result.now ≡ self.now.types }
    {
        self.types.as_slice()
    }

    /// The actions with what is declared of them, ascending by uid.
    pub fn declared_actions(&self) -> &[Action]
        ensures { result.now ≡ self.now.actions }
    {
        self.actions.as_slice()
    }
}

/// The environments of a schema, in the order of action, principal type and resource type, each
/// once.
pub fn environments(s: &Schema) -> &[Env]
    ensures { result.now ≡ environments s.now }
{
    s.index.environment_list.as_slice()
}

/// The names of the entity types, ascending, each once.
pub fn entity_types(s: &Schema) -> &[Name]
    ensures value { result.now ≡ entity_types s.now }
    ensures ascending { AreAscending result.now }
{
    s.index.type_names.as_slice()
}

/// The uids of the actions, ascending, each once.
pub fn actions(s: &Schema) -> &[Uid]
    ensures value { result.now ≡ action_uids s.now }
    ensures ascending { IsStrictlySortedBy uid_cmp result.now }
{
    s.index.action_uids.as_slice()
}

/// The types that an entity's ancestors may have, ascending, each once, by the entity's type, which
/// may be one of actions. None exactly where the type isn't declared; a type of actions is declared
/// where it has an action.
pub fn ancestor_types<'s>(s: &'s Schema, t: &Name) -> Option<&'s [Name]>
    ensures value { option_map (λ ts. ts.now) result ≡ ancestor_types s.now t.now }
    ensures ascending { IfSome result (λ ts. AreAscending ts.now) }
{
    if let Some(names) = types_above(s, t) {
        return Some(names.as_slice());
    }
    match type_among(s, t) {
        Some(declared) => Some(declared.ancestors.as_slice()),
        None => None,
    }
}

/// Whether a type is one of actions.
pub fn is_action_type(s: &Schema, t: &Name) -> bool
    ensures { result ≡ is_action_type s.now t.now }
{
    types_above(s, t).is_some()
}

/// The type of an entity's attributes, by the entity's type: a record type, and the empty one for
/// an action. None exactly where the type isn't declared.
pub fn attrs_of<'s>(s: &'s Schema, t: &Name) -> Option<&'s Ty>
    ensures { option_copied result ≡ attrs_of s.now t.now }
{
    if is_action_type(s, t) {
        return Some(&s.index.shape_of_actions);
    }
    match type_among(s, t) {
        Some(declared) => Some(&declared.shape),
        None => None,
    }
}

/// No attributes, as actions have.
pub fn no_attributes(s: &Schema) -> &Attributes
    ensures { result.now ≡ [] }
{
    &s.index.no_attributes
}

/// The type of the values of an entity's tags, by the entity's type. None exactly where the type
/// isn't declared or its entities have no tags, as those of types of actions.
pub fn tags_of<'s>(s: &'s Schema, t: &Name) -> Option<&'s Ty>
    ensures { option_copied result ≡ tags_of s.now t.now }
{
    if is_action_type(s, t) {
        return None;
    }
    match type_among(s, t) {
        Some(declared) => declared.tags.as_ref(),
        None => None,
    }
}

/// The ids that entities of a type may have, in the order in which they are declared. None exactly where the name isn't
/// that of a declared type that is enumerated.
pub fn choices_of<'s>(s: &'s Schema, t: &Name) -> Option<&'s [Text]>
    ensures { option_map (λ ids. ids.now) result ≡ declared_choices s.now t.now }
{
    let ids = choices_among(s, t).get().as_slice();
    if ids.is_empty() {
        return None;
    }
    Some(ids)
}

/// A type of entities with the choices that it has in a schema.
pub fn kind_of(alloc: Global, s: &Schema, t: &Name) -> Result<EntityKind, AllocError>
    ensures { IfOk result (λ kind. kind ≡ kind_of s.now t.now) }
{
    Ok(EntityKind {
        name: t.try_clone(alloc)?,
        choices: choices_among(s, t).try_clone()?,
    })
}

/// The actions that an action is in, ascending, each once. None exactly where the action isn't declared.
pub fn action_ancestors<'s>(s: &'s Schema, a: &Uid) -> Option<&'s [Uid]>
    ensures value { option_map (λ us. us.now) result ≡ action_ancestors s.now a.now }
    ensures ascending { IfSome result (λ us. IsStrictlySortedBy uid_cmp us.now) }
{
    match action_among(s, a) {
        Some(declared) => Some(declared.ancestors.as_slice()),
        None => None,
    }
}

/// The type of the context of requests for an action. None exactly where the action isn't declared.
pub fn context_of<'s>(s: &'s Schema, action: &Uid) -> Option<&'s Ty>
    ensures { option_copied result ≡ context_of s.now action.now }
{
    match action_among(s, action) {
        Some(declared) => Some(&declared.context),
        None => None,
    }
}

fn type_among<'s>(s: &'s Schema, name: &Name) -> Option<&'s EntityType>
    ensures value { option_copied result ≡ entity_type s.now name.now }
    ensures lawful { IfSome result (λ t. IsLawfulType s.now t.now) }
{
    let Some(at) = place_of_name(s.index.type_names.as_slice(), name) else {
        return None;
    };
    s.types.get(at)
}

/// The ids that entities of a type may have, if it is enumerated.
fn choices_among<'s>(s: &'s Schema, name: &Name) -> &'s Choices
    ensures { result.now ≡ choices_of s.now name.now }
{
    match type_among(s, name) {
        Some(declared) => &declared.choices,
        None => &s.index.no_choices,
    }
}

fn action_among<'s>(s: &'s Schema, uid: &Uid) -> Option<&'s Action>
    ensures value { option_copied result ≡ action s.now uid.now }
    ensures lawful { IfSome result (λ a. IsLawfulAction s.now a.now) }
{
    let Some(at) = place_of_uid(s.index.action_uids.as_slice(), uid) else {
        return None;
    };
    s.actions.get(at)
}

fn types_above<'s>(s: &'s Schema, name: &Name) -> Option<&'s Seq<Name>>
    ensures { option_copied result ≡ types_above_actions s.now.actions name.now }
{
    s.index.above_actions.get(name)
}
