//! Attributes and tags of stored entities, and the types of their ancestors.
ghost use Rattle.std.specs.Prelude.{◌≡◌, ◌↔◌, [], All, IsTrue};
ghost use Rattle.sc_schema.specs.Lawful.{AreAscending};
ghost use Rattle.sc_world.specs.Tests.{Holds, IsTagOf, HasTypeAmong};
ghost use Rattle.sc_world.specs.WellFormed.{HasAttributes, HasTags, HasAncestorTypes};

use crate::conformance::{conforms, record_conforms};
use crate::entity::EntityData;
use sc_lists::Text;
use sc_names::{Name, Uid};
use sc_schema::{Schema, Ty, ancestor_types, attrs_of, tags_of};
use sc_values::{Rec, Value};

/// Whether an entity's attributes and tags and the types of its ancestors are as its type has them.
pub(crate) fn is_typed(s: &Schema, uid: &Uid, entity: &EntityData) -> bool
    ensures { IsTrue result ↔ (HasAttributes s.now (uid.now, entity.now) × HasTags s.now (uid.now, entity.now)
        × HasAncestorTypes s.now (uid.now, entity.now)) }
{
    let attributes = has_attributes(s, uid, entity);
    let tags = has_tags(s, uid, entity);
    let ancestor_types = has_ancestor_types(s, uid, entity);
    attributes && tags && ancestor_types
}

/// Whether an entity's type is declared and its attributes are those of the type.
fn has_attributes(s: &Schema, uid: &Uid, entity: &EntityData) -> bool
    ensures { IsTrue result ↔ HasAttributes s.now (uid.now, entity.now) }
{
    match attrs_of(s, &uid.type_name) {
        Some(ty) => record_conforms(&entity.attrs, ty),
        None => false,
    }
}

/// Whether an entity's tags are of its type's tag type, and there is none without one.
#[tactic(auto, using(crate::proofs::TestLaws::each_from_all, crate::proofs::TestLaws::all_from_each))]
fn has_tags(s: &Schema, uid: &Uid, entity: &EntityData) -> bool
    ensures { IsTrue result ↔ HasTags s.now (uid.now, entity.now) }
{
    match tags_of(s, &uid.type_name) {
        Some(ty) => are_tags_of(ty, &entity.tags),
        None => is_empty(&entity.tags),
    }
}

fn are_tags_of(ty: &Ty, tags: &Rec) -> bool
    ensures { IsTrue result ↔ All (Holds (IsTagOf ty.now)) tags.now }
{
    tags.as_slice().iter().all(|tag| is_tag_of(ty, tag))
}

#[tactic(auto, unfolding(crate::specs::Tests::Holds))]
fn is_tag_of(ty: &Ty, tag: &(Text, Value)) -> bool
    ensures { IsTrue result ↔ Holds (IsTagOf ty.now) tag.now }
{
    conforms(&tag.1, ty)
}

/// Whether there is no field.
pub(crate) fn is_empty(fields: &Rec) -> bool
    ensures { IsTrue result ↔ fields.now ≡ [] }
{
    fields.is_empty()
}

/// Whether each ancestor of an entity is of a type that its type's ancestors may have.
fn has_ancestor_types(s: &Schema, uid: &Uid, entity: &EntityData) -> bool
    ensures { IsTrue result ↔ HasAncestorTypes s.now (uid.now, entity.now) }
{
    match ancestor_types(s, &uid.type_name) {
        Some(types) => have_types(types, entity.ancestors.as_slice()),
        None => entity.ancestors.is_empty(),
    }
}

fn have_types(types: &[Name], uids: &[Uid]) -> bool
    requires { AreAscending types.now }
    ensures { IsTrue result ↔ All (Holds (HasTypeAmong types.now)) uids.now }
{
    uids.iter().all(|uid| holds_type(types, uid))
}

#[tactic(auto, unfolding(crate::specs::Tests::Holds))]
fn holds_type(types: &[Name], uid: &Uid) -> bool
    requires { AreAscending types.now }
    ensures { IsTrue result ↔ Holds (HasTypeAmong types.now) uid.now }
{
    has_type(types, uid)
}

fn has_type(types: &[Name], uid: &Uid) -> bool
    requires { AreAscending types.now }
    ensures { IsTrue result ↔ HasTypeAmong types.now uid.now }
{
    types.binary_search(&uid.type_name).is_ok()
}
