//! The entities that there may be of an enumerated type: those whose ids are its choices.
ghost use Rattle.std.specs.Prelude.{◌≡◌, ◌↔◌, All, IsTrue};
ghost use Rattle.std.specs.List.{list_any};
ghost use Rattle.std.specs.Str.{bytes_eq};
ghost use Rattle.sc_schema.specs.Declarations as schema;
ghost use Rattle.sc_world.specs.Choices.{is_choice, IsChoice};
ghost use Rattle.sc_world.specs.Tests.{Holds};
ghost use Rattle.sc_world.specs.WellFormed.{HasChoices};

use crate::entity::EntityData;
use sc_lists::Text;
use sc_names::Uid;
use sc_schema::{Choices, Schema, choices_of};

/// Whether an id is one of some choices, where there are some.
pub(crate) fn is_choice(choices: &Choices, id: &Text) -> bool
    ensures { result ≡ is_choice choices.now id.now }
{
    is_choice_among(choices.get().as_slice(), id)
}

fn is_choice_among(ids: &[Text], id: &Text) -> bool
    ensures { result ≡ is_choice ids.now id.now }
{
    if ids.is_empty() {
        return true;
    }
    is_among(ids, id)
}

fn is_among(ids: &[Text], id: &Text) -> bool
    ensures { result ≡ list_any (bytes_eq id.now) ids.now }
{
    ids.iter().any(|choice| id.as_str() == choice.as_str())
}

/// Whether an entity's id is a choice of its type, if the type is enumerated.
pub(crate) fn is_choice_of_type(s: &Schema, uid: &Uid) -> bool
    ensures { result ≡ is_choice (schema.choices_of s.now uid.now.type_name) uid.now.id }
{
    match choices_of(s, &uid.type_name) {
        Some(ids) => is_choice_among(ids, &uid.id),
        None => true,
    }
}

/// Whether a stored entity and its ancestors have choices as ids where their types are enumerated.
#[tactic(auto, using(crate::proofs::TestLaws::each_from_all, crate::proofs::TestLaws::all_from_each))]
pub(crate) fn has_choices(s: &Schema, uid: &Uid, entity: &EntityData) -> bool
    ensures { IsTrue result ↔ HasChoices s.now (uid.now, entity.now) }
{
    let itself = is_choice_of_type(s, uid);
    let ancestors = are_choices(s, entity.ancestors.as_slice());
    itself && ancestors
}

fn are_choices(s: &Schema, uids: &[Uid]) -> bool
    ensures { IsTrue result ↔ All (Holds (IsChoice s.now)) uids.now }
{
    uids.iter().all(|uid| holds_choice(s, uid))
}

#[tactic(auto, unfolding(crate::specs::Tests::Holds))]
fn holds_choice(s: &Schema, uid: &Uid) -> bool
    ensures { IsTrue result ↔ Holds (IsChoice s.now) uid.now }
{
    is_choice_of_type(s, uid)
}
