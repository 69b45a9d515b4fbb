//! The sort of a type's entities.
ghost use Rattle.std.specs.Prelude.{◌≡◌, ◌++◌, ◌∷◌, [], map, IfOk, OnOk};
ghost use Rattle.sc_sorts.specs.Entities.{of_type_name, uid_of, uids_of, choices_of, entity_sort};

use crate::sort::Sort;
use sc_lists::{Seq, Text};
use sc_names::{Name, Uid};
use sc_schema::{EntityKind, Schema, actions, is_action_type, kind_of};
use std::alloc::{AllocError, Global};

/// The sort of a type's entities: of a type of actions with the declared ones, of an enumerated
/// type with its choices.
pub fn entity_sort(alloc: Global, schema: &Schema, name: &Name) -> Result<Sort, AllocError>
    ensures { IfOk result (λ s. s ≡ entity_sort schema.now name.now) }
{
    Ok(Sort::Entity(name.try_clone(alloc)?, choices_of(alloc, schema, name)?))
}

/// The entities of a type that are listed, since it has no others: of a type of actions the declared
/// ones, ascending; of an enumerated type its choices, in their order. Of another type none are.
pub fn choices_of(alloc: Global, schema: &Schema, name: &Name) -> Result<Seq<Uid>, AllocError>
    ensures { IfOk result (λ us. us ≡ choices_of schema.now name.now) }
{
    if is_action_type(schema, name) {
        return of_type_name(alloc, name, actions(schema));
    }
    let kind = kind_of(alloc, schema, name)?;
    uids_of(alloc, &kind)
}

/// The uids of a type's choices, in their order.
pub(crate) fn uids_of(alloc: Global, kind: &EntityKind) -> Result<Seq<Uid>, AllocError>
    ensures { IfOk result (λ us. us ≡ uids_of kind.now) }
{
    with_ids(alloc, &kind.name, kind.choices.get().as_slice())
}

/// The entities of a type with these ids.
fn with_ids(alloc: Global, name: &Name, ids: &[Text]) -> Result<Seq<Uid>, AllocError>
    ensures { IfOk result (λ us. us ≡ map (uid_of name.now) ids.now) }
{
    let mut uids = Seq::new(alloc);
    for id in ids {
        uids.push(with_id(alloc, name, id)?)?;
    }
    Ok(uids)
}

fn with_id(alloc: Global, name: &Name, id: &Text) -> Result<Uid, AllocError>
    ensures { IfOk result (λ u. u ≡ uid_of name.now id.now) }
{
    Ok(Uid {
        type_name: name.try_clone(alloc)?,
        id: id.try_clone(alloc)?,
    })
}

fn of_type_name(alloc: Global, name: &Name, uids: &[Uid]) -> Result<Seq<Uid>, AllocError>
    ensures { IfOk result (λ us. us ≡ of_type_name name.now uids.now) }
{
    let mut chosen = Seq::new(alloc);
    let mut rest = uids;
    while let Some((uid, later)) = rest.split_first() {
        put_of_type(alloc, name, uid, &mut chosen)?;
        rest = later;
    }
    Ok(chosen)
}

fn put_of_type(
    alloc: Global,
    name: &Name,
    uid: &Uid,
    chosen: &mut Seq<Uid>,
) -> Result<(), AllocError>
    ensures { OnOk result (chosen.new ≡ chosen.old ++ of_type_name name.now (uid.now ∷ [])) }
{
    if name.as_str() == uid.type_name.as_str() {
        chosen.push(uid.try_clone(alloc)?)?;
    }
    Ok(())
}
