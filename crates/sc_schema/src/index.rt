//! What is kept beside the declarations of a schema, so that each answer is a part of it.
ghost use Rattle.std.specs.Prelude.{◌≡◌, ◌++◌, ◌∷◌, map, drop, IfOk, OnOk, unwrap_or};
ghost use Rattle.std.specs.List.{AllByRecursion, flat_map, fold, prefix_len};
ghost use Rattle.std.specs.List.Sorted.{IsStrictlySortedBy};
ghost use Rattle.std.specs.Str.{bytes_eq};
ghost use Rattle.sc_names.specs.declared.uid.Uid.{Uid as AnyUid};
ghost use Rattle.sc_names.specs.Uids.{uid_cmp};
ghost use Rattle.sc_schema.specs.declared.declarations.EntityType.{EntityType as AnyType};
ghost use Rattle.sc_schema.specs.declared.declarations.Action.{Action as AnyAction};
ghost use Rattle.sc_schema.specs.Declarations.{environment, environments_for, with_name};
ghost use Rattle.sc_schema.specs.Indices.{IsAbove, IsIndexOf};
ghost use Rattle.sc_schema.specs.Lawful.{AreAscending, IsLawful};

use crate::declarations::{Action, EntityType, Env};
use crate::ty::{Attributes, Choices, Ty};
use sc_lists::{Seq, Shared};
use sc_names::{Name, Uid};
use std::alloc::{AllocError, Global};
use std::collections::BTreeMap;

/// Parts of a schema that follow from its declarations.
#[derive(Drop)]
pub(crate) struct Index {
    /// The environments, in their order.
    pub environment_list: Seq<Env>,
    /// The names of the entity types, ascending.
    pub type_names: Seq<Name>,
    /// The uids of the actions, ascending.
    pub action_uids: Seq<Uid>,
    /// For each type of actions the types of the actions that these are in, ascending.
    pub above_actions: BTreeMap<Name, Seq<Name>>,
    /// No attributes, as actions have.
    pub no_attributes: Attributes,
    /// The type of an action's attributes, of which there are none.
    pub shape_of_actions: Ty,
    /// No choices, as types have that aren't enumerated.
    pub no_choices: Choices,
}

/// What is kept beside these declarations.
pub(crate) fn index_of(
    alloc: Global,
    types: &[EntityType],
    actions: &[Action],
) -> Result<Index, AllocError>
    requires { IsLawful (record { types = types.now; actions = actions.now }) }
    ensures { IfOk result (λ i. IsIndexOf (record { types = types.now; actions = actions.now }) i) }
{
    let no_attributes = Attributes::new(alloc, Seq::new(alloc))?;
    Ok(Index {
        environment_list: environments_of(alloc, actions)?,
        type_names: names_of(alloc, types)?,
        action_uids: uids_of(alloc, actions)?,
        above_actions: types_above(alloc, actions)?,
        shape_of_actions: Ty::Record(no_attributes.try_clone()?),
        no_attributes,
        no_choices: Shared::new(alloc, Seq::new(alloc))?,
    })
}

fn names_of(alloc: Global, types: &[EntityType]) -> Result<Seq<Name>, AllocError>
    ensures { IfOk result (λ names. names ≡ map (λ (t : AnyType). t.name) types.now) }
{
    let mut names = Seq::new(alloc);
    for declared in types {
        names.push(declared.name.try_clone(alloc)?)?;
    }
    Ok(names)
}

fn uids_of(alloc: Global, actions: &[Action]) -> Result<Seq<Uid>, AllocError>
    ensures { IfOk result (λ uids. uids ≡ map (λ (a : AnyAction). a.uid) actions.now) }
{
    let mut uids = Seq::new(alloc);
    for action in actions {
        uids.push(action.uid.try_clone(alloc)?)?;
    }
    Ok(uids)
}

fn types_above(alloc: Global, actions: &[Action]) -> Result<BTreeMap<Name, Seq<Name>>, AllocError>
    requires { AllByRecursion (λ (a : AnyAction). IsStrictlySortedBy uid_cmp a.ancestors) actions.now }
    ensures { IfOk result (λ above. IsAbove actions.now above.entries) }
{
    let mut above = BTreeMap::new(alloc);
    for action in actions {
        let name = action.uid.type_name.try_clone(alloc)?;
        let mut names = above.remove(&name).unwrap_or(Seq::new(alloc));
        put_types(alloc, &mut names, action.ancestors.as_slice())?;
        above.insert(name, names)?;
    }
    Ok(above)
}

/// Puts the types of uids among names in their order, each once. The uids ascend, so those of one type
/// stand beside one another, and the first of them is put for all.
fn put_types(alloc: Global, names: &mut Seq<Name>, uids: &[Uid]) -> Result<(), AllocError>
    requires names_ascend { AreAscending names.old }
    requires uids_ascend { IsStrictlySortedBy uid_cmp uids.now }
    ensures put { OnOk result (names.new ≡ fold with_name names.old (map (λ (u : AnyUid). u.type_name) uids.now)) }
    ensures ascending { OnOk result (AreAscending names.new) }
{
    let mut rest = uids;
    while let Some((uid, later)) = rest.split_first() {
        put_name(alloc, names, &uid.type_name)?;
        rest = after_run(uid, later);
    }
    Ok(())
}

/// The uids after those at the front that are of the type of the one before them.
fn after_run<'a>(uid: &Uid, later: &'a [Uid]) -> &'a [Uid]
    requires { IsStrictlySortedBy uid_cmp (uid.now ∷ later.now) }
    ensures { result.now ≡ drop (prefix_len (λ (u : AnyUid). bytes_eq uid.now.type_name u.type_name) later.now)
        later.now }
{
    let run = later.partition_point(|other| uid.type_name.as_str() == other.type_name.as_str());
    &later[run..]
}

fn put_name(alloc: Global, names: &mut Seq<Name>, name: &Name) -> Result<(), AllocError>
    requires { AreAscending names.old }
    ensures put { OnOk result (names.new ≡ with_name names.old name.now) }
    ensures ascending { OnOk result (AreAscending names.new) }
{
    match names.as_slice().binary_search(name) {
        Ok(_) => Ok(()),
        Err(at) => {
            names.insert(at, name.try_clone(alloc)?)?;
            Ok(())
        }
    }
}

fn environments_of(alloc: Global, actions: &[Action]) -> Result<Seq<Env>, AllocError>
    ensures { IfOk result (λ es. es ≡ flat_map environments_for actions.now) }
{
    let mut list = Seq::new(alloc);
    for action in actions {
        put_action(alloc, action, &mut list)?;
    }
    Ok(list)
}

fn put_action(alloc: Global, action: &Action, list: &mut Seq<Env>) -> Result<(), AllocError>
    ensures { OnOk result (list.new ≡ list.old ++ environments_for action.now) }
{
    for principal in action.principals.as_slice() {
        put_principal(alloc, action, principal, list)?;
    }
    Ok(())
}

fn put_principal(
    alloc: Global,
    action: &Action,
    principal: &Name,
    list: &mut Seq<Env>,
) -> Result<(), AllocError>
    ensures { OnOk result (list.new ≡ list.old ++ map (environment action.now principal.now) action.now.resources) }
{
    for resource in action.resources.as_slice() {
        list.push(env_of(alloc, principal, &action.uid, resource)?)?;
    }
    Ok(())
}

fn env_of(alloc: Global, principal: &Name, action: &Uid, resource: &Name) -> Result<Env, AllocError>
    ensures { IfOk result (λ env. env
        ≡ record { principal = principal.now; action = action.now; resource = resource.now }) }
{
    Ok(Env {
        principal: principal.try_clone(alloc)?,
        action: action.try_clone(alloc)?,
        resource: resource.try_clone(alloc)?,
    })
}
