//! Names in full, and which names a text may mean.
ghost use Rattle.std.specs.Prelude.{◌≡◌, map, IfOk, option_map};
ghost use Rattle.sc_schema_names.specs.Names.{full, action_type, uid_of, action_uid, candidates, action_types};

use sc_lists::{Seq, Text};
use sc_names::{Name, Uid, is_ident};
use sc_schema_syntax::WrittenParent;
use std::alloc::{AllocError, Global};

/// The full name of what a namespace declares.
pub(crate) fn full_name(alloc: Global, namespace: &str, name: &str) -> Result<Name, AllocError>
    ensures { IfOk result (λ whole. whole ≡ full namespace.now name.now) }
{
    if namespace.is_empty() {
        return name_of(alloc, name);
    }
    let mut whole = String::from_str(alloc, namespace)?;
    whole.push_str("::")?;
    whole.push_str(name)?;
    Ok(Name::from_text(Text::from_string(whole)?))
}

/// The name of this text.
pub(crate) fn name_of(alloc: Global, text: &str) -> Result<Name, AllocError>
    ensures { IfOk result (λ name. name ≡ text.now) }
{
    Ok(Name::from_text(Text::from_str(alloc, text)?))
}

/// The type of the actions of a namespace.
fn action_type(alloc: Global, namespace: &str) -> Result<Name, AllocError>
    ensures { IfOk result (λ name. name ≡ action_type namespace.now) }
{
    full_name(alloc, namespace, "Action")
}

/// The uid of the action of a namespace with this id.
pub(crate) fn action_uid(alloc: Global, namespace: &str, id: &Text) -> Result<Uid, AllocError>
    ensures { IfOk result (λ uid. uid ≡ action_uid namespace.now id.now) }
{
    Ok(Uid {
        type_name: action_type(alloc, namespace)?,
        id: id.try_clone(alloc)?,
    })
}

/// The names that a text in a namespace may mean, the first that is declared being the one.
pub(crate) fn candidates(
    alloc: Global,
    namespace: &str,
    text: &str,
) -> Result<Seq<Name>, AllocError>
    ensures { IfOk result (λ names. names ≡ candidates namespace.now text.now) }
{
    let mut names = Seq::new(alloc);
    if is_ident(text) {
        names.push(full_name(alloc, namespace, text)?)?;
    }
    names.push(name_of(alloc, text)?)?;
    Ok(names)
}

/// The types that an item of `memberOf` may mean.
fn action_types(
    alloc: Global,
    namespace: &str,
    written: &Option<Text>,
) -> Result<Seq<Name>, AllocError>
    ensures { IfOk result (λ names. names ≡ action_types namespace.now written.now) }
{
    if let Some(text) = written {
        return candidates(alloc, namespace, text.as_str());
    }
    let mut names = Seq::new(alloc);
    names.push(action_type(alloc, namespace)?)?;
    Ok(names)
}

/// The uids that an item of `memberOf` may mean, the first that is declared being the one.
pub(crate) fn parent_candidates(
    alloc: Global,
    namespace: &str,
    parent: &WrittenParent,
) -> Result<Seq<Uid>, AllocError>
    ensures { IfOk result (λ uids. uids
        ≡ map (uid_of parent.now.id) (action_types namespace.now parent.now.type_name)) }
{
    let mut uids = Seq::new(alloc);
    for type_name in action_types(alloc, namespace, &parent.type_name)?.into_vec() {
        uids.push(Uid {
            type_name,
            id: parent.id.try_clone(alloc)?,
        })?;
    }
    Ok(uids)
}
