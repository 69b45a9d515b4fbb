//! The tags that closed terms tell of an entity.
ghost use Rattle.std.specs.Prelude.{◌≡◌, ◌++◌, ◌<◌, flat_map, length, map, IfOk, IfSome, OnOk};
ghost use Rattle.std.specs.List.{AllByRecursion};
ghost use Rattle.sc_model_worlds.specs.Listed.{AreListed, IsListed};
ghost use Rattle.sc_model_worlds.specs.Saying.{first_saying};
ghost use Rattle.sc_model_worlds.specs.Telling.{tag_told};
ghost use Rattle.sc_model_worlds.specs.declared.sought.Sought.TheVariants.{Tag};
ghost use Rattle.sc_model_values.specs.Models.{model, name_in};
ghost use Rattle.sc_names.specs.Uids.{text_cmp};
ghost use Rattle.sc_model_laws.specs.Vals.{assigned};
ghost use Rattle.sc_model_world_laws.specs.Rebuilt.{in_order as ordered, keys_said};
ghost use Rattle.sc_terms.specs.Tables.{tree};

use crate::defaults::default_tag;
use crate::ordering::in_order;
use crate::saying::{first, is_of};
use crate::sought::Sought;
use crate::values::value_at;
use sc_clauses::Assignment;
use sc_footprint::Problem;
use sc_lists::{Seq, Text};
use sc_model_values::{assigned_of, name_at};
use sc_names::Uid;
use sc_sorts::{Node, UnaryOp};
use sc_values::{Rec, Value};
use std::alloc::{AllocError, Global};

/// Puts the names of terms at the end of a list.
fn put_names(
    alloc: Global,
    problem: &Problem<'_>,
    names: &[Text],
    terms: &[u64],
    texts: &mut Seq<Text>,
) -> Result<(), AllocError>
    requires { AllByRecursion (λ n. n < length problem.now.nodes) terms.now }
    ensures { OnOk result (texts.new ≡ texts.old
        ++ map (λ n. name_in problem.now names.now (tree problem.now.nodes n)) terms.now) }
{
    for term in terms {
        texts.push(Text::from_str(alloc, name_at(problem, names, *term))?)?;
    }
    Ok(())
}

/// Puts the texts that are assigned to a set.
fn put_assigned(
    alloc: Global,
    problem: &Problem<'_>,
    m: &Assignment,
    names: &[Text],
    term: u64,
    texts: &mut Seq<Text>,
) -> Result<(), AllocError>
    requires { term < length problem.now.nodes }
    ensures { OnOk result (texts.new ≡ texts.old ++ map (name_in problem.now names.now)
        (assigned (model problem.now m.now names.now) (tree problem.now.nodes term))) }
{
    let members = assigned_of(alloc, problem, m, term)?;
    put_names(alloc, problem, names, members.as_slice(), texts)
}

/// Puts the keys of an entity's tags that a closed term tells.
#[tactic(auto, unfolding(sc_model_values::specs::Models::model))]
fn put_keys(
    alloc: Global,
    problem: &Problem<'_>,
    m: &Assignment,
    names: &[Text],
    uid: &Uid,
    term: u64,
    keys: &mut Seq<Text>,
) -> Result<(), AllocError>
    requires { IsListed problem.now term }
    ensures { OnOk result (keys.new ≡ keys.old
        ++ keys_said (model problem.now m.now names.now) uid.now (tree problem.now.nodes term)) }
{
    match problem.terms().node(term) {
        Node::One(UnaryOp::Keys, entity) => {
            if is_of(problem, names, *entity, uid) {
                put_assigned(alloc, problem, m, names, term, keys)
            } else {
                Ok(())
            }
        }
        _ => Ok(()),
    }
}

/// All keys of an entity's tags that closed terms tell, one term after the other.
fn told_keys(
    alloc: Global,
    problem: &Problem<'_>,
    m: &Assignment,
    names: &[Text],
    uid: &Uid,
    closed: &[u64],
) -> Result<Seq<Text>, AllocError>
    requires { AreListed problem.now closed.now }
    ensures { IfOk result (λ ks. ks ≡ flat_map (λ n. keys_said (model problem.now m.now names.now) uid.now
        (tree problem.now.nodes n)) closed.now) }
{
    let mut keys = Seq::new(alloc);
    for term in closed {
        put_keys(alloc, problem, m, names, uid, *term, &mut keys)?;
    }
    Ok(keys)
}

/// The first of some closed terms that is the tag of an entity under a key.
fn tag_among(
    alloc: Global,
    problem: &Problem<'_>,
    names: &[Text],
    uid: &Uid,
    key: &Text,
    closed: &[u64],
) -> Result<Option<u64>, AllocError>
    requires { AreListed problem.now closed.now }
    ensures value { IfOk result (λ o. o ≡ first_saying problem.now names.now (Tag uid.now key.now) closed.now) }
    ensures listed { IfOk result (λ o. IfSome o (IsListed problem.now)) }
{
    let sought = Sought::Tag(uid.try_clone(alloc)?, key.try_clone(alloc)?);
    Ok(first(problem, names, &sought, closed))
}

/// The tag of an entity under a key, by the first of some closed terms that tells it; by default
/// where none does.
fn tag_of(
    alloc: Global,
    problem: &Problem<'_>,
    m: &Assignment,
    names: &[Text],
    uid: &Uid,
    key: &Text,
    closed: &[u64],
) -> Result<Value, AllocError>
    requires { AreListed problem.now closed.now }
    ensures { IfOk result (λ x. x ≡ tag_told problem.now.schema (model problem.now m.now names.now) uid.now
        (map (tree problem.now.nodes) closed.now) key.now) }
{
    let found = tag_among(alloc, problem, names, uid, key, closed)?;
    match found {
        Some(term) => value_at(alloc, problem, m, names, term),
        None => default_tag(alloc, problem.schema(), &uid.type_name),
    }
}

/// The tags of an entity under some keys.
fn tags_under(
    alloc: Global,
    problem: &Problem<'_>,
    m: &Assignment,
    names: &[Text],
    uid: &Uid,
    keys: &[Text],
    closed: &[u64],
) -> Result<Rec, AllocError>
    requires { AreListed problem.now closed.now }
    ensures { IfOk result (λ r. r ≡ map (λ key. (
      key,
      tag_told problem.now.schema
          (model problem.now m.now names.now) uid.now (map (tree problem.now.nodes) closed.now) key,
    )) keys.now) }
{
    let mut tags = Seq::new(alloc);
    for key in keys {
        let name = key.try_clone(alloc)?;
        let value = tag_of(alloc, problem, m, names, uid, key, closed)?;
        tags.push((name, value))?;
    }
    Ok(tags)
}

/// The tags of an entity that closed terms tell, ascending by their keys.
pub(crate) fn tags_of(
    alloc: Global,
    problem: &Problem<'_>,
    m: &Assignment,
    names: &[Text],
    uid: &Uid,
    closed: &[u64],
) -> Result<Rec, AllocError>
    requires { AreListed problem.now closed.now }
    ensures { IfOk result (λ r. r ≡ map (λ key. (
      key,
      tag_told problem.now.schema
          (model problem.now m.now names.now) uid.now (map (tree problem.now.nodes) closed.now) key,
    ))
        (ordered text_cmp (flat_map (keys_said (model problem.now m.now names.now) uid.now)
        (map (tree problem.now.nodes) closed.now)))) }
{
    let told = told_keys(alloc, problem, m, names, uid, closed)?;
    let keys = in_order(alloc, told.into_vec())?;
    tags_under(alloc, problem, m, names, uid, keys.as_slice(), closed)
}
