//! The ancestors that closed terms tell of an entity.
ghost use Rattle.std.specs.Prelude.{◌≡◌, ◌++◌, ◌<◌, flat_map, length, map, IfOk, OnOk};
ghost use Rattle.std.specs.List.{AllByRecursion};
ghost use Rattle.sc_model_worlds.specs.Listed.{AreListed, IsListed};
ghost use Rattle.sc_model_worlds.specs.Saying.{uid_in};
ghost use Rattle.sc_model_values.specs.Models.{model};
ghost use Rattle.sc_names.specs.Uids.{uid_cmp};
ghost use Rattle.sc_model_laws.specs.Vals.{assigned};
ghost use Rattle.sc_model_world_laws.specs.Rebuilt.{ancestors_said, in_order as ordered};
ghost use Rattle.sc_terms.specs.Tables.{tree};

use crate::listed::uid_at;
use crate::ordering::in_order;
use crate::saying::is_of;
use sc_clauses::Assignment;
use sc_footprint::Problem;
use sc_lists::{Seq, Text};
use sc_model_values::assigned_of;
use sc_names::Uid;
use sc_sorts::{Node, UnaryOp};
use std::alloc::{AllocError, Global};

/// Puts the entities of terms at the end of a list.
fn put_uids(
    alloc: Global,
    problem: &Problem<'_>,
    names: &[Text],
    terms: &[u64],
    uids: &mut Seq<Uid>,
) -> Result<(), AllocError>
    requires { AllByRecursion (λ n. n < length problem.now.nodes) terms.now }
    ensures { OnOk result (uids.new ≡ uids.old
        ++ map (λ n. uid_in problem.now names.now (tree problem.now.nodes n)) terms.now) }
{
    for term in terms {
        uids.push(uid_at(alloc, problem, names, *term)?)?;
    }
    Ok(())
}

/// Puts the entities that are assigned to a set.
fn put_assigned(
    alloc: Global,
    problem: &Problem<'_>,
    m: &Assignment,
    names: &[Text],
    term: u64,
    uids: &mut Seq<Uid>,
) -> Result<(), AllocError>
    requires { term < length problem.now.nodes }
    ensures { OnOk result (uids.new ≡ uids.old ++ map (uid_in problem.now names.now)
        (assigned (model problem.now m.now names.now) (tree problem.now.nodes term))) }
{
    let members = assigned_of(alloc, problem, m, term)?;
    put_uids(alloc, problem, names, members.as_slice(), uids)
}

/// Puts the ancestors of an entity that a closed term tells.
#[tactic(auto, unfolding(sc_model_values::specs::Models::model))]
fn put_ancestors(
    alloc: Global,
    problem: &Problem<'_>,
    m: &Assignment,
    names: &[Text],
    uid: &Uid,
    term: u64,
    ancestors: &mut Seq<Uid>,
) -> Result<(), AllocError>
    requires { IsListed problem.now term }
    ensures { OnOk result (ancestors.new ≡ ancestors.old
        ++ ancestors_said (model problem.now m.now names.now) uid.now (tree problem.now.nodes term)) }
{
    match problem.terms().node(term) {
        Node::One(UnaryOp::Ancestors(_), entity) => {
            if is_of(problem, names, *entity, uid) {
                put_assigned(alloc, problem, m, names, term, ancestors)
            } else {
                Ok(())
            }
        }
        _ => Ok(()),
    }
}

/// All ancestors of an entity that closed terms tell, one term after the other.
fn told_ancestors(
    alloc: Global,
    problem: &Problem<'_>,
    m: &Assignment,
    names: &[Text],
    uid: &Uid,
    closed: &[u64],
) -> Result<Seq<Uid>, AllocError>
    requires { AreListed problem.now closed.now }
    ensures { IfOk result (λ us. us ≡ flat_map (λ n. ancestors_said (model problem.now m.now names.now) uid.now
        (tree problem.now.nodes n)) closed.now) }
{
    let mut ancestors = Seq::new(alloc);
    for term in closed {
        put_ancestors(alloc, problem, m, names, uid, *term, &mut ancestors)?;
    }
    Ok(ancestors)
}

/// The ancestors of an entity that closed terms tell, ascending, each once.
pub(crate) fn ancestors_of(
    alloc: Global,
    problem: &Problem<'_>,
    m: &Assignment,
    names: &[Text],
    uid: &Uid,
    closed: &[u64],
) -> Result<Seq<Uid>, AllocError>
    requires { AreListed problem.now closed.now }
    ensures { IfOk result (λ us. us ≡ ordered uid_cmp (flat_map
        (ancestors_said (model problem.now m.now names.now) uid.now) (map (tree problem.now.nodes) closed.now))) }
{
    let ancestors = told_ancestors(alloc, problem, m, names, uid, closed)?;
    in_order(alloc, ancestors.into_vec())
}
