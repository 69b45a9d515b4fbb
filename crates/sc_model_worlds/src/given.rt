//! The entities that are given.
ghost use Rattle.std.specs.Prelude.{◌≡◌, ◌++◌, ◌<◌, flat_map, length, map, IfOk, OnOk};
ghost use Rattle.sc_model_worlds.specs.Listed.{AreListed, IsListed};
ghost use Rattle.sc_model_worlds.specs.Saying.{uid_in};
ghost use Rattle.sc_model_worlds.specs.Telling.{given_sort};
ghost use Rattle.sc_model_values.specs.Models.{model};
ghost use Rattle.sc_model_world_laws.specs.Rebuilt.{entity_by, entity_said, given_from, given_of as given_said};
ghost use Rattle.sc_sorts.specs.declared.sort.Sort.{out-Sort};
ghost use Rattle.sc_terms.specs.Tables.{tree};
ghost use Rattle.sc_terms.specs.TreeSorts.{tree_sort};

use crate::entity::data_of;
use crate::listed::{closed_of, uid_at};
use sc_clauses::Assignment;
use sc_footprint::Problem;
use sc_lists::{Seq, Text};
use sc_names::Uid;
use sc_sorts::Sort;
use sc_world::Store;
use std::alloc::{AllocError, Global};

/// Whether the entities of a sort are given: those of types that list none, which are neither of actions nor
/// enumerated.
#[tactic(auto, using(crate::proofs::GivenLaws::of_entity))]
fn are_given(sort: &Sort) -> bool
    ensures { result ≡ given_sort (out-Sort sort.now) }
{
    match sort {
        Sort::Entity(_, choices) => choices.is_empty(),
        _ => false,
    }
}

/// Puts the entity of a term, if it is one that is given.
#[tactic(auto, using(crate::proofs::GivenLaws::put_given, crate::proofs::GivenLaws::put_none))]
fn put_entity(
    alloc: Global,
    problem: &Problem<'_>,
    names: &[Text],
    term: u64,
    uids: &mut Seq<Uid>,
) -> Result<(), AllocError>
    requires { IsListed problem.now term }
    ensures { OnOk result (uids.new ≡ uids.old ++ entity_by (out-Sort (tree_sort (tree problem.now.nodes term)))
        (uid_in problem.now names.now (tree problem.now.nodes term))) }
{
    if are_given(problem.terms().sort(term)) {
        uids.push(uid_at(alloc, problem, names, term)?)
    } else {
        Ok(())
    }
}

/// The entities of closed terms that are given, in the order of these terms.
fn entities_of(
    alloc: Global,
    problem: &Problem<'_>,
    names: &[Text],
    closed: &[u64],
) -> Result<Seq<Uid>, AllocError>
    requires { AreListed problem.now closed.now }
    ensures { IfOk result (λ us. us ≡ flat_map (λ n. entity_by (out-Sort (tree_sort (tree problem.now.nodes n)))
        (uid_in problem.now names.now (tree problem.now.nodes n))) closed.now) }
{
    let mut uids = Seq::new(alloc);
    for term in closed {
        put_entity(alloc, problem, names, *term, &mut uids)?;
    }
    Ok(uids)
}

/// A store of these entities, each with what closed terms tell of it.
#[tactic(auto, using(crate::proofs::GivenLaws::given_all, crate::proofs::GivenLaws::given_step, crate::proofs::GivenLaws::given_done))]
fn stored_of(
    alloc: Global,
    problem: &Problem<'_>,
    m: &Assignment,
    names: &[Text],
    uids: &[Uid],
    closed: &[u64],
) -> Result<Store, AllocError>
    requires listed { AreListed problem.now closed.now }
    requires all { closed.now ≡ problem.now.closed }
    ensures { IfOk result (λ es. es ≡ given_from problem.now.schema (model problem.now m.now names.now) uids.now) }
{
    let mut given = Store::new(alloc);
    let mut rest = uids;
    while let Some((uid, earlier)) = rest.split_last() {
        let copy = uid.try_clone(alloc)?;
        let entity = data_of(alloc, problem, m, names, uid, closed)?;
        given.insert(copy, entity)?;
        rest = earlier;
    }
    Ok(given)
}

/// The entities of closed terms whose types list none, with what closed terms tell of them
/// under an assignment and with these names of closed terms, by their numbers from 1 on. Want of
/// memory is its one fault.
pub fn given_of(
    alloc: Global,
    problem: &Problem<'_>,
    m: &Assignment,
    names: &[Text],
) -> Result<Store, AllocError>
    ensures { IfOk result (λ es. es ≡ given_said problem.now.schema (model problem.now m.now names.now)) }
{
    let closed = closed_of(alloc, problem)?;
    let numbers = closed.as_slice();
    let uids = entities_of(alloc, problem, names, numbers)?;
    stored_of(alloc, problem, m, names, uids.as_slice(), numbers)
}
