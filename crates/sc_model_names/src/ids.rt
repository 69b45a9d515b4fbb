//! The ids of entities.
ghost use Rattle.std.specs.Prelude.{◌≡◌, ◌&&◌, ◌<◌, length, map, IfOk};
ghost use Rattle.std.specs.Option.{option_copied};
ghost use Rattle.sc_model_names.specs.Models.{truth_in};
ghost use Rattle.sc_model_names.specs.Ids.{is_entity as is_entity_term, entities as entities_of, id_entries, is_same as is_same_term, next_id as id_after, identified, ids_of as entity_ids};
ghost use Rattle.sc_model_laws.specs.Names.{literal_id, name_in};
ghost use Rattle.sc_model_names.specs.Numbers.{AreIn, HaveTerms, named_terms};
ghost use Rattle.sc_terms.specs.Tables.{tree};

use crate::numerals::least_id;
use crate::truth::is_equal;
use sc_clauses::Assignment;
use sc_footprint::Problem;
use sc_lists::{Seq, Text};
use sc_rule_instances::is_one_sort;
use sc_sorts::{Leaf, Literal, Node, Sort};
use std::alloc::{AllocError, Global};

fn is_entity(problem: &Problem<'_>, n: u64) -> bool
    requires { n < length problem.now.nodes }
    ensures { result ≡ is_entity_term (tree problem.now.nodes n) }
{
    matches!(problem.terms().sort(n), Sort::Entity(_, _))
}

/// Those of some terms that are entities.
#[tactic(auto, unfolding(crate::specs::Ids::entities))]
fn entities_among(
    alloc: Global,
    problem: &Problem<'_>,
    numbers: &[u64],
) -> Result<Seq<u64>, AllocError>
    requires { AreIn problem.now.nodes numbers.now }
    ensures value { IfOk result (λ ns. map (tree problem.now.nodes) ns
        ≡ entities_of (map (tree problem.now.nodes) numbers.now)) }
    ensures within { IfOk result (λ ns. AreIn problem.now.nodes ns) }
{
    let mut entities = Seq::new(alloc);
    let mut rest = numbers;
    while let Some((n, later)) = rest.split_first() {
        if is_entity(problem, *n) {
            entities.push(*n)?;
        }
        rest = later;
    }
    Ok(entities)
}

/// The id that a literal says. None exactly of what is no literal of an entity.
fn id_at<'a>(problem: &'a Problem<'_>, n: u64) -> Option<&'a Text>
    requires { n < length problem.now.nodes }
    ensures { option_copied result ≡ literal_id (tree problem.now.nodes n) }
{
    match problem.terms().node(n) {
        Node::Leaf(Leaf::Literal(Literal::Entity(uid, _))) => Some(&uid.id),
        _ => None,
    }
}

/// The literals of some entities, with their ids.
#[tactic(auto, unfolding(crate::specs::Ids::id_entries))]
fn literals_of(
    alloc: Global,
    problem: &Problem<'_>,
    entities: &[u64],
) -> Result<Seq<(u64, Text)>, AllocError>
    requires { AreIn problem.now.nodes entities.now }
    ensures value { IfOk result (λ es. named_terms problem.now.nodes es ≡ id_entries
        (map (tree problem.now.nodes) entities.now)) }
    ensures within { IfOk result (λ es. HaveTerms problem.now.nodes es) }
{
    let mut entries = Seq::new(alloc);
    let mut rest = entities;
    while let Some((n, later)) = rest.split_first() {
        if let Some(id) = id_at(problem, *n) {
            let own = id.try_clone(alloc)?;
            entries.push((*n, own))?;
        }
        rest = later;
    }
    Ok(entries)
}

/// Whether two terms of one sort are equal under an assignment.
#[tactic(auto, using(crate::proofs::TruthLaws::both_exchanged))]
fn is_same(problem: &Problem<'_>, m: &Assignment, x: u64, y: u64) -> bool
    requires x_in { x < length problem.now.nodes }
    requires y_in { y < length problem.now.nodes }
    ensures { result ≡ is_same_term (truth_in problem.now m.now) (tree problem.now.nodes x) (tree problem.now.nodes y) }
{
    is_equal(problem, m, x, y) && is_one_sort(problem, x, y)
}

/// The id of an equal entity of the sort, if one has an id.
#[tactic(auto, unfolding(sc_model_laws::specs::Names::name_in))]
pub(crate) fn id_in<'a>(
    problem: &Problem<'_>,
    m: &Assignment,
    entries: &'a [(u64, Text)],
    x: u64,
) -> Option<&'a Text>
    requires entries_in { HaveTerms problem.now.nodes entries.now }
    requires x_in { x < length problem.now.nodes }
    ensures { option_copied result ≡ name_in (is_same_term (truth_in problem.now m.now))
        (named_terms problem.now.nodes entries.now) (tree problem.now.nodes x) }
{
    let mut rest = entries;
    while let Some((entry, later)) = rest.split_first() {
        if is_same(problem, m, x, entry.0) {
            return Some(&entry.1);
        }
        rest = later;
    }
    None
}

/// That id, or else the least number that is no id of the sort yet.
fn next_id(
    alloc: Global,
    problem: &Problem<'_>,
    m: &Assignment,
    entries: &[(u64, Text)],
    x: u64,
) -> Result<Text, AllocError>
    requires entries_in { HaveTerms problem.now.nodes entries.now }
    requires x_in { x < length problem.now.nodes }
    ensures { IfOk result (λ t. t ≡ id_after (truth_in problem.now m.now) (named_terms problem.now.nodes entries.now)
        (tree problem.now.nodes x)) }
{
    match id_in(problem, m, entries, x) {
        Some(id) => id.try_clone(alloc),
        None => least_id(alloc, problem, entries, x),
    }
}

/// Literals first, and then each entity in its order.
#[tactic(auto, unfolding(crate::specs::Ids::identified))]
fn identify(
    alloc: Global,
    problem: &Problem<'_>,
    m: &Assignment,
    entities: &[u64],
) -> Result<Seq<(u64, Text)>, AllocError>
    requires { AreIn problem.now.nodes entities.now }
    ensures value { IfOk result (λ es. named_terms problem.now.nodes es ≡ identified (truth_in problem.now m.now)
        (id_entries (map (tree problem.now.nodes) entities.now)) (map (tree problem.now.nodes) entities.now)) }
    ensures within { IfOk result (λ es. HaveTerms problem.now.nodes es) }
{
    let mut entries = literals_of(alloc, problem, entities)?;
    let mut rest = entities;
    while let Some((x, later)) = rest.split_first() {
        let id = next_id(alloc, problem, m, entries.as_slice(), *x)?;
        entries.push((*x, id))?;
        rest = later;
    }
    Ok(entries)
}

/// The ids of the entities among some terms, by their numbers in the table of terms.
pub(crate) fn ids_of(
    alloc: Global,
    problem: &Problem<'_>,
    m: &Assignment,
    numbers: &[u64],
) -> Result<Seq<(u64, Text)>, AllocError>
    requires { AreIn problem.now.nodes numbers.now }
    ensures value { IfOk result (λ es. named_terms problem.now.nodes es ≡ entity_ids (truth_in problem.now m.now)
        (map (tree problem.now.nodes) numbers.now)) }
    ensures within { IfOk result (λ es. HaveTerms problem.now.nodes es) }
{
    let entities = entities_among(alloc, problem, numbers)?;
    identify(alloc, problem, m, entities.as_slice())
}
