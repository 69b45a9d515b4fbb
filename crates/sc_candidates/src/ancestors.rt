//! What goes with the ancestors of entities. An entity may be among the ancestors of another that are of
//! its type, and then its own ancestors are among that one's.
ghost use Rattle.std.specs.Prelude.{◌≡◌, ◌==◌, ◌<◌, length, flat_map, option_map, IfOk, IfSome, OnOk};
ghost use Rattle.std.specs.List.{AllByRecursion};
ghost use Rattle.std.specs.Option.{option_copied};
ghost use Rattle.sc_terms.specs.Tables.{tree, Keeps, StandsFor};
ghost use Rattle.sc_rule_laws.specs.Terms.{choices_in};
ghost use Rattle.sc_closure_rules.specs.Closure.{memberships, ancestors_of};
ghost use Rattle.sc_closure_rules.specs.Making.{Puts, stood};
ghost use Rattle.sc_candidates.specs.Crowds.{IsCrowdWithin};
ghost use Rattle.sc_candidates.specs.Ancestors.{entity_in, own_in, own_of, may_hold, held_entity, unlisted, up_entity as up_entity_of, up_of, ups_of, entity_of, both_told, entity_told};

use crate::crowds::Crowd;
use crate::memberships::{put_each_in, put_member};
use sc_sorts::{Node, Sort, UnaryOp, try_clone};
use sc_terms::Terms;
use std::alloc::{AllocError, Global};

/// The entity whose ancestors a term is. None exactly of another term.
fn descendant(terms: &Terms, n: u64) -> Option<u64>
    requires { n < length terms.now }
    ensures within { IfSome result (λ e. e < length terms.now) }
    ensures is { option_map (tree terms.now) result ≡ entity_in (tree terms.now n) }
{
    match terms.node(n) {
        Node::One(UnaryOp::Ancestors(_), entity) => Some(*entity),
        _ => None,
    }
}

/// The sort of the ancestors that a term is. None exactly of another term.
fn ancestor_sort(terms: &Terms, n: u64) -> Option<&Sort>
    requires { n < length terms.now }
    ensures { option_copied result ≡ own_in (tree terms.now n) }
{
    match terms.node(n) {
        Node::One(UnaryOp::Ancestors(own), _) => Some(own),
        _ => None,
    }
}

/// Whether an entity may be among these ancestors.
fn is_under(terms: &Terms, entity: u64, above: u64) -> bool
    requires entity_in { entity < length terms.now }
    requires above_in { above < length terms.now }
    ensures { result ≡ may_hold (tree terms.now above) (tree terms.now entity) }
{
    match ancestor_sort(terms, above) {
        Some(own) => terms.sort(entity) == own,
        None => false,
    }
}

/// The entity of ancestors that may be among others.
fn entity_under(terms: &Terms, below: u64, above: u64) -> Option<u64>
    requires below_in { below < length terms.now }
    requires above_in { above < length terms.now }
    ensures within { IfSome result (λ e. e < length terms.now) }
    ensures is { option_map (tree terms.now) result ≡ held_entity (tree terms.now above) (tree terms.now below) }
{
    match descendant(terms, below) {
        Some(entity) => is_under(terms, entity, above).then_some(entity),
        None => None,
    }
}

/// Whether a term is of a sort that lists no entities.
fn is_unlisted(terms: &Terms, n: u64) -> bool
    requires { n < length terms.now }
    ensures { result ≡ (length (choices_in (tree terms.now n)) == 0) }
{
    match terms.sort(n) {
        Sort::Entity(_, choices) => choices.as_slice().is_empty(),
        _ => true,
    }
}

/// The entity of ancestors, if it is of a sort that lists none.
fn unlisted_entity(terms: &Terms, above: u64) -> Option<u64>
    requires { above < length terms.now }
    ensures within { IfSome result (λ e. e < length terms.now) }
    ensures is { option_map (tree terms.now) result ≡ unlisted (entity_in (tree terms.now above)) }
{
    match descendant(terms, above) {
        Some(entity) => is_unlisted(terms, entity).then_some(entity),
        None => None,
    }
}

/// The entity of some ancestors, if the entity of others may be among them, and is no action.
fn up_entity(terms: &Terms, below: u64, above: u64) -> Option<u64>
    requires below_in { below < length terms.now }
    requires above_in { above < length terms.now }
    ensures within { IfSome result (λ e. e < length terms.now) }
    ensures is { option_map (tree terms.now) result ≡ up_entity_of (tree terms.now below) (tree terms.now above) }
{
    match entity_under(terms, below, above) {
        Some(_) => unlisted_entity(terms, above),
        None => None,
    }
}

/// A copy of the sort of the ancestors that a term is, and of another term that of truth values.
fn own_sort(alloc: Global, terms: &Terms, n: u64) -> Result<Sort, AllocError>
    requires { n < length terms.now }
    ensures { IfOk result (λ k. k ≡ own_of (tree terms.now n)) }
{
    match ancestor_sort(terms, n) {
        Some(own) => try_clone(alloc, own),
        None => Ok(Sort::Bool),
    }
}

/// The number of an entity's ancestors of the sort of another's.
fn ancestors_like(
    alloc: Global,
    terms: &mut Terms,
    entity: u64,
    below: u64,
) -> Result<u64, AllocError>
    requires entity_in { entity < length terms.old }
    requires below_in { below < length terms.old }
    ensures ok { IfOk result (λ n. StandsFor terms.new n (ancestors_of (own_of (tree terms.old below))
        (tree terms.old entity))) }
    ensures kept { Keeps terms.old terms.new }
{
    let own = own_sort(alloc, terms, below)?;
    terms.ancestors(entity, own)
}

/// Puts whether each of these is among an entity's ancestors of the sort of another's.
fn put_among(
    alloc: Global,
    terms: &mut Terms,
    entity: u64,
    below: u64,
    members: &[u64],
    numbers: &mut Vec<u64>,
) -> Result<(), AllocError>
    requires entity_in { entity < length terms.old }
    requires below_in { below < length terms.old }
    requires members_in { AllByRecursion (λ n. n < length terms.old) members.now }
    ensures ok { OnOk result (Puts terms.old terms.new numbers.old.items numbers.new.items (memberships
        (stood terms.old members.now) (ancestors_of (own_of (tree terms.old below)) (tree terms.old
        entity)))) }
    ensures kept { Keeps terms.old terms.new }
{
    let all = ancestors_like(alloc, terms, entity, below)?;
    put_each_in(terms, members, all, numbers)
}

/// Puts whether these candidates of one entity's ancestors are ancestors of another, of which the one
/// may be an ancestor.
fn put_up(
    alloc: Global,
    terms: &mut Terms,
    above: u64,
    below: u64,
    members: &[u64],
    numbers: &mut Vec<u64>,
) -> Result<(), AllocError>
    requires above_in { above < length terms.old }
    requires below_in { below < length terms.old }
    requires members_in { AllByRecursion (λ n. n < length terms.old) members.now }
    ensures ok { OnOk result (Puts terms.old terms.new numbers.old.items numbers.new.items (flat_map (λ x. up_of x
        (tree terms.old below) (tree terms.old above)) (stood terms.old members.now))) }
    ensures kept { Keeps terms.old terms.new }
{
    match up_entity(terms, below, above) {
        Some(entity) => put_among(alloc, terms, entity, below, members, numbers),
        None => Ok(()),
    }
}

/// Puts whether a candidate of an entity's ancestors is an ancestor of each other entity, of which that
/// may be an ancestor.
pub fn meet_above(
    alloc: Global,
    terms: &mut Terms,
    all_above: &[u64],
    set: u64,
    term: u64,
    numbers: &mut Vec<u64>,
) -> Result<(), AllocError>
    requires all_in { AllByRecursion (λ n. n < length terms.old) all_above.now }
    requires set_in { set < length terms.old }
    requires term_in { term < length terms.old }
    ensures ok { OnOk result (Puts terms.old terms.new numbers.old.items numbers.new.items (flat_map (up_of
        (tree terms.old term) (tree terms.old set)) (stood terms.old all_above.now))) }
    ensures kept { Keeps terms.old terms.new }
{
    for above in all_above {
        put_up(alloc, terms, *above, set, &[term], numbers)?;
    }
    Ok(())
}

/// Puts whether the entity of ancestors is among others, if it may be.
fn put_entity(
    terms: &mut Terms,
    above: u64,
    below: u64,
    numbers: &mut Vec<u64>,
) -> Result<(), AllocError>
    requires above_in { above < length terms.old }
    requires below_in { below < length terms.old }
    ensures ok { OnOk result (Puts terms.old terms.new numbers.old.items numbers.new.items (entity_of
        (tree terms.old above) (tree terms.old below))) }
    ensures kept { Keeps terms.old terms.new }
{
    match entity_under(terms, below, above) {
        Some(entity) => put_member(terms, entity, above, numbers),
        None => Ok(()),
    }
}

/// Puts whether the entities of two terms that are ancestors are among each other's.
fn put_both(
    terms: &mut Terms,
    above: u64,
    other: u64,
    numbers: &mut Vec<u64>,
) -> Result<(), AllocError>
    requires above_in { above < length terms.old }
    requires other_in { other < length terms.old }
    ensures ok { OnOk result (Puts terms.old terms.new numbers.old.items numbers.new.items (both_told
        (tree terms.old above) (tree terms.old other))) }
    ensures kept { Keeps terms.old terms.new }
{
    put_entity(terms, above, other, numbers)?;
    put_entity(terms, other, above, numbers)
}

/// Puts whether the entity of new ancestors and those of each of these are among each other's.
fn meet_entities(
    terms: &mut Terms,
    all_above: &[u64],
    above: u64,
    numbers: &mut Vec<u64>,
) -> Result<(), AllocError>
    requires all_in { AllByRecursion (λ n. n < length terms.old) all_above.now }
    requires above_in { above < length terms.old }
    ensures ok { OnOk result (Puts terms.old terms.new numbers.old.items numbers.new.items (flat_map (both_told
        (tree terms.old above)) (stood terms.old all_above.now))) }
    ensures kept { Keeps terms.old terms.new }
{
    for other in all_above {
        put_both(terms, above, *other, numbers)?;
    }
    Ok(())
}

/// Puts whether the candidates of the ancestors of each entity that may be among new ancestors are too.
fn meet_ancestors(
    alloc: Global,
    terms: &mut Terms,
    crowds: &[Crowd],
    above: u64,
    numbers: &mut Vec<u64>,
) -> Result<(), AllocError>
    requires crowds_in { AllByRecursion (IsCrowdWithin (length terms.old)) crowds.now }
    requires above_in { above < length terms.old }
    ensures ok { OnOk result (Puts terms.old terms.new numbers.old.items numbers.new.items (flat_map (ups_of terms.old
        (tree terms.old above)) crowds.now)) }
    ensures kept { Keeps terms.old terms.new }
{
    for crowd in crowds {
        put_up(
            alloc,
            terms,
            above,
            crowd.set,
            crowd.members.as_slice(),
            numbers,
        )?;
    }
    Ok(())
}

/// Puts what goes with new ancestors of an entity: whether each entity is one of them, whether it is one
/// of each entity's, and whether the ancestors of such an entity are.
pub fn meet_entity(
    alloc: Global,
    terms: &mut Terms,
    all_above: &[u64],
    crowds: &[Crowd],
    above: u64,
    numbers: &mut Vec<u64>,
) -> Result<(), AllocError>
    requires all_in { AllByRecursion (λ n. n < length terms.old) all_above.now }
    requires crowds_in { AllByRecursion (IsCrowdWithin (length terms.old)) crowds.now }
    requires above_in { above < length terms.old }
    ensures ok { OnOk result (Puts terms.old terms.new numbers.old.items numbers.new.items (entity_told terms.old
        crowds.now (stood terms.old all_above.now) (tree terms.old above))) }
    ensures kept { Keeps terms.old terms.new }
{
    meet_entities(terms, all_above, above, numbers)?;
    meet_ancestors(alloc, terms, crowds, above, numbers)
}
