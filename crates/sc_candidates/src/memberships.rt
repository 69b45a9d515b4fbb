//! What goes with the candidates of sets: their equations with each other, and whether they are members
//! of the sets to which their set flows or with which it is linked.
ghost use Rattle.std.specs.Prelude.{◌<◌, [], ◌∷◌, length, map, flat_map, OnOk};
ghost use Rattle.std.specs.List.{AllByRecursion};
ghost use Rattle.sc_terms.specs.Tables.{tree, Keeps};
ghost use Rattle.sc_rule_laws.specs.Terms.{member as member_of};
ghost use Rattle.sc_closure_rules.specs.Closure.{memberships, members_by, are_linked as linked};
ghost use Rattle.sc_closure_rules.specs.Making.{Puts, stood};
ghost use Rattle.sc_candidates.specs.Crowds.{IsCrowd, IsCrowdWithin, AreCrowds, met_crowd, crowd_told, linked_told, set_of, set_told, flow_of, flow_told};
ghost use Rattle.sc_candidates.specs.Equations.{Equates};

use crate::crowds::Crowd;
use crate::equations::equate_members;
use sc_closure_rules::are_linked;
use sc_terms::Terms;
use std::alloc::AllocError;

/// Puts whether a term is a member of a set.
pub(crate) fn put_member(
    terms: &mut Terms,
    term: u64,
    set: u64,
    numbers: &mut Vec<u64>,
) -> Result<(), AllocError>
    requires term_in { term < length terms.old }
    requires set_in { set < length terms.old }
    ensures ok { OnOk result (Puts terms.old terms.new numbers.old.items numbers.new.items (member_of (tree terms.old
        term) (tree terms.old set) ∷ [])) }
    ensures kept { Keeps terms.old terms.new }
{
    let m = terms.member(term, set)?;
    numbers.push(m)?;
    Ok(())
}

/// Puts whether a term is a member of each of these sets.
fn put_in_each(
    terms: &mut Terms,
    term: u64,
    sets: &[u64],
    numbers: &mut Vec<u64>,
) -> Result<(), AllocError>
    requires term_in { term < length terms.old }
    requires sets_in { AllByRecursion (λ n. n < length terms.old) sets.now }
    ensures ok { OnOk result (Puts terms.old terms.new numbers.old.items numbers.new.items (map (member_of
        (tree terms.old term)) (stood terms.old sets.now))) }
    ensures kept { Keeps terms.old terms.new }
{
    for set in sets {
        let m = terms.member(term, *set)?;
        numbers.push(m)?;
    }
    Ok(())
}

/// Puts whether each of these is a member of a set.
pub(crate) fn put_each_in(
    terms: &mut Terms,
    members: &[u64],
    set: u64,
    numbers: &mut Vec<u64>,
) -> Result<(), AllocError>
    requires members_in { AllByRecursion (λ n. n < length terms.old) members.now }
    requires set_in { set < length terms.old }
    ensures ok { OnOk result (Puts terms.old terms.new numbers.old.items numbers.new.items (memberships
        (stood terms.old members.now) (tree terms.old set))) }
    ensures kept { Keeps terms.old terms.new }
{
    for member in members {
        let m = terms.member(*member, set)?;
        numbers.push(m)?;
    }
    Ok(())
}

// ---- a candidate

/// Puts what goes with a candidate and its set's crowd: its equations with the others, and whether it
/// is a member of each set to which the set flows.
fn meet_own(
    terms: &mut Terms,
    crowd: &Crowd,
    term: u64,
    numbers: &mut Vec<u64>,
) -> Result<(), AllocError>
    requires crowd_in { IsCrowd terms.old crowd.now }
    requires term_in { term < length terms.old }
    ensures ok { OnOk result (Equates terms.old terms.new numbers.old.items numbers.new.items (met_crowd terms.old
        (tree terms.old term) crowd.now) (tree terms.old term)) }
    ensures kept { Keeps terms.old terms.new }
{
    equate_members(
        terms,
        crowd.members.as_slice(),
        crowd.others.as_slice(),
        term,
        numbers,
    )?;
    put_in_each(terms, term, crowd.targets.as_slice(), numbers)
}

/// Puts what goes with a candidate of a set and a crowd, which is nothing but for the set's.
fn meet_crowd(
    terms: &mut Terms,
    crowd: &Crowd,
    set: u64,
    term: u64,
    numbers: &mut Vec<u64>,
) -> Result<(), AllocError>
    requires crowd_in { IsCrowd terms.old crowd.now }
    requires set_in { set < length terms.old }
    requires term_in { term < length terms.old }
    ensures ok { OnOk result (Equates terms.old terms.new numbers.old.items numbers.new.items (crowd_told terms.old
        (tree terms.old term) (tree terms.old set) crowd.now) (tree terms.old term)) }
    ensures kept { Keeps terms.old terms.new }
{
    if terms.is_same(crowd.set, set) {
        meet_own(terms, crowd, term, numbers)
    } else {
        Ok(())
    }
}

/// Puts what goes with a candidate of a set and each of these crowds.
pub fn meet_crowds(
    terms: &mut Terms,
    crowds: &[Crowd],
    set: u64,
    term: u64,
    numbers: &mut Vec<u64>,
) -> Result<(), AllocError>
    requires crowds_in { AreCrowds terms.old crowds.now }
    requires set_in { set < length terms.old }
    requires term_in { term < length terms.old }
    ensures ok { OnOk result (Equates terms.old terms.new numbers.old.items numbers.new.items (flat_map (crowd_told
        terms.old (tree terms.old term) (tree terms.old set)) crowds.now) (tree terms.old term)) }
    ensures kept { Keeps terms.old terms.new }
{
    for crowd in crowds {
        meet_crowd(terms, crowd, set, term, numbers)?;
    }
    Ok(())
}

/// Puts whether a candidate of a set is a member of another, if the two are linked.
fn put_linked(
    terms: &mut Terms,
    other: u64,
    set: u64,
    term: u64,
    numbers: &mut Vec<u64>,
) -> Result<(), AllocError>
    requires other_in { other < length terms.old }
    requires set_in { set < length terms.old }
    requires term_in { term < length terms.old }
    ensures ok { OnOk result (Puts terms.old terms.new numbers.old.items numbers.new.items (members_by
        (linked (tree terms.old set) (tree terms.old other)) (tree terms.old term)
        (tree terms.old other))) }
    ensures kept { Keeps terms.old terms.new }
{
    if are_linked(terms, set, other) {
        put_member(terms, term, other, numbers)
    } else {
        Ok(())
    }
}

/// Puts whether a candidate of a set is a member of each of these with which the set is linked.
pub fn meet_linked(
    terms: &mut Terms,
    sets: &[u64],
    set: u64,
    term: u64,
    numbers: &mut Vec<u64>,
) -> Result<(), AllocError>
    requires sets_in { AllByRecursion (λ n. n < length terms.old) sets.now }
    requires set_in { set < length terms.old }
    requires term_in { term < length terms.old }
    ensures ok { OnOk result (Puts terms.old terms.new numbers.old.items numbers.new.items (linked_told
        (tree terms.old term) (tree terms.old set) (stood terms.old sets.now))) }
    ensures kept { Keeps terms.old terms.new }
{
    for other in sets {
        put_linked(terms, *other, set, term, numbers)?;
    }
    Ok(())
}

// ---- a set

/// Puts whether the candidates of a crowd's set are members of another, if the two are linked.
fn meet_linked_crowd(
    terms: &mut Terms,
    crowd: &Crowd,
    set: u64,
    numbers: &mut Vec<u64>,
) -> Result<(), AllocError>
    requires crowd_in { IsCrowdWithin (length terms.old) crowd.now }
    requires set_in { set < length terms.old }
    ensures ok { OnOk result (Puts terms.old terms.new numbers.old.items numbers.new.items (set_of terms.old
        (tree terms.old set) crowd.now)) }
    ensures kept { Keeps terms.old terms.new }
{
    if are_linked(terms, crowd.set, set) {
        put_each_in(terms, crowd.members.as_slice(), set, numbers)
    } else {
        Ok(())
    }
}

/// Puts whether the candidates of each set that is linked with a new one are members of that.
pub fn meet_set(
    terms: &mut Terms,
    crowds: &[Crowd],
    set: u64,
    numbers: &mut Vec<u64>,
) -> Result<(), AllocError>
    requires crowds_in { AllByRecursion (IsCrowdWithin (length terms.old)) crowds.now }
    requires set_in { set < length terms.old }
    ensures ok { OnOk result (Puts terms.old terms.new numbers.old.items numbers.new.items (set_told terms.old
        (tree terms.old set) crowds.now)) }
    ensures kept { Keeps terms.old terms.new }
{
    for crowd in crowds {
        meet_linked_crowd(terms, crowd, set, numbers)?;
    }
    Ok(())
}

// ---- a flow

/// Puts whether the candidates of a set are members of one to which it flows, if the crowd is the set's.
fn meet_flow_of(
    terms: &mut Terms,
    crowd: &Crowd,
    set: u64,
    target: u64,
    numbers: &mut Vec<u64>,
) -> Result<(), AllocError>
    requires crowd_in { IsCrowdWithin (length terms.old) crowd.now }
    requires set_in { set < length terms.old }
    requires target_in { target < length terms.old }
    ensures ok { OnOk result (Puts terms.old terms.new numbers.old.items numbers.new.items (flow_of terms.old
        (tree terms.old set) (tree terms.old target) crowd.now)) }
    ensures kept { Keeps terms.old terms.new }
{
    if terms.is_same(crowd.set, set) {
        put_each_in(terms, crowd.members.as_slice(), target, numbers)
    } else {
        Ok(())
    }
}

/// Puts whether the candidates of a set are members of one to which it flows.
pub fn meet_flow(
    terms: &mut Terms,
    crowds: &[Crowd],
    set: u64,
    target: u64,
    numbers: &mut Vec<u64>,
) -> Result<(), AllocError>
    requires crowds_in { AllByRecursion (IsCrowdWithin (length terms.old)) crowds.now }
    requires set_in { set < length terms.old }
    requires target_in { target < length terms.old }
    ensures ok { OnOk result (Puts terms.old terms.new numbers.old.items numbers.new.items (flow_told terms.old
        (tree terms.old set) (tree terms.old target) crowds.now)) }
    ensures kept { Keeps terms.old terms.new }
{
    for crowd in crowds {
        meet_flow_of(terms, crowd, set, target, numbers)?;
    }
    Ok(())
}
