//! Instances of rules on sets, ancestors and keys that an assignment of all atoms may break.

use crate::look::Look;
use sc_clauses::Instance;
use sc_rule_instances::{EntityRule, SetRule, above, find, keys, members};
use sc_sorts::{BinaryOp, Node, UnaryOp};
use sc_suggestions::Told;
use std::alloc::AllocError;

/// The number of the closed term that picks from two closed sets.
fn pick_of(look: &Look<'_, '_>, op: BinaryOp, one: u64, other: u64) -> Option<u64> {
    let s = look.problem.term(one)?;
    let t = look.problem.term(other)?;
    look.problem
        .number_of(find(look.problem, Node::Two(op, s, t))?)
}

/// The number of a written set's member at a place; none past the last, and none of another set.
fn written_member(look: &Look<'_, '_>, set: u64, place: u64) -> Option<u64> {
    let s = look.problem.term(set)?;
    let parts = members(look.problem, s)?;
    let part = parts.get(place as usize)?;
    look.problem.number_of(part.1)
}

/// How many members a written set has; none of another set.
fn written_count(look: &Look<'_, '_>, set: u64) -> Option<u64> {
    let s = look.problem.term(set)?;
    Some(members(look.problem, s)?.len() as u64)
}

// ---- inclusions

/// Puts those by which a set is within another.
pub(crate) fn put_within(
    look: &Look<'_, '_>,
    one: u64,
    other: u64,
    found: &mut Vec<Instance>,
) -> Result<(), AllocError> {
    for told in look.tolds.of_set(one) {
        if told.holds && look.is_member(told.candidate, other) == Some(false) {
            look.put_set(SetRule::Se4(one, other, told.candidate), found)?;
        }
    }
    let Some(count) = written_count(look, one) else {
        return Ok(());
    };
    for place in 0..count {
        let Some(member) = written_member(look, one, place) else {
            return Ok(());
        };
        if look.is_member(member, other) == Some(false) {
            look.put_set(SetRule::Se9(one, other, place), found)?;
        }
    }
    Ok(())
}

/// Puts those by which a set isn't within another.
pub(crate) fn put_not_within(
    look: &Look<'_, '_>,
    one: u64,
    other: u64,
    found: &mut Vec<Instance>,
) -> Result<(), AllocError> {
    if let Some(count) = written_count(look, one) {
        look.put_set(SetRule::Se9(one, other, count), found)?;
    }
    let Some(pick) = pick_of(look, BinaryOp::DifferencePick, one, other) else {
        return Ok(());
    };
    if look.is_member(pick, one) == Some(false) {
        look.put_set(SetRule::Se5(one, other, 0), found)?;
    }
    if look.is_member(pick, other) == Some(true) {
        look.put_set(SetRule::Se5(one, other, 1), found)?;
    }
    Ok(())
}

// ---- common members

/// How many members the one of two sets has that tells of common ones: the first that is written.
fn telling_count(look: &Look<'_, '_>, one: u64, other: u64) -> Option<u64> {
    match written_count(look, one) {
        Some(count) => Some(count),
        None => written_count(look, other),
    }
}

/// Puts those by which two sets have a member in common.
pub(crate) fn put_shared(
    look: &Look<'_, '_>,
    one: u64,
    other: u64,
    found: &mut Vec<Instance>,
) -> Result<(), AllocError> {
    if let Some(count) = telling_count(look, one, other) {
        look.put_set(SetRule::Se10(one, other, count), found)?;
    }
    let Some(pick) = pick_of(look, BinaryOp::CommonPick, one, other) else {
        return Ok(());
    };
    if look.is_member(pick, one) == Some(false) {
        look.put_set(SetRule::Se6(one, other, 0), found)?;
    }
    if look.is_member(pick, other) == Some(false) {
        look.put_set(SetRule::Se6(one, other, 1), found)?;
    }
    Ok(())
}

/// Puts those by which two sets have no member in common.
pub(crate) fn put_apart(
    look: &Look<'_, '_>,
    one: u64,
    other: u64,
    found: &mut Vec<Instance>,
) -> Result<(), AllocError> {
    for told in look.tolds.of_set(one) {
        if told.holds && look.is_member(told.candidate, other) == Some(true) {
            look.put_set(SetRule::Se7(one, other, told.candidate), found)?;
        }
    }
    let Some(count) = telling_count(look, one, other) else {
        return Ok(());
    };
    for place in 0..count {
        look.put_set(SetRule::Se10(one, other, place), found)?;
    }
    Ok(())
}

// ---- members

/// Puts those by which a term is a member of a written set or not.
pub(crate) fn put_listed(
    look: &Look<'_, '_>,
    told: Told,
    found: &mut Vec<Instance>,
) -> Result<(), AllocError> {
    let Some(count) = written_count(look, told.set) else {
        return Ok(());
    };
    if told.holds {
        return look.put_set(SetRule::Se2(told.candidate, told.set), found);
    }
    for place in 0..count {
        let Some(member) = written_member(look, told.set, place) else {
            return Ok(());
        };
        if member == told.candidate || look.are_equal(told.candidate, member) == Some(true) {
            look.put_set(SetRule::Se3(told.candidate, told.set, place), found)?;
        }
    }
    Ok(())
}

/// Puts those by which two equal terms are members of the same sets.
fn put_members(
    look: &Look<'_, '_>,
    one: u64,
    other: u64,
    found: &mut Vec<Instance>,
) -> Result<(), AllocError> {
    for told in look.tolds.of_candidate(one) {
        if told.holds && look.is_member(other, told.set) == Some(false) {
            look.put_set(SetRule::Se1(one, other, told.set), found)?;
        }
    }
    Ok(())
}

// ---- ancestors and keys

/// The set that has of an entity what a set has of another one: its ancestors of the same type, or its keys.
fn like_set(look: &Look<'_, '_>, set: u64, entity: u64) -> Option<u64> {
    let s = look.problem.term(set)?;
    let e = look.problem.term(entity)?;
    match look.problem.terms().node(s) {
        Node::One(UnaryOp::Ancestors(sort), _) => {
            look.problem.number_of(above(look.problem, sort, e)?)
        }
        Node::One(UnaryOp::Keys, _) => look.problem.number_of(keys(look.problem, e)?),
        _ => None,
    }
}

/// Puts those by which the members of a set of one entity are in the like set of another, which equals the one or,
/// where this is an ancestor, is below it.
fn put_like(
    look: &Look<'_, '_>,
    set: u64,
    entity: u64,
    ancestor: Option<u64>,
    found: &mut Vec<Instance>,
) -> Result<(), AllocError> {
    let Some(like) = like_set(look, set, entity) else {
        return Ok(());
    };
    for told in look.tolds.of_set(set) {
        if told.holds && look.is_member(told.candidate, like) == Some(false) {
            let rule = match ancestor {
                None => EntityRule::En2(told.candidate, set, like),
                Some(ancestor) => EntityRule::En5(entity, ancestor, told.candidate, set),
            };
            look.put_entity(rule, found)?;
        }
    }
    Ok(())
}

/// Puts those of the sets of one entity that are to be within those of another.
fn put_sets(
    look: &Look<'_, '_>,
    one: u64,
    entity: u64,
    ancestor: Option<u64>,
    found: &mut Vec<Instance>,
) -> Result<(), AllocError> {
    for owned in look.tolds.sets_of(one) {
        put_like(look, owned.1, entity, ancestor, found)?;
    }
    Ok(())
}

/// Puts those by which two equal terms have the same members, ancestors and keys, and are members of the same sets.
pub(crate) fn put_same(
    look: &Look<'_, '_>,
    one: u64,
    other: u64,
    found: &mut Vec<Instance>,
) -> Result<(), AllocError> {
    put_members(look, one, other, found)?;
    put_members(look, other, one, found)?;
    put_sets(look, one, other, None, found)?;
    put_sets(look, other, one, None, found)
}

/// The entity whose ancestors a set is, by its number.
fn below(look: &Look<'_, '_>, set: u64) -> Option<u64> {
    let s = look.problem.term(set)?;
    match look.problem.terms().node(s) {
        Node::One(UnaryOp::Ancestors(_), e) => look.problem.number_of(*e),
        _ => None,
    }
}

/// Puts those by which what is above an ancestor is above the entity.
pub(crate) fn put_above(
    look: &Look<'_, '_>,
    told: Told,
    found: &mut Vec<Instance>,
) -> Result<(), AllocError> {
    if !told.holds {
        return Ok(());
    }
    let Some(entity) = below(look, told.set) else {
        return Ok(());
    };
    if entity == told.candidate {
        return look.put_entity(EntityRule::En4(entity), found);
    }
    put_sets(look, told.candidate, entity, Some(told.candidate), found)
}
