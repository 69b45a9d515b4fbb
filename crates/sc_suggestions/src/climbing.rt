//! Instances of EN5 that lead up from an entity to one that it's known not to be in.

use indexmap::IndexMap;
use sc_clauses::{Instance, Lit};
use sc_footprint::Problem;
use sc_rule_instances::{EntityRule, write_entity};
use sc_sorts::{BinaryOp, Node, UnaryOp};
use std::alloc::{AllocError, Global};

/// That an entity is in another one, by the numbers of both and of the first one's ancestors.
#[derive(Clone, Copy)]
struct Membership {
    entity: u64,
    above: u64,
    ancestors: u64,
}

/// What is known of memberships, by the literals that tell them.
#[derive(Drop)]
struct Memberships {
    held: Vec<Membership>,
    refused: Vec<Membership>,
}

/// The membership that an atom is, if it is one of an entity in another.
fn membership_at(problem: &Problem<'_>, atom: u64) -> Option<Membership> {
    let Some(term) = problem.atom(atom) else {
        return None;
    };
    let Node::Two(BinaryOp::Member, above, set) = problem.terms().node(term) else {
        return None;
    };
    let Node::One(UnaryOp::Ancestors(_), entity) = problem.terms().node(*set) else {
        return None;
    };
    Some(Membership {
        entity: problem.number_of(*entity)?,
        above: problem.number_of(*above)?,
        ancestors: problem.number_of(*set)?,
    })
}

/// Whether one of these literals tells a membership.
fn tell_membership(problem: &Problem<'_>, lits: &[Lit]) -> bool {
    for lit in lits {
        if membership_at(problem, lit.atom).is_some() {
            return true;
        }
    }
    false
}

impl Memberships {
    /// What these literals tell.
    fn new(alloc: Global, problem: &Problem<'_>, lits: &[Lit]) -> Result<Memberships, AllocError> {
        let mut known = Memberships {
            held: Vec::new(alloc),
            refused: Vec::new(alloc),
        };
        for lit in lits {
            known.put(problem, *lit)?;
        }
        Ok(known)
    }

    fn put(&mut self, problem: &Problem<'_>, lit: Lit) -> Result<(), AllocError> {
        let Some(told) = membership_at(problem, lit.atom) else {
            return Ok(());
        };
        if lit.negated {
            self.refused.push(told)?;
        } else {
            self.held.push(told)?;
        }
        Ok(())
    }
}

/// Puts the entities that one is known to be in among those that were met, each with the place of the membership that
/// tells it. The memberships stand in the order of their entities.
fn step_up(
    held: &[Membership],
    entity: u64,
    met: &mut IndexMap<u64, usize>,
) -> Result<(), AllocError> {
    let first = held.partition_point(|membership| membership.entity < entity);
    for place in first..held.len() {
        let membership = held[place];
        if membership.entity != entity {
            break;
        }
        if !met.contains_key(&membership.above) {
            met.insert(membership.above, place)?;
        }
    }
    Ok(())
}

/// The entities that memberships lead up to from one, those that are met first in front.
fn climb(
    alloc: Global,
    held: &[Membership],
    from: u64,
) -> Result<IndexMap<u64, usize>, AllocError> {
    let mut met = IndexMap::new(alloc);
    step_up(held, from, &mut met)?;
    // Each of them was met by another membership.
    for done in 0..held.len() {
        let Some((entity, _)) = met.get_index(done) else {
            break;
        };
        let entity = *entity;
        step_up(held, entity, &mut met)?;
    }
    Ok(met)
}

/// The membership by which an entity was met.
fn last_step(held: &[Membership], met: &IndexMap<u64, usize>, entity: u64) -> Option<Membership> {
    let Some(place) = met.get(&entity) else {
        return None;
    };
    match held.get(*place) {
        Some(membership) => Some(*membership),
        None => None,
    }
}

/// Puts the instances by which an entity is in another one, which was met above it, the last one first: each gives
/// that the entity is in the next one on the way.
fn put_way(
    alloc: Global,
    held: &[Membership],
    met: &IndexMap<u64, usize>,
    refused: Membership,
    found: &mut Vec<Instance>,
) -> Result<(), AllocError> {
    let mut at = refused.above;
    for _step in 0..held.len() {
        let Some(step) = last_step(held, met, at) else {
            return Ok(());
        };
        if step.entity == refused.entity {
            return Ok(());
        }
        let rule = EntityRule::En5(refused.entity, step.entity, step.above, step.ancestors);
        found.push(write_entity(alloc, rule)?)?;
        at = step.entity;
    }
    Ok(())
}

/// Puts the instances that lead up from an entity to one that it's known not to be in, if there are any.
fn put_refuting(
    alloc: Global,
    known: &Memberships,
    found: &mut Vec<Instance>,
) -> Result<(), AllocError> {
    let held = known.held.as_slice();
    let mut from = 0;
    let mut met = IndexMap::new(alloc);
    for refused in &known.refused {
        if refused.entity != from {
            from = refused.entity;
            met = climb(alloc, held, from)?;
        }
        if met.contains_key(&refused.above) {
            return put_way(alloc, held, &met, *refused, found);
        }
    }
    Ok(())
}

/// Puts the instances that lead up from an entity to one that it's known not to be in, where these are all literals
/// that are known, and the last ones of them new.
pub(crate) fn put_climbs(
    alloc: Global,
    problem: &Problem<'_>,
    lits: &[Lit],
    new: &[Lit],
    found: &mut Vec<Instance>,
) -> Result<(), AllocError> {
    if !tell_membership(problem, new) {
        return Ok(());
    }
    let mut known = Memberships::new(alloc, problem, lits)?;
    known.held.sort_unstable_by(|a, b| a.entity.cmp(&b.entity));
    known
        .refused
        .sort_unstable_by(|a, b| a.entity.cmp(&b.entity));
    put_refuting(alloc, &known, found)
}
