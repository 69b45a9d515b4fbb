//! SE1: a term that equals a member of a set and isn't one. Starts and middles are the first parts
//! of the closed memberships, ends are the second.
ghost use Rattle.std.specs.Prelude.{◌≡◌, ◌<◌, length, true, slice_get, IfOk, IfSome, IfNone, OnOk};
ghost use Rattle.sc_rule_instances.specs.Instances.{set_said};
ghost use Rattle.sc_rule_instances.specs.Known.{is_falsified};
ghost use Rattle.th_sets.specs.Moves.{equal_known, member_known, place_at as placed_at, AreAmong, IsPutBy, move_of as move_named, AreMovesFree};

use crate::named::{Named, named_at};
use indexmap::IndexSet;
use sc_clauses::Assignment;
use sc_closure::put;
use sc_falsified::{Paths, gap};
use sc_footprint::Problem;
use sc_rule_instances::{SetRule, equal, known_literal, member};
use std::alloc::{AllocError, Global};

/// The parts of the closed memberships, under an assignment.
#[derive(Drop)]
pub(crate) struct Memberships<'a, 'b> {
    problem: &'a Problem<'b>,
    m: &'a Assignment,
    /// The first parts, by the numbers of closed terms.
    members: Vec<u64>,
    /// The second parts.
    sets: Vec<u64>,
}

/// The number at a place.
fn number_at(numbers: &[u64], place: usize) -> Option<u64>
    ensures { result ≡ slice_get numbers.now place }
{
    numbers.get(place).copied()
}

/// The closed term whose number stands at a place, by its number in the table.
fn term_at(problem: &Problem<'_>, numbers: &[u64], place: usize) -> Option<u64>
    ensures value { result ≡ placed_at problem.now numbers.now place }
    ensures within { IfSome result (λ n. n < length problem.now.nodes) }
{
    problem.term(number_at(numbers, place)?)
}

impl<'a, 'b> Paths for Memberships<'a, 'b> {
    ghost use Rattle.std.specs.Prelude.{length};
    ghost use Rattle.th_sets.specs.Moves.{equal_known, member_known};

    ghost starts = { λ s. length s.members.items };

    ghost middles = { λ s. length s.members.items };

    ghost ends = { λ s. length s.sets.items };

    ghost first = { λ s. equal_known s.problem.now s.m.now s.members.items };

    ghost second = { λ s. member_known s.problem.now s.m.now s.members.items s.sets.items };

    ghost third = { λ s. member_known s.problem.now s.m.now s.members.items s.sets.items };

    fn starts(&self) -> usize {
        self.members.len()
    }

    fn middles(&self) -> usize {
        self.members.len()
    }

    fn ends(&self) -> usize {
        self.sets.len()
    }

    fn first(&self, start: usize, middle: usize) -> Option<bool> {
        equal_at(self.problem, self.m, self.members.as_slice(), start, middle)
    }

    fn second(&self, middle: usize, end: usize) -> Option<bool> {
        member_at(
            self.problem,
            self.m,
            self.members.as_slice(),
            self.sets.as_slice(),
            middle,
            end,
        )
    }

    fn third(&self, start: usize, end: usize) -> Option<bool> {
        member_at(
            self.problem,
            self.m,
            self.members.as_slice(),
            self.sets.as_slice(),
            start,
            end,
        )
    }
}

/// What is known of the middle being the start.
fn equal_at(
    problem: &Problem<'_>,
    m: &Assignment,
    members: &[u64],
    start: usize,
    middle: usize,
) -> Option<bool>
    ensures { result ≡ equal_known problem.now m.now members.now start middle }
{
    let x = term_at(problem, members, middle)?;
    let y = term_at(problem, members, start)?;
    known_literal(m, equal(problem, x, y))
}

/// What is known of a term being a member of a set.
fn member_at(
    problem: &Problem<'_>,
    m: &Assignment,
    members: &[u64],
    sets: &[u64],
    place: usize,
    end: usize,
) -> Option<bool>
    ensures { result ≡ member_known problem.now m.now members.now sets.now place end }
{
    let x = term_at(problem, members, place)?;
    let set = term_at(problem, sets, end)?;
    known_literal(m, member(problem, x, set))
}

/// The elements of a set of numbers.
fn listed(alloc: Global, numbers: &IndexSet<u64>) -> Result<Vec<u64>, AllocError>
    ensures { IfOk result (λ v. v.items ≡ numbers.now.keys) }
{
    let mut list = Vec::new(alloc);
    for n in numbers.iter() {
        list.push(*n)?;
    }
    Ok(list)
}

/// Puts the parts of a membership after the others, each once.
fn put_parts(
    members: &mut IndexSet<u64>,
    sets: &mut IndexSet<u64>,
    by: Named,
) -> Result<(), AllocError>
    ensures { OnOk result (IsPutBy members.old.keys sets.old.keys by members.new.keys sets.new.keys) }
{
    match by {
        Named::Member(x, set) => {
            put(members, x)?;
            put(sets, set)?;
            Ok(())
        }
        Named::Subset(_, _) => Ok(()),
        Named::Common(_, _) => Ok(()),
        Named::Other => Ok(()),
    }
}

/// The parts of the closed memberships, each once.
fn closed_memberships<'a, 'b>(
    alloc: Global,
    problem: &'a Problem<'b>,
    m: &'a Assignment,
) -> Result<Memberships<'a, 'b>, AllocError>
    ensures of { IfOk result (λ s. s.problem.now ≡ problem.now) }
    ensures under { IfOk result (λ s. s.m.now ≡ m.now) }
    ensures all { IfOk result (λ s. AreAmong problem.now s.members.items s.sets.items) }
{
    let mut members = IndexSet::new(alloc);
    let mut sets = IndexSet::new(alloc);
    for n in 0..problem.closed_count() {
        put_parts(&mut members, &mut sets, named_at(problem, n + 1))?;
    }
    Ok(Memberships {
        problem,
        m,
        members: listed(alloc, &members)?,
        sets: listed(alloc, &sets)?,
    })
}

/// The instance of a start, a middle and an end, by their places.
fn move_at(all: &Memberships<'_, '_>, start: usize, middle: usize, end: usize) -> Option<SetRule>
    ensures { result ≡ move_named (slice_get all.now.members.items middle) (slice_get all.now.members.items start)
        (slice_get all.now.sets.items end) }
{
    let x = number_at(all.members.as_slice(), middle)?;
    let y = number_at(all.members.as_slice(), start)?;
    let set = number_at(all.sets.as_slice(), end)?;
    Some(SetRule::Se1(x, y, set))
}

/// An instance of SE1 that an assignment falsifies; none where there is none.
pub(crate) fn broken_move(
    alloc: Global,
    problem: &Problem<'_>,
    m: &Assignment,
) -> Result<Option<SetRule>, AllocError>
    ensures found { IfOk result (λ o. IfSome o (λ rule. is_falsified problem.now m.now (set_said problem.now rule)
        ≡ true)) }
    ensures none { IfOk result (λ o. IfNone o (AreMovesFree problem.now m.now)) }
{
    problem.laws();
    let all = closed_memberships(alloc, problem, m)?;
    match gap(alloc, &all)? {
        Some((start, middle, end)) => Ok(move_at(&all, start, middle, end)),
        None => Ok(None),
    }
}
