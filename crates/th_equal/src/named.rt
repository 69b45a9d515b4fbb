//! The strings and entities among the closed terms, and what an assignment knows of each two.
ghost use Rattle.std.specs.Prelude.{◌≡◌, ◌<◌, ◌≤◌, ◌+◌, length, IfOk, IfSome, OnOk};
ghost use Rattle.sc_rule_instances.specs.Known.{few_items, named_at};
ghost use Rattle.th_equal.specs.Naming.{AreNamed, AreNamedUpTo};

use sc_clauses::Assignment;
use sc_falsified::Equalities;
use sc_footprint::Problem;
use sc_rule_instances::{closed_at, equal, is_sort_named, known_literal};
use std::alloc::{AllocError, Global};

/// The strings and entities among the closed terms, by their numbers from 1 on, under an assignment.
#[derive(Drop)]
pub(crate) struct Named<'a, 'b> {
    pub(crate) problem: &'a Problem<'b>,
    pub(crate) m: &'a Assignment,
    pub(crate) numbers: Vec<u64>,
}

impl<'a, 'b> Named<'a, 'b> {
    /// The term of an item, by its number in the table.
    pub(crate) fn term(&self, item: usize) -> Option<u64>
        ensures value { result ≡ named_at self.now.problem.now self.now.numbers.items item }
        ensures within { IfSome result (λ n. n < length self.now.problem.now.nodes) }
    {
        self.problem.term(*self.numbers.get(item)?)
    }
}

/// A problem has no more closed terms.
const MOST_NUMBERS: usize = 1_000_000_000_000_000_000;

/// How many numbers there are; a problem has never more than `MOST_NUMBERS`.
fn few_numbers(count: usize) -> usize
    ensures { result ≡ few_items count }
{
    if count < MOST_NUMBERS { count } else { 0 }
}

impl<'a, 'b> Equalities for Named<'a, 'b> {
    ghost use Rattle.std.specs.Prelude.{length};
    ghost use Rattle.sc_rule_instances.specs.Known.{few_items, truth_of};
    ghost use Rattle.sc_rule_instances.proofs.KnownLaws.{truth_turned, truth_itself};

    ghost size = { λ s. few_items (length s.numbers.items) };

    ghost truth = { λ s. truth_of s.problem.now s.m.now s.numbers.items };

    fn len(&self) -> usize {
        few_numbers(self.numbers.len())
    }

    fn equal(&self, one: usize, other: usize) -> Option<bool> {
        let a = self.problem.term(*self.numbers.get(one)?)?;
        let b = self.problem.term(*self.numbers.get(other)?)?;
        if a == b {
            return None;
        }
        known_literal(self.m, equal(self.problem, a, b))
    }

    ghost symmetric = { λ s. truth_turned s.problem.now s.m.now s.numbers.items };

    ghost reflexive = { λ s. truth_itself s.problem.now s.m.now s.numbers.items };
}

/// Puts the number of the closed term of a place, if that is a string or an entity.
fn put_if_named(problem: &Problem<'_>, place: u64, numbers: &mut Vec<u64>) -> Result<(), AllocError>
    requires place { place < length problem.now.closed }
    requires named { AreNamedUpTo problem.now place numbers.old.items }
    ensures { OnOk result (AreNamedUpTo problem.now (place + 1) numbers.new.items) }
{
    problem.laws();
    if is_sort_named(problem, closed_at(problem, place)) {
        numbers.push(place + 1)?;
        return Ok(());
    }
    Ok(())
}

/// The numbers of the strings and entities among the closed terms.
pub(crate) fn named_numbers(alloc: Global, problem: &Problem<'_>) -> Result<Vec<u64>, AllocError>
    ensures named { IfOk result (λ v. AreNamed problem.now v.items) }
    ensures few { IfOk result (λ v. length v.items ≤ length problem.now.closed) }
{
    let mut numbers = Vec::new(alloc);
    for place in 0..problem.closed_count() {
        put_if_named(problem, place, &mut numbers)?;
    }
    Ok(numbers)
}
