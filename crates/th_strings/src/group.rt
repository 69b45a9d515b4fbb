//! Closed terms as items of the searches for gaps and crowds: what the assignment tells of each two, and of each and
//! a pattern.
ghost use Rattle.std.specs.Prelude.{◌≡◌};
ghost use Rattle.sc_rule_instances.specs.Known.{few_items, truth_of};

use crate::signs::sign;
use sc_clauses::Assignment;
use sc_falsified::{Equalities, Paths, Texts};
use sc_footprint::Problem;
use sc_lists::Seq;
use sc_pattern::Pattern;
use sc_rule_instances::{equal, known_literal};
use std::alloc::{AllocError, Global};
use th_strings_instances::are_few;

/// Some closed terms, under an assignment.
#[derive(Clone, Copy)]
pub(crate) struct Group<'a, 'b> {
    pub(crate) problem: &'a Problem<'b>,
    pub(crate) m: &'a Assignment,
    pub(crate) patterns: &'a [Pattern],
    /// The numbers of the closed terms, in ascending order.
    pub(crate) numbers: &'a [u64],
    /// The signs of each of them.
    pub(crate) signs: &'a [Seq<Option<bool>>],
}

/// A bound of the number of closed terms of any problem.
const MOST_NUMBERS: usize = 1_000_000_000_000_000_000;

/// The number of items, which is at most `MOST_NUMBERS` in any problem.
fn few_numbers(count: usize) -> usize
    ensures { result ≡ few_items count }
{
    if count < MOST_NUMBERS { count } else { 0 }
}

/// Whether two closed terms are equal, where that is known.
fn equated(
    problem: &Problem<'_>,
    m: &Assignment,
    numbers: &[u64],
    one: usize,
    other: usize,
) -> Option<bool>
    ensures { result ≡ truth_of problem.now m.now numbers.now one other }
{
    let a = problem.term(*numbers.get(one)?)?;
    let b = problem.term(*numbers.get(other)?)?;
    if a == b {
        return None;
    }
    known_literal(m, equal(problem, a, b))
}

impl<'a, 'b> Equalities for Group<'a, 'b> {
    ghost use Rattle.std.specs.Prelude.{length};
    ghost use Rattle.sc_rule_instances.specs.Known.{few_items, truth_of};
    ghost use Rattle.sc_rule_instances.proofs.KnownLaws.{truth_turned, truth_itself};

    ghost size = { λ s. few_items (length s.numbers.now) };

    ghost truth = { λ s. truth_of s.problem.now s.m.now s.numbers.now };

    fn len(&self) -> usize {
        few_numbers(self.numbers.len())
    }

    fn equal(&self, one: usize, other: usize) -> Option<bool> {
        equated(self.problem, self.m, self.numbers, one, other)
    }

    ghost symmetric = { λ s. truth_turned s.problem.now s.m.now s.numbers.now };

    ghost reflexive = { λ s. truth_itself s.problem.now s.m.now s.numbers.now };
}

/// Gaps of ST1: a middle is joined to a start that equals it and to the patterns that it matches; a start to the
/// patterns that it matches.
impl<'a, 'b> Paths for Group<'a, 'b> {
    ghost use Rattle.std.specs.Prelude.{length};
    ghost use Rattle.th_strings.specs.Known.{sign_of, turned_truth};

    ghost starts = { λ s. length s.numbers.now };

    ghost middles = { λ s. length s.numbers.now };

    ghost ends = { λ s. length s.patterns.now };

    ghost first = { λ s. turned_truth s.problem.now s.m.now s.numbers.now };

    ghost second = { λ s. sign_of s.signs.now };

    ghost third = { λ s. sign_of s.signs.now };

    fn starts(&self) -> usize {
        self.numbers.len()
    }

    fn middles(&self) -> usize {
        self.numbers.len()
    }

    fn ends(&self) -> usize {
        self.patterns.len()
    }

    fn first(&self, start: usize, middle: usize) -> Option<bool> {
        equated(self.problem, self.m, self.numbers, middle, start)
    }

    fn second(&self, middle: usize, end: usize) -> Option<bool> {
        sign(self.signs, middle, end)
    }

    fn third(&self, start: usize, end: usize) -> Option<bool> {
        sign(self.signs, start, end)
    }
}

impl<'a, 'b> Texts for Group<'a, 'b> {
    ghost use Rattle.std.specs.Prelude.{length};
    ghost use Rattle.sc_rule_laws.specs.Strings.{AreFew};
    ghost use Rattle.th_strings_instances.proofs.FewLaws.{few_none, few_greater, few_asked, few_split};
    ghost use Rattle.th_strings.specs.Known.{sign_of};

    ghost patterns = { λ s. length s.patterns.now };

    ghost sign = { λ s. sign_of s.signs.now };

    ghost few = { λ s. AreFew s.patterns.now };

    fn patterns(&self) -> usize {
        self.patterns.len()
    }

    fn sign(&self, item: usize, pattern: usize) -> Option<bool> {
        sign(self.signs, item, pattern)
    }

    fn few(&self, alloc: Global, signs: &[Option<bool>], count: usize) -> Result<bool, AllocError> {
        are_few(alloc, self.patterns, signs, count as u64)
    }

    ghost none = { λ s. few_none s.patterns.now };

    ghost greater = { λ s. few_greater s.patterns.now };

    ghost asked = { λ s. few_asked s.patterns.now };

    ghost split = { λ s v p k l size place none. few_split s.patterns.now v p size place none k l };
}
