//! ST2 and ST3: strings that differ pairwise, more of them than there are texts with their signs.
ghost use Rattle.std.specs.Prelude.{◌≡◌, ◌<◌, length, map, get_or, IfOk, IfSome, IfNone};
ghost use Rattle.std.specs.List.{AllByRecursion};
ghost use Rattle.th_strings.specs.Texts.{AreTexts};
ghost use Rattle.th_strings.specs.Violated.{IsViolated, AreCrowdsFree, IsRuleOf};

use crate::group::Group;
use crate::matches::number_at;
use crate::scarce::scarce_numbers;
use crate::signs::rows;
use sc_clauses::Assignment;
use sc_falsified::{Crowd, crowd_of};
use sc_footprint::Problem;
use sc_lists::Seq;
use sc_pattern::Pattern;
use std::alloc::{AllocError, Global};
use th_strings_instances::{StringRule, are_all_asked};

/// The numbers at several places of a list.
fn numbers_at(alloc: Global, numbers: &[u64], places: &[usize]) -> Result<Seq<u64>, AllocError>
    requires { AllByRecursion (λ i. i < length numbers.now) places.now }
    ensures { IfOk result (λ ns. ns ≡ map (λ i. get_or numbers.now i 0) places.now) }
{
    let mut found = Seq::new(alloc);
    let mut rest = places;
    while let Some((place, later)) = rest.split_first() {
        found.push(number_at(numbers, *place))?;
        rest = later;
    }
    Ok(found)
}

/// The instance of these signs and strings: of ST2 where each pattern is asked, else of ST3.
fn counting_rule(signs: Seq<Option<bool>>, strings: Seq<u64>) -> StringRule
    ensures { IsRuleOf signs strings result }
{
    if are_all_asked(signs.as_slice()) {
        StringRule::St2(signs, strings)
    } else {
        StringRule::St3(signs, strings)
    }
}

/// The instance for a crowd.
fn crowd_rule(alloc: Global, numbers: &[u64], crowd: Crowd) -> Result<StringRule, AllocError>
    requires { AllByRecursion (λ i. i < length numbers.now) crowd.items.items }
    ensures { IfOk result (IsRuleOf crowd.signs.items (map (λ i. get_or numbers.now i 0) crowd.items.items)) }
{
    let strings = numbers_at(alloc, numbers, crowd.items.as_slice())?;
    Ok(counting_rule(Seq::from_vec(crowd.signs), strings))
}

/// An instance of ST2 or ST3 that the assignment falsifies, with each sign in it needed; none exactly where there is
/// none.
pub(crate) fn broken_crowd(
    alloc: Global,
    problem: &Problem<'_>,
    m: &Assignment,
    patterns: &[Pattern],
    texts: &[u64],
) -> Result<Option<StringRule>, AllocError>
    requires { AreTexts problem.now texts.now }
    ensures found { IfOk result (λ o. IfSome o (IsViolated problem.now m.now patterns.now)) }
    ensures none { IfOk result (λ o. IfNone o (AreCrowdsFree problem.now m.now patterns.now)) }
{
    problem.laws();
    let count = texts.len() as u64;
    let scarce = scarce_numbers(alloc, problem, m, patterns, count, texts)?;
    let numbers = scarce.as_slice();
    let signs = rows(alloc, problem, m, patterns, numbers)?;
    let group = Group {
        problem,
        m,
        patterns,
        numbers,
        signs: signs.as_slice(),
    };
    match crowd_of(alloc, &group, &group)? {
        Some(crowd) => Ok(Some(crowd_rule(alloc, numbers, crowd)?)),
        None => Ok(None),
    }
}
