//! ST1: equal strings of which one matches a pattern and the other doesn't.
ghost use Rattle.std.specs.Prelude.{◌≡◌, ◌<◌, length, get_or, IfOk, IfSome, IfNone};
ghost use Rattle.th_strings_instances.specs.declared.rule.StringRule.TheVariants.{St1};
ghost use Rattle.th_strings.specs.Texts.{AreTexts};
ghost use Rattle.th_strings.specs.Violated.{IsViolated, AreMatchesFree};

use crate::group::Group;
use crate::signs::rows;
use sc_clauses::Assignment;
use sc_falsified::gap;
use sc_footprint::{Problem, problem_laws};
use sc_pattern::Pattern;
use std::alloc::{AllocError, Global};
use th_strings_instances::StringRule;

/// The number at a place of a list.
pub(crate) fn number_at(numbers: &[u64], place: usize) -> u64
    requires { place < length numbers.now }
    ensures { result ≡ get_or numbers.now place 0 }
{
    numbers[place]
}

/// The instance of ST1 for a gap: a string that equals another, and a pattern that only the other matches.
fn match_rule(numbers: &[u64], start: usize, middle: usize, pattern: usize) -> StringRule
    requires start { start < length numbers.now }
    requires middle { middle < length numbers.now }
    ensures { result ≡ St1 (get_or numbers.now middle 0) (get_or numbers.now start 0) pattern }
{
    let a = number_at(numbers, middle);
    let b = number_at(numbers, start);
    StringRule::St1(a, b, pattern as u64)
}

/// An instance of ST1 that the assignment falsifies, or none exactly where there is none.
pub(crate) fn broken_match(
    alloc: Global,
    problem: &Problem<'_>,
    m: &Assignment,
    patterns: &[Pattern],
    numbers: &[u64],
) -> Result<Option<StringRule>, AllocError>
    requires { AreTexts problem.now numbers.now }
    ensures found { IfOk result (λ o. IfSome o (IsViolated problem.now m.now patterns.now)) }
    ensures none { IfOk result (λ o. IfNone o (AreMatchesFree problem.now m.now patterns.now)) }
{
    problem.laws();
    problem_laws();
    let signs = rows(alloc, problem, m, patterns, numbers)?;
    let group = Group {
        problem,
        m,
        patterns,
        numbers,
        signs: signs.as_slice(),
    };
    match gap(alloc, &group)? {
        Some((start, middle, pattern)) => { Ok(Some(match_rule(numbers, start, middle, pattern))) }
        None => Ok(None),
    }
}
