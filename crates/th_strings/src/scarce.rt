//! Scarce strings: fewer texts have their signs than there are strings in all. Each string of a crowd is scarce, so
//! the search looks at these alone.
ghost use Rattle.std.specs.Prelude.{◌≡◌, ◌↔◌, ◌<◌, length, IfOk, OnOk, IfSome, IsTrue};
ghost use Rattle.std.specs.List.{AllByRecursion};
ghost use Rattle.sc_rule_laws.specs.Strings.{AreFew};
ghost use Rattle.sc_terms.specs.Tables.{tree};
ghost use Rattle.th_strings.specs.Scarce.{AreScarce, IsScarce, IsScarceTerm, IsTold};

use crate::signs::row;
use sc_clauses::Assignment;
use sc_footprint::Problem;
use sc_lists::Seq;
use sc_pattern::Pattern;
use std::alloc::{AllocError, Global};
use th_strings_instances::{are_few, copied_signs, is_sort_string};

/// Whether few texts have these signs: an answer that is kept, since counting texts takes long.
#[derive(Drop)]
pub(crate) struct Answer {
    pub(crate) signs: Seq<Option<bool>>,
    pub(crate) few: bool,
}

/// Whether two signs are equal.
fn same_sign(one: Option<bool>, other: Option<bool>) -> bool
    ensures { IsTrue result → one ≡ other }
{
    match (one, other) {
        (Some(a), Some(b)) => a == b,
        (None, None) => true,
        _ => false,
    }
}

/// Whether two lists of signs are equal.
fn same_signs(some: &[Option<bool>], others: &[Option<bool>]) -> bool
    ensures { IsTrue result → some.now ≡ others.now }
{
    let mut left = some;
    let mut right = others;
    while let Some((one, further)) = left.split_first() {
        let Some((other, later)) = right.split_first() else {
            return false;
        };
        if !same_sign(*one, *other) {
            return false;
        }
        left = further;
        right = later;
    }
    right.is_empty()
}

/// The kept answer to whether fewer than `count` texts have these signs, if there is one.
fn told_few(
    patterns: &[Pattern],
    count: u64,
    answers: &[Answer],
    signs: &[Option<bool>],
) -> Option<bool>
    requires { AllByRecursion (IsTold patterns.now count) answers.now }
    ensures { IfSome result (λ b. IsTrue b ↔ AreFew patterns.now signs.now count) }
{
    let _patterns = patterns;
    let _count = count;
    let mut rest = answers;
    while let Some((answer, later)) = rest.split_first() {
        if same_signs(answer.signs.as_slice(), signs) {
            return Some(answer.few);
        }
        rest = later;
    }
    None
}

/// Whether fewer than `count` texts have these signs, by a kept answer or else by counting, which is kept then.
fn is_few(
    alloc: Global,
    patterns: &[Pattern],
    count: u64,
    answers: &mut Vec<Answer>,
    signs: &[Option<bool>],
) -> Result<bool, AllocError>
    requires { AllByRecursion (IsTold patterns.now count) answers.old.items }
    ensures told { OnOk result (AllByRecursion (IsTold patterns.now count) answers.new.items) }
    ensures few { IfOk result (λ b. IsTrue b ↔ AreFew patterns.now signs.now count) }
{
    if let Some(few) = told_few(patterns, count, answers.as_slice(), signs) {
        return Ok(few);
    }
    let few = are_few(alloc, patterns, signs, count)?;
    let signs = copied_signs(alloc, signs)?;
    answers.push(Answer { signs, few })?;
    Ok(few)
}

/// Whether a term of the table is a string with fewer than `count` texts that have its signs.
fn is_scarce_term(
    alloc: Global,
    problem: &Problem<'_>,
    m: &Assignment,
    patterns: &[Pattern],
    count: u64,
    answers: &mut Vec<Answer>,
    term: u64,
) -> Result<bool, AllocError>
    requires term_in { term < length problem.now.nodes }
    requires told { AllByRecursion (IsTold patterns.now count) answers.old.items }
    ensures told { OnOk result (AllByRecursion (IsTold patterns.now count) answers.new.items) }
    ensures scarce { IfOk result (λ b. IsTrue b ↔ IsScarceTerm problem.now m.now patterns.now count (tree
        problem.now.nodes term)) }
{
    if !is_sort_string(problem, term) {
        return Ok(false);
    }
    let signs = row(alloc, problem, m, patterns, term)?;
    is_few(alloc, patterns, count, answers, signs.as_slice())
}

/// Whether a closed term, by its number, is such a string.
fn is_scarce(
    alloc: Global,
    problem: &Problem<'_>,
    m: &Assignment,
    patterns: &[Pattern],
    count: u64,
    answers: &mut Vec<Answer>,
    number: u64,
) -> Result<bool, AllocError>
    requires { AllByRecursion (IsTold patterns.now count) answers.old.items }
    ensures told { OnOk result (AllByRecursion (IsTold patterns.now count) answers.new.items) }
    ensures scarce { IfOk result (λ b. IsTrue b ↔ IsScarce problem.now m.now patterns.now count number) }
{
    match problem.term(number) {
        Some(term) => is_scarce_term(alloc, problem, m, patterns, count, answers, term),
        None => Ok(false),
    }
}

/// Those of several closed terms, by their numbers, that are such strings.
pub(crate) fn scarce_numbers(
    alloc: Global,
    problem: &Problem<'_>,
    m: &Assignment,
    patterns: &[Pattern],
    count: u64,
    numbers: &[u64],
) -> Result<Vec<u64>, AllocError>
    ensures { IfOk result (λ v. AreScarce problem.now m.now patterns.now count numbers.now v.items) }
{
    let mut answers = Vec::new(alloc);
    let mut scarce = Vec::new(alloc);
    let mut rest = numbers;
    while let Some((n, later)) = rest.split_first() {
        if is_scarce(alloc, problem, m, patterns, count, &mut answers, *n)? {
            scarce.push(*n)?;
        }
        rest = later;
    }
    Ok(scarce)
}
