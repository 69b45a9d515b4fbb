//! What each rule says, as the literals of its signed terms.
ghost use Rattle.std.specs.Prelude.{◌≡◌, ◌<◌, ◌∷◌, ◌++◌, [], length, map, option_map, OnOk, IfOk, IfSome};
ghost use Rattle.std.specs.List.{AllByRecursion, flat_map, list_all};
ghost use Rattle.sc_footprint.specs.Problems.{term_of};
ghost use Rattle.sc_rule_instances.specs.Clauses.{clause_for};
ghost use Rattle.sc_rule_instances.specs.Instances.{on_two};
ghost use Rattle.sc_rule_laws.specs.Signed.{so, unless};
ghost use Rattle.sc_rule_laws.specs.Strings.{crowd, other_sign, other_signs, some_equal, is_asked_all as asked_all, st1, st3};
ghost use Rattle.sc_terms.specs.Folds.{equal_term, like_term};
ghost use Rattle.sc_terms.specs.Tables.{tree};
ghost use Rattle.th_strings_instances.specs.Instances.{all_at, on_all, said_of};
ghost use Rattle.th_strings_instances.specs.Places.{placed, is_string_at};

use crate::literals::{is_sort_string, like};
use crate::rule::StringRule;
use sc_clauses::{Clause, negation};
use sc_footprint::Problem;
use sc_lists::Seq;
use sc_pattern::Pattern;
use sc_rule_instances::{equal, negated_if};
use std::alloc::{AllocError, Global};

// ---- ST1

/// The literals of ST1 of two terms of the table.
fn match_literals(
    alloc: Global,
    problem: &Problem<'_>,
    x: u64,
    y: u64,
    pattern: &Pattern,
) -> Result<Clause, AllocError>
    requires x_in { x < length problem.now.nodes }
    requires y_in { y < length problem.now.nodes }
    ensures { IfOk result (λ c. c ≡ clause_for problem.now (
        unless (equal_term (tree problem.now.nodes x) (tree problem.now.nodes y))
        ∷ unless (like_term (tree problem.now.nodes x) pattern.now)
        ∷ so (like_term (tree problem.now.nodes y) pattern.now) ∷ [])) }
{
    let first = like(alloc, problem, x, pattern)?;
    let second = like(alloc, problem, y, pattern)?;
    let mut clause = Seq::new(alloc);
    clause.push(negation(equal(problem, x, y)))?;
    clause.push(negation(first))?;
    clause.push(second)?;
    Ok(clause)
}

/// The literals of ST1 of the closed terms of two numbers and a pattern's place. None exactly where
/// there are none.
fn matched_literals(
    alloc: Global,
    problem: &Problem<'_>,
    patterns: &[Pattern],
    a: u64,
    b: u64,
    place: u64,
) -> Result<Option<Clause>, AllocError>
    ensures { IfOk result (λ o. o ≡ option_map (clause_for problem.now) (on_two (term_of problem.now a)
        (term_of problem.now b) (λ t u. st1 patterns.now t u place))) }
{
    let Some(x) = problem.term(a) else {
        return Ok(None);
    };
    let Some(y) = problem.term(b) else {
        return Ok(None);
    };
    let Some(pattern) = patterns.get(place as usize) else {
        return Ok(None);
    };
    Ok(Some(match_literals(alloc, problem, x, y, pattern)?))
}

// ---- ST2 and ST3

/// Puts that a string has the other sign of a pattern, if it is asked.
fn put_other(
    alloc: Global,
    problem: &Problem<'_>,
    term: u64,
    pattern: &Pattern,
    sign: Option<bool>,
    clause: &mut Clause,
) -> Result<(), AllocError>
    requires { term < length problem.now.nodes }
    ensures { OnOk result (clause.new ≡ clause.old ++ clause_for problem.now (other_sign (tree problem.now.nodes term)
        pattern.now sign)) }
{
    match sign {
        None => Ok(()),
        Some(sign) => {
            let literal = like(alloc, problem, term, pattern)?;
            clause.push(negated_if(!sign, literal))?;
            Ok(())
        }
    }
}

/// Puts that a string has the other sign of some pattern.
fn put_others(
    alloc: Global,
    problem: &Problem<'_>,
    patterns: &[Pattern],
    signs: &[Option<bool>],
    term: u64,
    clause: &mut Clause,
) -> Result<(), AllocError>
    requires { term < length problem.now.nodes }
    ensures { OnOk result (clause.new ≡ clause.old ++ clause_for problem.now (other_signs patterns.now signs.now
        (tree problem.now.nodes term))) }
{
    let mut left = patterns;
    let mut rest = signs;
    while let Some((pattern, further)) = left.split_first() {
        let Some((sign, later)) = rest.split_first() else {
            return Ok(());
        };
        put_other(alloc, problem, term, pattern, *sign, clause)?;
        left = further;
        rest = later;
    }
    Ok(())
}

/// Puts that some string has another sign.
fn put_signs(
    alloc: Global,
    problem: &Problem<'_>,
    patterns: &[Pattern],
    signs: &[Option<bool>],
    terms: &[u64],
    clause: &mut Clause,
) -> Result<(), AllocError>
    requires { AllByRecursion (λ n. n < length problem.now.nodes) terms.now }
    ensures { OnOk result (clause.new ≡ clause.old
        ++ clause_for problem.now (flat_map (other_signs patterns.now signs.now)
        (map (tree problem.now.nodes) terms.now))) }
{
    let mut rest = terms;
    while let Some((term, later)) = rest.split_first() {
        put_others(alloc, problem, patterns, signs, *term, clause)?;
        rest = later;
    }
    Ok(())
}

/// Puts that a string equals one of those after it.
fn put_equal(
    problem: &Problem<'_>,
    term: u64,
    others: &[u64],
    clause: &mut Clause,
) -> Result<(), AllocError>
    requires term_in { term < length problem.now.nodes }
    requires others_in { AllByRecursion (λ n. n < length problem.now.nodes) others.now }
    ensures { OnOk result (clause.new ≡ clause.old ++ clause_for problem.now (map
        (λ u. so (equal_term (tree problem.now.nodes term) u)) (map (tree problem.now.nodes) others.now))) }
{
    let mut rest = others;
    while let Some((other, later)) = rest.split_first() {
        clause.push(equal(problem, term, *other))?;
        rest = later;
    }
    Ok(())
}

/// Puts that two strings are equal.
fn put_pairs(problem: &Problem<'_>, terms: &[u64], clause: &mut Clause) -> Result<(), AllocError>
    requires { AllByRecursion (λ n. n < length problem.now.nodes) terms.now }
    ensures { OnOk result (clause.new ≡ clause.old ++ clause_for problem.now (some_equal (map
        (tree problem.now.nodes) terms.now))) }
{
    let mut rest = terms;
    while let Some((term, later)) = rest.split_first() {
        put_equal(problem, *term, later, clause)?;
        rest = later;
    }
    Ok(())
}

/// The literals of a counting rule of strings of the table.
fn crowd_literals(
    alloc: Global,
    problem: &Problem<'_>,
    patterns: &[Pattern],
    signs: &[Option<bool>],
    terms: &[u64],
) -> Result<Clause, AllocError>
    requires { AllByRecursion (λ n. n < length problem.now.nodes) terms.now }
    ensures { IfOk result (λ c. c ≡ clause_for problem.now (crowd patterns.now signs.now (map
        (tree problem.now.nodes) terms.now))) }
{
    let mut clause = Seq::new(alloc);
    put_signs(alloc, problem, patterns, signs, terms, &mut clause)?;
    put_pairs(problem, terms, &mut clause)?;
    Ok(clause)
}

/// The closed terms of numbers, by their numbers in the table. None exactly where some number has
/// none.
#[tactic(auto, using(crate::proofs::SaidLaws::places_first, crate::proofs::SaidLaws::places_more, crate::proofs::SaidLaws::places_none, crate::proofs::SaidLaws::places_end))]
fn terms_of(
    alloc: Global,
    problem: &Problem<'_>,
    numbers: &[u64],
) -> Result<Option<Vec<u64>>, AllocError>
    ensures value { IfOk result (λ o. option_map (λ v. v.items) o ≡ placed problem.now numbers.now) }
    ensures within { IfOk result (λ o. IfSome o (λ v. AllByRecursion (λ n. n < length problem.now.nodes) v.items)) }
{
    let mut terms = Vec::new(alloc);
    let mut rest = numbers;
    while let Some((n, later)) = rest.split_first() {
        let Some(term) = problem.term(*n) else {
            return Ok(None);
        };
        terms.push(term)?;
        rest = later;
    }
    Ok(Some(terms))
}

/// Whether each of some terms of the table is a string.
fn are_strings(problem: &Problem<'_>, terms: &[u64]) -> bool
    requires { AllByRecursion (λ n. n < length problem.now.nodes) terms.now }
    ensures { result ≡ list_all (is_string_at problem.now) terms.now }
{
    let mut rest = terms;
    while let Some((term, later)) = rest.split_first() {
        if !is_sort_string(problem, *term) {
            return false;
        }
        rest = later;
    }
    true
}

/// The literals of ST3. None exactly where there are none.
#[tactic(auto, using(crate::proofs::SaidLaws::literals_unequal, crate::proofs::SaidLaws::literals_nowhere, crate::proofs::SaidLaws::literals_other, crate::proofs::SaidLaws::literals_are))]
fn counted_literals(
    alloc: Global,
    problem: &Problem<'_>,
    patterns: &[Pattern],
    signs: &[Option<bool>],
    numbers: &[u64],
) -> Result<Option<Clause>, AllocError>
    ensures { IfOk result (λ o. o ≡ option_map (clause_for problem.now) (on_all (all_at problem.now numbers.now)
        (st3 patterns.now signs.now))) }
{
    if signs.len() != patterns.len() {
        return Ok(None);
    }
    let Some(terms) = terms_of(alloc, problem, numbers)? else {
        return Ok(None);
    };
    if !are_strings(problem, terms.as_slice()) {
        return Ok(None);
    }
    let clause = crowd_literals(alloc, problem, patterns, signs, terms.as_slice())?;
    Ok(Some(clause))
}

/// Whether each pattern is asked.
pub fn are_all_asked(signs: &[Option<bool>]) -> bool
    ensures { result ≡ asked_all signs.now }
{
    let mut rest = signs;
    while let Some((sign, later)) = rest.split_first() {
        if sign.is_none() {
            return false;
        }
        rest = later;
    }
    true
}

/// The literals of what a rule says of these patterns. None exactly where there are none; want of
/// memory is its one fault.
pub(crate) fn literals_of(
    alloc: Global,
    problem: &Problem<'_>,
    patterns: &[Pattern],
    rule: &StringRule,
) -> Result<Option<Clause>, AllocError>
    ensures { IfOk result (λ o. o ≡ option_map (clause_for problem.now) (said_of problem.now patterns.now rule.now)) }
{
    match rule {
        StringRule::St1(a, b, place) => {
            matched_literals(alloc, problem, patterns, *a, *b, *place)
        }
        StringRule::St2(signs, strings) => {
            if !are_all_asked(signs.as_slice()) {
                return Ok(None);
            }
            counted_literals(
                alloc,
                problem,
                patterns,
                signs.as_slice(),
                strings.as_slice(),
            )
        }
        StringRule::St3(signs, strings) => {
            counted_literals(
                alloc,
                problem,
                patterns,
                signs.as_slice(),
                strings.as_slice(),
            )
        }
    }
}
