//! SE2 to SE10: instances that an assignment falsifies, found at the closed terms that name them.
ghost use Rattle.std.specs.Prelude.{◌≡◌, ◌<◌, length, true, ℕ, Some, IfOk, IfSome, IfNone};
ghost use Rattle.std.specs.List.{AllByRecursion};
ghost use Rattle.sc_terms.specs.Tables.{tree};
ghost use Rattle.sc_footprint.specs.Problems.{term_of};
ghost use Rattle.sc_rule_instances.specs.declared.rule.SetRule.TheVariants.{Se3, Se9, Se10};
ghost use Rattle.sc_rule_instances.specs.Instances.{set_said};
ghost use Rattle.sc_rule_instances.specs.Known.{is_falsified as falsified_of};
ghost use Rattle.th_sets.specs.Named.{named_at as named_of, AreNames, AreOfSets};
ghost use Rattle.th_sets.specs.Free.{IsFree, IsBesideFree, IsMemberFree, IsNamedFree, AreNamedFree, AreFirstFree, IsSubsetFree, IsCommonFree, by_subset, by_common, member_count as members_of, teller_count as tellers_of};

use crate::named::{Named, names, names_of_sets};
use crate::said::Said;
use sc_clauses::Assignment;
use sc_footprint::Problem;
use sc_rule_instances::{SetRule, is_falsified, members};
use std::alloc::{AllocError, Global};

/// The instance, if an assignment falsifies it.
fn if_falsified(problem: &Problem<'_>, m: &Assignment, rule: SetRule) -> Option<SetRule>
    ensures found { IfSome result (λ rule. falsified_of problem.now m.now (set_said problem.now rule) ≡ true) }
    ensures none { IfNone result (IsFree problem.now m.now rule) }
{
    let said = Said { problem, rule };
    if is_falsified(&said, m) {
        Some(rule)
    } else {
        None
    }
}

// ---- by a membership

/// How many members a term has, if it is a set term.
fn part_count(problem: &Problem<'_>, set: u64) -> u64
    requires { set < length problem.now.nodes }
    ensures { result ≡ members_of (Some (tree problem.now.nodes set)) }
{
    match members(problem, set) {
        Some(parts) => parts.len() as u64,
        None => 0,
    }
}

/// The same of the closed term of a number.
fn member_count(problem: &Problem<'_>, set: u64) -> u64
    ensures { result ≡ members_of (term_of problem.now set) }
{
    match problem.term(set) {
        Some(at) => part_count(problem, at),
        None => 0,
    }
}

/// An instance of SE3 for a term and a set.
fn standing(problem: &Problem<'_>, m: &Assignment, x: u64, set: u64) -> Option<SetRule>
    ensures found { IfSome result (λ rule. falsified_of problem.now m.now (set_said problem.now rule) ≡ true) }
    ensures none { IfNone result ((i : ℕ) → IsFree problem.now m.now (Se3 x set i)) }
{
    for index in 0..member_count(problem, set) {
        if let Some(rule) = if_falsified(problem, m, SetRule::Se3(x, set, index)) {
            return Some(rule);
        }
    }
    None
}

/// An instance of SE4 or SE7 for a membership and what another closed term names.
fn beside_one(
    problem: &Problem<'_>,
    m: &Assignment,
    x: u64,
    set: u64,
    other: Named,
) -> Option<SetRule>
    ensures found { IfSome result (λ rule. falsified_of problem.now m.now (set_said problem.now rule) ≡ true) }
    ensures none { IfNone result (IsBesideFree problem.now m.now x set other) }
{
    match other {
        Named::Subset(s, t) => {
            if s == set {
                if_falsified(problem, m, SetRule::Se4(s, t, x))
            } else {
                None
            }
        }
        Named::Common(s, t) => {
            if s == set {
                if_falsified(problem, m, SetRule::Se7(s, t, x))
            } else {
                None
            }
        }
        Named::Member(_, _) => None,
        Named::Other => None,
    }
}

/// The same with what any closed term names.
fn beside(
    problem: &Problem<'_>,
    m: &Assignment,
    pairs: &[Named],
    x: u64,
    set: u64,
) -> Option<SetRule>
    requires { AreOfSets problem.now pairs.now }
    ensures found { IfSome result (λ rule. falsified_of problem.now m.now (set_said problem.now rule) ≡ true) }
    ensures none { IfNone result ((n : ℕ) → IsBesideFree problem.now m.now x set (named_of problem.now n)) }
{
    let mut rest = pairs;
    while let Some((by, later)) = rest.split_first() {
        if let Some(rule) = beside_one(problem, m, x, set, *by) {
            return Some(rule);
        }
        rest = later;
    }
    None
}

/// An instance that a membership names.
#[tactic(auto, using(crate::proofs::FreeLaws::free_member))]
fn at_member(
    problem: &Problem<'_>,
    m: &Assignment,
    pairs: &[Named],
    x: u64,
    set: u64,
) -> Option<SetRule>
    requires { AreOfSets problem.now pairs.now }
    ensures found { IfSome result (λ rule. falsified_of problem.now m.now (set_said problem.now rule) ≡ true) }
    ensures none { IfNone result (IsMemberFree problem.now m.now x set) }
{
    if let Some(rule) = if_falsified(problem, m, SetRule::Se2(x, set)) {
        return Some(rule);
    }
    if let Some(rule) = standing(problem, m, x, set) {
        return Some(rule);
    }
    beside(problem, m, pairs, x, set)
}

// ---- by any closed term

/// An instance of two sets that an inclusion names.
fn at_inclusion(problem: &Problem<'_>, m: &Assignment, s: u64, t: u64) -> Option<SetRule>
    ensures found { IfSome result (λ rule. falsified_of problem.now m.now (set_said problem.now rule) ≡ true) }
    ensures none { IfNone result (AllByRecursion (IsFree problem.now m.now) (by_subset s t)) }
{
    if let Some(rule) = if_falsified(problem, m, SetRule::Se5(s, t, 0)) {
        return Some(rule);
    }
    if let Some(rule) = if_falsified(problem, m, SetRule::Se5(s, t, 1)) {
        return Some(rule);
    }
    if let Some(rule) = if_falsified(problem, m, SetRule::Se8(s, t, 0)) {
        return Some(rule);
    }
    if let Some(rule) = if_falsified(problem, m, SetRule::Se8(t, s, 1)) {
        return Some(rule);
    }
    if let Some(rule) = if_falsified(problem, m, SetRule::Se8(s, t, 2)) {
        return Some(rule);
    }
    None
}

/// An instance of two sets that a common member names.
fn at_shared(problem: &Problem<'_>, m: &Assignment, s: u64, t: u64) -> Option<SetRule>
    ensures found { IfSome result (λ rule. falsified_of problem.now m.now (set_said problem.now rule) ≡ true) }
    ensures none { IfNone result (AllByRecursion (IsFree problem.now m.now) (by_common s t)) }
{
    if let Some(rule) = if_falsified(problem, m, SetRule::Se6(s, t, 0)) {
        return Some(rule);
    }
    if let Some(rule) = if_falsified(problem, m, SetRule::Se6(s, t, 1)) {
        return Some(rule);
    }
    None
}

/// An instance of SE9 for two sets, by the first so many numbers.
fn within_first(
    problem: &Problem<'_>,
    m: &Assignment,
    s: u64,
    t: u64,
    count: u64,
) -> Option<SetRule>
    ensures found { IfSome result (λ rule. falsified_of problem.now m.now (set_said problem.now rule) ≡ true) }
    ensures none { IfNone result (AreFirstFree problem.now m.now (λ i. Se9 s t i) count) }
{
    for index in 0..count {
        if let Some(rule) = if_falsified(problem, m, SetRule::Se9(s, t, index)) {
            return Some(rule);
        }
    }
    None
}

/// An instance of SE9 for two sets.
fn within(problem: &Problem<'_>, m: &Assignment, s: u64, t: u64) -> Option<SetRule>
    ensures found { IfSome result (λ rule. falsified_of problem.now m.now (set_said problem.now rule) ≡ true) }
    ensures none { IfNone result ((i : ℕ) → IsFree problem.now m.now (Se9 s t i)) }
{
    let count = member_count(problem, s);
    if let Some(rule) = within_first(problem, m, s, t, count) {
        return Some(rule);
    }
    if_falsified(problem, m, SetRule::Se9(s, t, count))
}

/// An instance that an inclusion names.
fn at_subset(problem: &Problem<'_>, m: &Assignment, s: u64, t: u64) -> Option<SetRule>
    ensures found { IfSome result (λ rule. falsified_of problem.now m.now (set_said problem.now rule) ≡ true) }
    ensures none { IfNone result (IsSubsetFree problem.now m.now s t) }
{
    if let Some(rule) = at_inclusion(problem, m, s, t) {
        return Some(rule);
    }
    within(problem, m, s, t)
}

/// How many terms tell whether a term of the table and the closed term of a number have a member in
/// common: those that stand in the first, or, if it is no set term, in the second.
fn teller_count_at(problem: &Problem<'_>, set: u64, t: u64) -> u64
    requires { set < length problem.now.nodes }
    ensures { result ≡ tellers_of (Some (tree problem.now.nodes set)) (term_of problem.now t) }
{
    match members(problem, set) {
        Some(parts) => parts.len() as u64,
        None => member_count(problem, t),
    }
}

/// The same of the closed terms of two numbers.
fn teller_count(problem: &Problem<'_>, s: u64, t: u64) -> u64
    ensures { result ≡ tellers_of (term_of problem.now s) (term_of problem.now t) }
{
    match problem.term(s) {
        Some(at) => teller_count_at(problem, at, t),
        None => member_count(problem, t),
    }
}

/// An instance of SE10 for two sets, by the first so many numbers.
fn sharing_first(
    problem: &Problem<'_>,
    m: &Assignment,
    s: u64,
    t: u64,
    count: u64,
) -> Option<SetRule>
    ensures found { IfSome result (λ rule. falsified_of problem.now m.now (set_said problem.now rule) ≡ true) }
    ensures none { IfNone result (AreFirstFree problem.now m.now (λ i. Se10 s t i) count) }
{
    for index in 0..count {
        if let Some(rule) = if_falsified(problem, m, SetRule::Se10(s, t, index)) {
            return Some(rule);
        }
    }
    None
}

/// An instance of SE10 for two sets.
fn sharing(problem: &Problem<'_>, m: &Assignment, s: u64, t: u64) -> Option<SetRule>
    ensures found { IfSome result (λ rule. falsified_of problem.now m.now (set_said problem.now rule) ≡ true) }
    ensures none { IfNone result ((i : ℕ) → IsFree problem.now m.now (Se10 s t i)) }
{
    let count = teller_count(problem, s, t);
    if let Some(rule) = sharing_first(problem, m, s, t, count) {
        return Some(rule);
    }
    if_falsified(problem, m, SetRule::Se10(s, t, count))
}

/// An instance that a common member names.
fn at_common(problem: &Problem<'_>, m: &Assignment, s: u64, t: u64) -> Option<SetRule>
    ensures found { IfSome result (λ rule. falsified_of problem.now m.now (set_said problem.now rule) ≡ true) }
    ensures none { IfNone result (IsCommonFree problem.now m.now s t) }
{
    if let Some(rule) = at_shared(problem, m, s, t) {
        return Some(rule);
    }
    sharing(problem, m, s, t)
}

fn at_named(problem: &Problem<'_>, m: &Assignment, pairs: &[Named], by: Named) -> Option<SetRule>
    requires { AreOfSets problem.now pairs.now }
    ensures found { IfSome result (λ rule. falsified_of problem.now m.now (set_said problem.now rule) ≡ true) }
    ensures none { IfNone result (IsNamedFree problem.now m.now by) }
{
    match by {
        Named::Member(x, s) => at_member(problem, m, pairs, x, s),
        Named::Subset(s, t) => at_subset(problem, m, s, t),
        Named::Common(s, t) => at_common(problem, m, s, t),
        Named::Other => None,
    }
}

/// An instance that one of these names; those of two sets stand apart too.
fn among(problem: &Problem<'_>, m: &Assignment, names: &[Named], pairs: &[Named]) -> Option<SetRule>
    requires names { AreNames problem.now names.now }
    requires pairs { AreOfSets problem.now pairs.now }
    ensures found { IfSome result (λ rule. falsified_of problem.now m.now (set_said problem.now rule) ≡ true) }
    ensures none { IfNone result (AreNamedFree problem.now m.now) }
{
    let mut rest = names;
    while let Some((by, later)) = rest.split_first() {
        if let Some(rule) = at_named(problem, m, pairs, *by) {
            return Some(rule);
        }
        rest = later;
    }
    None
}

/// An instance of SE2 to SE10 that an assignment falsifies; none where there is none.
pub(crate) fn falsified_row(
    alloc: Global,
    problem: &Problem<'_>,
    m: &Assignment,
) -> Result<Option<SetRule>, AllocError>
    ensures found { IfOk result (λ o. IfSome o (λ rule. falsified_of problem.now m.now (set_said problem.now rule)
        ≡ true)) }
    ensures none { IfOk result (λ o. IfNone o (AreNamedFree problem.now m.now)) }
{
    let names = names(alloc, problem)?;
    let pairs = names_of_sets(alloc, names.as_slice())?;
    Ok(among(problem, m, names.as_slice(), pairs.as_slice()))
}
