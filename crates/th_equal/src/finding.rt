//! EQ2 to EQ8: instances that an assignment falsifies, found at the closed terms that name them.
ghost use Rattle.std.specs.Prelude.{◌≡◌, ◌<◌, length, true, IfSome, IfNone, Some};
ghost use Rattle.sc_terms.specs.Tables.{tree};
ghost use Rattle.sc_footprint.specs.Problems.{term_of};
ghost use Rattle.sc_rule_instances.specs.Instances.{equal_said};
ghost use Rattle.sc_rule_instances.specs.Known.{is_falsified as falsified_of};
ghost use Rattle.sc_rule_instances.specs.declared.rule.EqualRule.TheVariants.{Eq8};
ghost use Rattle.th_equal.specs.Free.{IsFree, AreFieldsFree, AreRecordsFree, AreOptionsFree, IsPairFree, AreSidesFree, IsEquationFree, IsChoiceFree, IsTermFree, AreTermsFree};

use crate::equated::sides;
use crate::equations::{is_choice, number};
use crate::said::Said;
use sc_clauses::Assignment;
use sc_footprint::Problem;
use sc_rule_instances::{EqualRule, field_count, is_falsified, is_sort_option};

/// The instance, if an assignment falsifies it.
fn if_falsified(problem: &Problem<'_>, m: &Assignment, rule: EqualRule) -> Option<EqualRule>
    ensures found { IfSome result (λ rule. falsified_of problem.now m.now (equal_said problem.now rule) ≡ true) }
    ensures none { IfNone result (IsFree problem.now m.now rule) }
{
    let said = Said { problem, rule };
    if is_falsified(&said, m) {
        Some(rule)
    } else {
        None
    }
}

// ---- by an equation

/// An instance of EQ3 at the first so many fields of two records.
fn at_fields(problem: &Problem<'_>, m: &Assignment, r: u64, s: u64, count: u64) -> Option<EqualRule>
    ensures found { IfSome result (λ rule. falsified_of problem.now m.now (equal_said problem.now rule) ≡ true) }
    ensures none { IfNone result (AreFieldsFree problem.now m.now r s count) }
{
    for field in 0..count {
        if let Some(rule) = if_falsified(problem, m, EqualRule::Eq3(r, s, field)) {
            return Some(rule);
        }
    }
    None
}

/// An instance of EQ3 or EQ4, if the first of two closed terms is a record.
fn at_records(problem: &Problem<'_>, m: &Assignment, r: u64, s: u64, at: u64) -> Option<EqualRule>
    requires at_in { at < length problem.now.nodes }
    requires term { term_of problem.now r ≡ Some (tree problem.now.nodes at) }
    ensures found { IfSome result (λ rule. falsified_of problem.now m.now (equal_said problem.now rule) ≡ true) }
    ensures none { IfNone result (AreRecordsFree problem.now m.now (term_of problem.now r) (term_of problem.now s)) }
{
    let Some(count) = field_count(problem, at) else {
        return None;
    };
    if let Some(rule) = at_fields(problem, m, r, s, count) {
        return Some(rule);
    }
    if_falsified(problem, m, EqualRule::Eq4(r, s))
}

/// An instance of EQ5, EQ6 or EQ7, if the first of two closed terms is an option.
fn at_options(problem: &Problem<'_>, m: &Assignment, o: u64, q: u64, at: u64) -> Option<EqualRule>
    requires at_in { at < length problem.now.nodes }
    requires term { term_of problem.now o ≡ Some (tree problem.now.nodes at) }
    ensures found { IfSome result (λ rule. falsified_of problem.now m.now (equal_said problem.now rule) ≡ true) }
    ensures none { IfNone result (AreOptionsFree problem.now m.now (term_of problem.now o) (term_of problem.now q)) }
{
    if !is_sort_option(problem, at) {
        return None;
    }
    if let Some(rule) = if_falsified(problem, m, EqualRule::Eq5(o, q)) {
        return Some(rule);
    }
    if let Some(rule) = if_falsified(problem, m, EqualRule::Eq6(o, q)) {
        return Some(rule);
    }
    if let Some(rule) = if_falsified(problem, m, EqualRule::Eq7(o, q, 0)) {
        return Some(rule);
    }
    if_falsified(problem, m, EqualRule::Eq7(o, q, 1))
}

/// An instance for two closed terms.
fn at_pair(problem: &Problem<'_>, m: &Assignment, a: u64, b: u64) -> Option<EqualRule>
    ensures found { IfSome result (λ rule. falsified_of problem.now m.now (equal_said problem.now rule) ≡ true) }
    ensures none { IfNone result (IsPairFree problem.now m.now (term_of problem.now a) (term_of problem.now b)) }
{
    let Some(at) = problem.term(a) else {
        return None;
    };
    if let Some(rule) = at_records(problem, m, a, b, at) {
        return Some(rule);
    }
    at_options(problem, m, a, b, at)
}

/// An instance for the sides of an equation, whichever comes first.
fn at_sides(problem: &Problem<'_>, m: &Assignment, a: u64, b: u64) -> Option<EqualRule>
    requires a_in { a < length problem.now.nodes }
    requires b_in { b < length problem.now.nodes }
    ensures found { IfSome result (λ rule. falsified_of problem.now m.now (equal_said problem.now rule) ≡ true) }
    ensures none { IfNone result (AreSidesFree problem.now m.now (tree problem.now.nodes a)
        (tree problem.now.nodes b)) }
{
    let Some(r) = number(problem, a) else {
        return None;
    };
    let Some(s) = number(problem, b) else {
        return None;
    };
    if let Some(rule) = at_pair(problem, m, r, s) {
        return Some(rule);
    }
    at_pair(problem, m, s, r)
}

/// An instance for the sides of a term that is an equation.
fn at_equation(problem: &Problem<'_>, m: &Assignment, at: u64) -> Option<EqualRule>
    requires { at < length problem.now.nodes }
    ensures found { IfSome result (λ rule. falsified_of problem.now m.now (equal_said problem.now rule) ≡ true) }
    ensures none { IfNone result (IsEquationFree problem.now m.now (tree problem.now.nodes at)) }
{
    match sides(problem, at) {
        Some((a, b)) => at_sides(problem, m, a, b),
        None => None,
    }
}

// ---- by any closed term

/// An instance of EQ2, if a closed term is a choice.
fn at_choice(problem: &Problem<'_>, m: &Assignment, n: u64, at: u64) -> Option<EqualRule>
    requires at_in { at < length problem.now.nodes }
    requires term { term_of problem.now n ≡ Some (tree problem.now.nodes at) }
    ensures found { IfSome result (λ rule. falsified_of problem.now m.now (equal_said problem.now rule) ≡ true) }
    ensures none { IfNone result (IsChoiceFree problem.now m.now (term_of problem.now n)) }
{
    if !is_choice(problem, at) {
        return None;
    }
    if let Some(rule) = if_falsified(problem, m, EqualRule::Eq2(n, 0)) {
        return Some(rule);
    }
    if_falsified(problem, m, EqualRule::Eq2(n, 1))
}

/// An instance of EQ8, if a closed term is an option.
fn at_option(problem: &Problem<'_>, m: &Assignment, n: u64, at: u64) -> Option<EqualRule>
    requires at_in { at < length problem.now.nodes }
    requires term { term_of problem.now n ≡ Some (tree problem.now.nodes at) }
    ensures found { IfSome result (λ rule. falsified_of problem.now m.now (equal_said problem.now rule) ≡ true) }
    ensures none { IfNone result (IsFree problem.now m.now (Eq8 n)) }
{
    if !is_sort_option(problem, at) {
        return None;
    }
    if_falsified(problem, m, EqualRule::Eq8(n))
}

/// An instance that the closed term of a number names.
fn at_term(problem: &Problem<'_>, m: &Assignment, n: u64) -> Option<EqualRule>
    ensures found { IfSome result (λ rule. falsified_of problem.now m.now (equal_said problem.now rule) ≡ true) }
    ensures none { IfNone result (IsTermFree problem.now m.now (term_of problem.now n)) }
{
    let Some(at) = problem.term(n) else {
        return None;
    };
    if let Some(rule) = at_choice(problem, m, n, at) {
        return Some(rule);
    }
    if let Some(rule) = at_option(problem, m, n, at) {
        return Some(rule);
    }
    at_equation(problem, m, at)
}

/// An instance of EQ2 to EQ8 that an assignment falsifies; none where there is none.
pub(crate) fn falsified_row(problem: &Problem<'_>, m: &Assignment) -> Option<EqualRule>
    ensures found { IfSome result (λ rule. falsified_of problem.now m.now (equal_said problem.now rule) ≡ true) }
    ensures none { IfNone result (AreTermsFree problem.now m.now) }
{
    for n in 0..problem.closed_count() {
        if let Some(rule) = at_term(problem, m, n + 1) {
            return Some(rule);
        }
    }
    None
}
