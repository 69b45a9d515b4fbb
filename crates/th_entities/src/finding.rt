//! Instances that an assignment falsifies, rule by rule. What a rule asks of its first terms is tested
//! before the others are gone through, and where it asks that a set has a member, only memberships
//! that the assignment says are true are.
ghost use Rattle.std.specs.Prelude.{◌≡◌, true, ℕ, IfSome, IfNone};
ghost use Rattle.std.specs.List.{AllByRecursion};
ghost use Rattle.sc_rule_instances.specs.declared.rule.EntityRule.TheVariants.{En2, En4, En5, En6, En7};
ghost use Rattle.sc_rule_instances.specs.Instances.{entity_said};
ghost use Rattle.sc_rule_instances.specs.Known.{NoneFalsified, is_falsified as falsified_of};
ghost use Rattle.th_entities.specs.Free.{IsFree, IsChosenFree, IsMovedFree, IsOwnFree, IsLifted, AreLifted, IsUnder};
ghost use Rattle.th_entities.specs.Memberships.{AreMemberships, AreOf, IsHeld};
ghost use Rattle.th_entities.specs.Places.{ArePlaces};

use crate::alike::unlike_places;
use crate::memberships::Membership;
use crate::places::Place;
use crate::runs::{first_run, has_member, is_lifted};
use crate::testing::{if_falsified, is_head_out, is_said, is_stored};
use sc_clauses::Assignment;
use sc_footprint::Problem;
use sc_rule_instances::EntityRule;

/// The instance of EN2 for two sets and a membership, if that is one of the first set.
fn moved_member(
    problem: &Problem<'_>,
    m: &Assignment,
    held: Membership,
    s: u64,
    z: u64,
) -> Option<EntityRule>
    ensures found { IfSome result (λ rule. falsified_of problem.now m.now (entity_said problem.now rule) ≡ true) }
    ensures none { IfNone result (IsMovedFree problem.now m.now s z held) }
{
    if held.set == s {
        return if_falsified(problem, m, EntityRule::En2(held.member, s, z));
    }
    None
}

/// An instance of EN2 for two sets and any member.
fn moved_members(
    problem: &Problem<'_>,
    m: &Assignment,
    known: &[Membership],
    s: u64,
    z: u64,
) -> Option<EntityRule>
    requires { AreMemberships problem.now m.now known.now }
    ensures found { IfSome result (λ rule. falsified_of problem.now m.now (entity_said problem.now rule) ≡ true) }
    ensures none { IfNone result ((x : ℕ) → IsFree problem.now m.now (En2 x s z)) }
{
    problem.laws();
    let mut rest = known;
    while let Some((next, later)) = rest.split_first() {
        if let Some(rule) = moved_member(problem, m, *next, s, z) {
            return Some(rule);
        }
        rest = later;
    }
    None
}

/// The same where the two are of entities that are equal. A set and itself have the same members.
#[tactic(auto, using(crate::proofs::PruneLaws::prune2z))]
fn equal_sets(
    problem: &Problem<'_>,
    m: &Assignment,
    known: &[Membership],
    s: u64,
    z: u64,
) -> Option<EntityRule>
    requires { AreMemberships problem.now m.now known.now }
    ensures found { IfSome result (λ rule. falsified_of problem.now m.now (entity_said problem.now rule) ≡ true) }
    ensures none { IfNone result ((x : ℕ) → IsFree problem.now m.now (En2 x s z)) }
{
    if s == z {
        return None;
    }
    if is_head_out(problem, m, EntityRule::En2(s, s, z)) {
        return moved_members(problem, m, known, s, z);
    }
    None
}

/// The same where the second is stored of an entity too.
fn stored_sets(
    problem: &Problem<'_>,
    m: &Assignment,
    known: &[Membership],
    s: u64,
    z: u64,
) -> Option<EntityRule>
    requires { AreMemberships problem.now m.now known.now }
    ensures found { IfSome result (λ rule. falsified_of problem.now m.now (entity_said problem.now rule) ≡ true) }
    ensures none { IfNone result ((x : ℕ) → IsFree problem.now m.now (En2 x s z)) }
{
    if is_stored(problem, z) {
        return equal_sets(problem, m, known, s, z);
    }
    None
}

/// An instance of EN2 for a set and any other.
fn other_sets(
    problem: &Problem<'_>,
    m: &Assignment,
    known: &[Membership],
    s: u64,
) -> Option<EntityRule>
    requires { AreMemberships problem.now m.now known.now }
    ensures found { IfSome result (λ rule. falsified_of problem.now m.now (entity_said problem.now rule) ≡ true) }
    ensures none { IfNone result ((z : ℕ) → (x : ℕ) → IsFree problem.now m.now (En2 x s z)) }
{
    for n in 0..problem.closed_count() {
        if let Some(rule) = stored_sets(problem, m, known, s, n + 1) {
            return Some(rule);
        }
    }
    None
}

/// The same where the set is stored of an entity.
fn sets_of(
    problem: &Problem<'_>,
    m: &Assignment,
    known: &[Membership],
    s: u64,
) -> Option<EntityRule>
    requires { AreMemberships problem.now m.now known.now }
    ensures found { IfSome result (λ rule. falsified_of problem.now m.now (entity_said problem.now rule) ≡ true) }
    ensures none { IfNone result ((z : ℕ) → (x : ℕ) → IsFree problem.now m.now (En2 x s z)) }
{
    if is_stored(problem, s) {
        return other_sets(problem, m, known, s);
    }
    None
}

/// An instance of EN2.
fn second_rule(problem: &Problem<'_>, m: &Assignment, known: &[Membership]) -> Option<EntityRule>
    requires { AreMemberships problem.now m.now known.now }
    ensures found { IfSome result (λ rule. falsified_of problem.now m.now (entity_said problem.now rule) ≡ true) }
    ensures none { IfNone result ((s : ℕ) → (z : ℕ) → (x : ℕ) → IsFree problem.now m.now (En2 x s z)) }
{
    for n in 0..problem.closed_count() {
        if let Some(rule) = sets_of(problem, m, known, n + 1) {
            return Some(rule);
        }
    }
    None
}

/// The instance of EN5 for two entities and a membership in the ancestors of the second, if an
/// assignment falsifies it.
fn lifted(
    problem: &Problem<'_>,
    m: &Assignment,
    e: u64,
    f: u64,
    lows: &[Membership],
    up: Membership,
) -> Option<EntityRule>
    requires lows { AreOf problem.now m.now e lows.now }
    requires up { IsHeld problem.now m.now up }
    ensures found { IfSome result (λ rule. falsified_of problem.now m.now (entity_said problem.now rule) ≡ true) }
    ensures none { IfNone result (IsLifted problem.now m.now e f up) }
{
    if is_lifted(lows, up) {
        return None;
    }
    if_falsified(problem, m, EntityRule::En5(e, f, up.member, up.set))
}

/// The same for any membership in these ancestors.
fn lifted_any(
    problem: &Problem<'_>,
    m: &Assignment,
    e: u64,
    f: u64,
    lows: &[Membership],
    ups: &[Membership],
) -> Option<EntityRule>
    requires lows { AreOf problem.now m.now e lows.now }
    requires ups { AreOf problem.now m.now f ups.now }
    ensures found { IfSome result (λ rule. falsified_of problem.now m.now (entity_said problem.now rule) ≡ true) }
    ensures none { IfNone result (AllByRecursion (IsLifted problem.now m.now e f) ups.now) }
{
    let mut rest = ups;
    while let Some((next, later)) = rest.split_first() {
        if let Some(rule) = lifted(problem, m, e, f, lows, *next) {
            return Some(rule);
        }
        rest = later;
    }
    None
}

/// The same if the second entity is an ancestor of the first.
fn lifted_over(
    problem: &Problem<'_>,
    m: &Assignment,
    e: u64,
    f: u64,
    lows: &[Membership],
    ups: &[Membership],
) -> Option<EntityRule>
    requires lows { AreOf problem.now m.now e lows.now }
    requires ups { AreOf problem.now m.now f ups.now }
    ensures found { IfSome result (λ rule. falsified_of problem.now m.now (entity_said problem.now rule) ≡ true) }
    ensures none { IfNone result (AreLifted problem.now m.now e f lows.now ups.now) }
{
    if has_member(lows, f) {
        return lifted_any(problem, m, e, f, lows, ups);
    }
    None
}

/// The same for the first entity and any other.
fn lifted_through(
    problem: &Problem<'_>,
    m: &Assignment,
    known: &[Membership],
    e: u64,
    lows: &[Membership],
) -> Option<EntityRule>
    requires known { AreMemberships problem.now m.now known.now }
    requires lows { AreOf problem.now m.now e lows.now }
    ensures found { IfSome result (λ rule. falsified_of problem.now m.now (entity_said problem.now rule) ≡ true) }
    ensures none { IfNone result (AllByRecursion (IsUnder problem.now m.now e lows.now) known.now) }
{
    let mut rest = known;
    while let Some((f, ups, later)) = first_run(rest) {
        if let Some(rule) = lifted_over(problem, m, e, f, lows, ups) {
            return Some(rule);
        }
        rest = later;
    }
    None
}

/// An instance of EN5.
fn fifth_rule(problem: &Problem<'_>, m: &Assignment, known: &[Membership]) -> Option<EntityRule>
    requires { AreMemberships problem.now m.now known.now }
    ensures found { IfSome result (λ rule. falsified_of problem.now m.now (entity_said problem.now rule) ≡ true) }
    ensures none { IfNone result ((u : ℕ) → (f : ℕ) → (e : ℕ) → (x : ℕ) → IsFree problem.now m.now (En5 e f x u)) }
{
    problem.laws();
    let mut rest = known;
    while let Some((e, lows, later)) = first_run(rest) {
        if let Some(rule) = lifted_through(problem, m, known, e, lows) {
            return Some(rule);
        }
        rest = later;
    }
    None
}

/// An instance of EN7 for ancestors and any term.
fn declared_members(problem: &Problem<'_>, m: &Assignment, s: u64) -> Option<EntityRule>
    ensures found { IfSome result (λ rule. falsified_of problem.now m.now (entity_said problem.now rule) ≡ true) }
    ensures none { IfNone result ((x : ℕ) → IsFree problem.now m.now (En7 s x)) }
{
    for n in 0..problem.closed_count() {
        if let Some(rule) = if_falsified(problem, m, EntityRule::En7(s, n + 1)) {
            return Some(rule);
        }
    }
    None
}

/// The same where they are the ancestors of a declared action.
fn declared_of(problem: &Problem<'_>, m: &Assignment, s: u64) -> Option<EntityRule>
    ensures found { IfSome result (λ rule. falsified_of problem.now m.now (entity_said problem.now rule) ≡ true) }
    ensures none { IfNone result ((x : ℕ) → IsFree problem.now m.now (En7 s x)) }
{
    if is_said(problem, EntityRule::En7(s, s)) {
        return declared_members(problem, m, s);
    }
    None
}

/// An instance of EN7.
fn seventh_rule(problem: &Problem<'_>, m: &Assignment) -> Option<EntityRule>
    ensures found { IfSome result (λ rule. falsified_of problem.now m.now (entity_said problem.now rule) ≡ true) }
    ensures none { IfNone result ((s : ℕ) → (x : ℕ) → IsFree problem.now m.now (En7 s x)) }
{
    for n in 0..problem.closed_count() {
        if let Some(rule) = declared_of(problem, m, n + 1) {
            return Some(rule);
        }
    }
    None
}

/// The instance of EN4 for a membership, if that is of an entity in its own ancestors.
fn own_ancestor(problem: &Problem<'_>, m: &Assignment, held: Membership) -> Option<EntityRule>
    ensures found { IfSome result (λ rule. falsified_of problem.now m.now (entity_said problem.now rule) ≡ true) }
    ensures none { IfNone result (IsOwnFree problem.now m.now held) }
{
    if held.member == held.owner {
        return if_falsified(problem, m, EntityRule::En4(held.member));
    }
    None
}

/// An instance of EN4.
fn fourth_rule(problem: &Problem<'_>, m: &Assignment, known: &[Membership]) -> Option<EntityRule>
    requires { AreMemberships problem.now m.now known.now }
    ensures found { IfSome result (λ rule. falsified_of problem.now m.now (entity_said problem.now rule) ≡ true) }
    ensures none { IfNone result ((e : ℕ) → IsFree problem.now m.now (En4 e)) }
{
    problem.laws();
    let mut rest = known;
    while let Some((next, later)) = rest.split_first() {
        if let Some(rule) = own_ancestor(problem, m, *next) {
            return Some(rule);
        }
        rest = later;
    }
    None
}

/// An instance of EN6.
fn sixth_rule(problem: &Problem<'_>, m: &Assignment) -> Option<EntityRule>
    ensures found { IfSome result (λ rule. falsified_of problem.now m.now (entity_said problem.now rule) ≡ true) }
    ensures none { IfNone result ((a : ℕ) → IsFree problem.now m.now (En6 a)) }
{
    for n in 0..problem.closed_count() {
        if let Some(rule) = if_falsified(problem, m, EntityRule::En6(n + 1)) {
            return Some(rule);
        }
    }
    None
}

/// An instance for a term of EN8, or of EQ9.
fn chosen_one(problem: &Problem<'_>, m: &Assignment, x: u64) -> Option<EntityRule>
    ensures found { IfSome result (λ rule. falsified_of problem.now m.now (entity_said problem.now rule) ≡ true) }
    ensures none { IfNone result (IsChosenFree problem.now m.now x) }
{
    if let Some(rule) = if_falsified(problem, m, EntityRule::En8(x)) {
        return Some(rule);
    }
    if_falsified(problem, m, EntityRule::Eq9(x))
}

/// An instance of EN8 or of EQ9.
fn chosen_rules(problem: &Problem<'_>, m: &Assignment) -> Option<EntityRule>
    ensures found { IfSome result (λ rule. falsified_of problem.now m.now (entity_said problem.now rule) ≡ true) }
    ensures none { IfNone result ((x : ℕ) → IsChosenFree problem.now m.now x) }
{
    for n in 0..problem.closed_count() {
        if let Some(rule) = chosen_one(problem, m, n + 1) {
            return Some(rule);
        }
    }
    None
}

/// An instance of a rule that an assignment falsifies; none where there is none.
pub(crate) fn falsified_rule(
    problem: &Problem<'_>,
    m: &Assignment,
    known: &[Membership],
    places: &[Place],
) -> Option<EntityRule>
    requires known { AreMemberships problem.now m.now known.now }
    requires places { ArePlaces problem.now places.now }
    ensures found { IfSome result (λ rule. falsified_of problem.now m.now (entity_said problem.now rule) ≡ true) }
    ensures none { IfNone result (NoneFalsified entity_said problem.now m.now) }
{
    if let Some(rule) = fourth_rule(problem, m, known) {
        return Some(rule);
    }
    if let Some(rule) = fifth_rule(problem, m, known) {
        return Some(rule);
    }
    if let Some(rule) = unlike_places(problem, m, known, places) {
        return Some(rule);
    }
    if let Some(rule) = second_rule(problem, m, known) {
        return Some(rule);
    }
    if let Some(rule) = sixth_rule(problem, m) {
        return Some(rule);
    }
    if let Some(rule) = seventh_rule(problem, m) {
        return Some(rule);
    }
    if let Some(rule) = chosen_rules(problem, m) {
        return Some(rule);
    }
    None
}
