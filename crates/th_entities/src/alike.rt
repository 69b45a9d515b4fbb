//! EN1 and EN3: like places of the attributes of equal entities are alike, and those of their tags under
//! equal keys. Only where an assignment says that two roots are of equal entities, and under equal keys,
//! their places are laid side by side.
ghost use Rattle.std.specs.Prelude.{◌≡◌, ◌<◌, Bool, true, None, Some, ℕ, IfSome, IfNone, length};
ghost use Rattle.std.specs.List.{AllByRecursion};
ghost use Rattle.sc_rule_instances.specs.Instances.{entity_said};
ghost use Rattle.sc_rule_instances.specs.Known.{is_falsified as falsified_of};
ghost use Rattle.sc_sorts.specs.declared.sort.Sort.{out-Sort};
ghost use Rattle.sc_terms.specs.Folds.{bit_term, equal_term};
ghost use Rattle.sc_terms.specs.Tables.{tree};
ghost use Rattle.sc_terms.specs.TreeSorts.{tree_sort};
ghost use Rattle.th_entities.specs.Alike.{IsAlikeFree, IsCandidateFree, IsFreeBeside, alike_rule, are_like as like_test, half_level, guard_out, may_break as break_test};
ghost use Rattle.th_entities.specs.Free.{IsFree};
ghost use Rattle.th_entities.specs.Memberships.{AreMemberships, is_true};
ghost use Rattle.th_entities.specs.Places.{ArePlaces, IsPlace, AreRooted};

use crate::memberships::Membership;
use crate::places::{Place, first_root, is_root, is_tag};
use crate::testing::{if_falsified, is_out};
use sc_clauses::{Assignment, negation};
use sc_footprint::Problem;
use sc_rule_instances::{EntityRule, bit, equal};
use sc_sorts::{BinaryOp, Node, Sort, UnaryOp};
use th_entities_instances::roots;

/// The instance of EN3 for places of tags, and of EN1 for others.
fn alike(tags: bool, x: u64, y: u64, i: u64) -> EntityRule
    ensures { result ≡ alike_rule tags x y i }
{
    if tags {
        EntityRule::En3(x, y, i)
    } else {
        EntityRule::En1(x, y, i)
    }
}

// ---- tests

/// Whether an assignment says that two terms are equal.
#[tactic(auto, using(crate::proofs::MembershipLaws::true_is))]
fn is_equal(problem: &Problem<'_>, m: &Assignment, a: u64, b: u64) -> bool
    requires a { a < length problem.now.nodes }
    requires b { b < length problem.now.nodes }
    ensures { result ≡ is_true problem.now m.now (equal_term (tree problem.now.nodes a) (tree problem.now.nodes b)) }
{
    is_out(m, negation(equal(problem, a, b)))
}

/// Whether an assignment says that two roots are of equal entities, and under equal keys.
fn is_guard_out(problem: &Problem<'_>, m: &Assignment, r: u64, q: u64) -> bool
    requires r { r < length problem.now.nodes }
    requires q { q < length problem.now.nodes }
    ensures { result ≡ guard_out problem.now m.now (tree problem.now.nodes r) (tree problem.now.nodes q) }
{
    match problem.terms().node(r) {
        Node::One(UnaryOp::Attributes(k), e) => match problem.terms().node(q) {
            Node::One(UnaryOp::Attributes(l), f) => *k == *l && is_equal(problem, m, *e, *f),
            _ => false,
        },
        Node::Two(BinaryOp::Tag(s), e, k) => match problem.terms().node(q) {
            Node::Two(BinaryOp::Tag(t), f, l) => {
                *s == *t && is_equal(problem, m, *e, *f) && is_equal(problem, m, *k, *l)
            }
            _ => false,
        },
        _ => false,
    }
}

/// Whether two terms are like places of attributes, or of tags.
fn are_like(problem: &Problem<'_>, x: u64, y: u64) -> bool
    requires x { x < length problem.now.nodes }
    requires y { y < length problem.now.nodes }
    ensures { result ≡ like_test (tree problem.now.nodes x) (tree problem.now.nodes y) }
{
    let (r, q) = roots(problem, x, y);
    is_root(problem, r) && is_root(problem, q)
}

/// How many halves tell that a term is like another, numbered from 0. None exactly of a set.
fn half_count(problem: &Problem<'_>, x: u64) -> Option<u64>
    requires { x < length problem.now.nodes }
    ensures { result ≡ half_level (out-Sort (tree_sort (tree problem.now.nodes x))) }
{
    match problem.terms().sort(x) {
        Sort::Set(_) => None,
        Sort::Record(_) => Some(0),
        Sort::Long => Some(64),
        Sort::Decimal => Some(64),
        Sort::Ip => Some(257),
        _ => Some(1),
    }
}

/// Whether an assignment says that a bit of a place is one.
#[tactic(auto, using(crate::proofs::MembershipLaws::true_is, crate::proofs::PlaceLaws::place_other))]
fn is_one(problem: &Problem<'_>, m: &Assignment, a: Place, i: u64) -> bool
    requires { IsPlace problem.now a }
    ensures { result ≡ is_true problem.now m.now (bit_term (tree problem.now.nodes a.term) i) }
{
    is_out(m, negation(bit(problem, a.term, i)))
}

/// Whether the half of a number may be broken: of two numbers the bit of the first one has to be one.
fn may_break(problem: &Problem<'_>, m: &Assignment, a: Place, i: u64) -> bool
    requires { IsPlace problem.now a }
    ensures { result ≡ break_test problem.now m.now (tree problem.now.nodes a.term) i }
{
    match problem.terms().sort(a.term) {
        Sort::Long => is_one(problem, m, a, i),
        Sort::Decimal => is_one(problem, m, a, i),
        Sort::Ip => is_one(problem, m, a, i),
        _ => true,
    }
}

// ---- two places

/// The instance for two places and the half of a number, if an assignment falsifies it.
#[tactic(auto, using(crate::proofs::AlikeLaws::kept_free))]
fn by_half(
    problem: &Problem<'_>,
    m: &Assignment,
    tags: bool,
    a: Place,
    b: Place,
    i: u64,
) -> Option<EntityRule>
    requires { IsPlace problem.now a }
    ensures found { IfSome result (λ rule. falsified_of problem.now m.now (entity_said problem.now rule) ≡ true) }
    ensures none { IfNone result (IsFree problem.now m.now (alike_rule tags a.number b.number i)) }
{
    if may_break(problem, m, a, i) {
        return if_falsified(problem, m, alike(tags, a.number, b.number, i));
    }
    None
}

/// An instance for two places, by the numbers of halves.
fn by_number(
    problem: &Problem<'_>,
    m: &Assignment,
    tags: bool,
    a: Place,
    b: Place,
    count: u64,
) -> Option<EntityRule>
    requires place { IsPlace problem.now a }
    requires count { Some count ≡ half_level (out-Sort (tree_sort (tree problem.now.nodes a.term))) }
    ensures found { IfSome result (λ rule. falsified_of problem.now m.now (entity_said problem.now rule) ≡ true) }
    ensures none { IfNone result (IsAlikeFree problem.now m.now tags a.number b.number) }
{
    for i in 0..count {
        if let Some(rule) = by_half(problem, m, tags, a, b, i) {
            return Some(rule);
        }
    }
    None
}

/// The instance for two sets and a membership, if that is one of the first set.
fn candidate(
    problem: &Problem<'_>,
    m: &Assignment,
    tags: bool,
    a: Place,
    b: Place,
    held: Membership,
) -> Option<EntityRule>
    ensures found { IfSome result (λ rule. falsified_of problem.now m.now (entity_said problem.now rule) ≡ true) }
    ensures none { IfNone result (IsCandidateFree problem.now m.now tags a.number b.number held) }
{
    if held.set == a.number {
        return if_falsified(problem, m, alike(tags, a.number, b.number, held.member));
    }
    None
}

/// An instance for two sets and any member.
fn by_candidate(
    problem: &Problem<'_>,
    m: &Assignment,
    known: &[Membership],
    tags: bool,
    a: Place,
    b: Place,
) -> Option<EntityRule>
    requires known { AreMemberships problem.now m.now known.now }
    requires place { IsPlace problem.now a }
    requires set { None ≡ half_level (out-Sort (tree_sort (tree problem.now.nodes a.term))) }
    ensures found { IfSome result (λ rule. falsified_of problem.now m.now (entity_said problem.now rule) ≡ true) }
    ensures none { IfNone result (IsAlikeFree problem.now m.now tags a.number b.number) }
{
    problem.laws();
    let mut rest = known;
    while let Some((next, later)) = rest.split_first() {
        if let Some(rule) = candidate(problem, m, tags, a, b, *next) {
            return Some(rule);
        }
        rest = later;
    }
    None
}

/// An instance for two places.
fn between(
    problem: &Problem<'_>,
    m: &Assignment,
    known: &[Membership],
    tags: bool,
    a: Place,
    b: Place,
) -> Option<EntityRule>
    requires known { AreMemberships problem.now m.now known.now }
    requires first { IsPlace problem.now a }
    requires second { IsPlace problem.now b }
    ensures found { IfSome result (λ rule. falsified_of problem.now m.now (entity_said problem.now rule) ≡ true) }
    ensures none { IfNone result (IsAlikeFree problem.now m.now tags a.number b.number) }
{
    if !are_like(problem, a.term, b.term) {
        return None;
    }
    match half_count(problem, a.term) {
        Some(count) => by_number(problem, m, tags, a, b, count),
        None => by_candidate(problem, m, known, tags, a, b),
    }
}

// ---- the places of two roots

/// An instance for any of some places and another.
fn with_one(
    problem: &Problem<'_>,
    m: &Assignment,
    known: &[Membership],
    tags: bool,
    run: &[Place],
    b: Place,
) -> Option<EntityRule>
    requires known { AreMemberships problem.now m.now known.now }
    requires run { AllByRecursion (IsPlace problem.now) run.now }
    requires other { IsPlace problem.now b }
    ensures found { IfSome result (λ rule. falsified_of problem.now m.now (entity_said problem.now rule) ≡ true) }
    ensures none { IfNone result (AllByRecursion (λ a. IsAlikeFree problem.now m.now tags a.number b.number) run.now) }
{
    let mut rest = run;
    while let Some((next, later)) = rest.split_first() {
        if let Some(rule) = between(problem, m, known, tags, *next, b) {
            return Some(rule);
        }
        rest = later;
    }
    None
}

/// The same for any of the others.
fn with_any(
    problem: &Problem<'_>,
    m: &Assignment,
    known: &[Membership],
    tags: bool,
    run: &[Place],
    others: &[Place],
) -> Option<EntityRule>
    requires known { AreMemberships problem.now m.now known.now }
    requires run { AllByRecursion (IsPlace problem.now) run.now }
    requires others { AllByRecursion (IsPlace problem.now) others.now }
    ensures found { IfSome result (λ rule. falsified_of problem.now m.now (entity_said problem.now rule) ≡ true) }
    ensures none { IfNone result (AllByRecursion (λ b. AllByRecursion (λ a. IsAlikeFree problem.now m.now tags a.number
        b.number) run.now) others.now) }
{
    let mut rest = others;
    while let Some((next, later)) = rest.split_first() {
        if let Some(rule) = with_one(problem, m, known, tags, run, *next) {
            return Some(rule);
        }
        rest = later;
    }
    None
}

/// The same for the places of two roots, if these are of equal entities, and under equal keys. A root
/// and itself have no like places but each and itself.
fn with_root(
    problem: &Problem<'_>,
    m: &Assignment,
    known: &[Membership],
    r: u64,
    run: &[Place],
    q: u64,
    others: &[Place],
) -> Option<EntityRule>
    requires known { AreMemberships problem.now m.now known.now }
    requires run { AreRooted problem.now r run.now }
    requires others { AreRooted problem.now q others.now }
    requires r { r < length problem.now.nodes }
    requires q { q < length problem.now.nodes }
    ensures found { IfSome result (λ rule. falsified_of problem.now m.now (entity_said problem.now rule) ≡ true) }
    ensures none { IfNone result (AllByRecursion (IsFreeBeside problem.now m.now run.now) others.now) }
{
    problem.laws();
    if r == q {
        return None;
    }
    if is_guard_out(problem, m, r, q) {
        return with_any(problem, m, known, is_tag(problem, r), run, others);
    }
    None
}

/// The same for the places of one root and any others.
fn with_roots(
    problem: &Problem<'_>,
    m: &Assignment,
    known: &[Membership],
    places: &[Place],
    r: u64,
    run: &[Place],
) -> Option<EntityRule>
    requires known { AreMemberships problem.now m.now known.now }
    requires places { ArePlaces problem.now places.now }
    requires run { AreRooted problem.now r run.now }
    requires r { r < length problem.now.nodes }
    ensures found { IfSome result (λ rule. falsified_of problem.now m.now (entity_said problem.now rule) ≡ true) }
    ensures none { IfNone result (AllByRecursion (IsFreeBeside problem.now m.now run.now) places.now) }
{
    let mut rest = places;
    while let Some((q, others, later)) = first_root(rest) {
        if let Some(rule) = with_root(problem, m, known, r, run, q, others) {
            return Some(rule);
        }
        rest = later;
    }
    None
}

/// An instance of EN1 or of EN3.
pub(crate) fn unlike_places(
    problem: &Problem<'_>,
    m: &Assignment,
    known: &[Membership],
    places: &[Place],
) -> Option<EntityRule>
    requires known { AreMemberships problem.now m.now known.now }
    requires places { ArePlaces problem.now places.now }
    ensures found { IfSome result (λ rule. falsified_of problem.now m.now (entity_said problem.now rule) ≡ true) }
    ensures none { IfNone result ((tags : Bool) → (x : ℕ) → (y : ℕ) → IsAlikeFree problem.now m.now tags x y) }
{
    let mut rest = places;
    while let Some((r, own, later)) = first_root(rest) {
        if let Some(rule) = with_roots(problem, m, known, places, r, own) {
            return Some(rule);
        }
        rest = later;
    }
    None
}
