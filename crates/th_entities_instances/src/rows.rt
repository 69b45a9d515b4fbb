//! What each rule says of closed terms, literal by literal.
ghost use Rattle.std.specs.Prelude.{◌≡◌, ◌<◌, ◌+◌, ◌^◌, ◌==◌, length, Some, None, IsSomeAnd, true, if◌then◌else◌};
ghost use Rattle.sc_rule_instances.specs.Saying.{count_of, literal_of};
ghost use Rattle.sc_footprint.specs.Problems.{literal_in};
ghost use Rattle.sc_rule_laws.specs.Entities.{en2, en4, en5, en6, en7, chosen_of, en8, eq9};
ghost use Rattle.sc_rule_laws.specs.Terms.{choices_in};
ghost use Rattle.sc_terms.specs.Tables.{tree};
ghost use Rattle.sc_terms.specs.TreeSorts.{tree_sort};
ghost use Rattle.sc_sorts.specs.declared.sort.Sort.{out-Sort};
ghost use Rattle.sc_terms.specs.Folds.{default_term, equal_term};
ghost use Rattle.sc_rule_instances.specs.Given.{IsClosed, term_at};
ghost use Rattle.th_entities_instances.specs.Alike.{IsAlikeIn};
ghost use Rattle.th_entities_instances.specs.Roots.{IsPairIn};
ghost use Rattle.th_entities_instances.specs.Rows.{AreClosed, attributes_said, inner_level, is_tag as tag_test, row_said, tags_said};

use crate::alike::{Alike, alike_literal, half_count};
use crate::declared::{
    above_name, choices_of, count_of_type, declared_above, entity_equal, is_acting, is_one_of,
    of_type_at, uid_at,
};
use crate::places::{Pair, TagPairs};
use crate::row::Row;
use crate::stored::{
    above_literal, are_ancestors_of, are_same_sets, is_tag, key_literal, moved_literal, owner,
    pair_equal, pair_member, tag_entity, tag_key,
};
use sc_clauses::Lit;
use sc_footprint::Problem;
use sc_rule_instances::{Closed, NOWHERE, negated_if};
use sc_sorts::Sort;

/// So many literals, where a test passes.
fn counted(test: bool, count: u128) -> Option<u128>
    ensures { result ≡ (if test then Some count else None) }
{
    if test { Some(count) } else { None }
}

// ---- EN1 and EN3

fn attributes_literal(problem: &Problem<'_>, entities: Pair, alike: Alike, place: u128) -> Lit
    requires entities { IsPairIn problem.now entities }
    requires alike { IsAlikeIn problem.now alike }
    requires place { IsSomeAnd (count_of (attributes_said problem.now entities alike)) (λ n. place < n) }
    ensures { result ≡ literal_of problem.now (attributes_said problem.now entities alike) place }
{
    if place == 0 {
        return pair_equal(problem, entities.first, entities.second, false);
    }
    alike_literal(problem, alike, place - 1)
}

fn tags_literal(problem: &Problem<'_>, tags: TagPairs, alike: Alike, place: u128) -> Lit
    requires entities { IsPairIn problem.now tags.entities }
    requires keys { IsPairIn problem.now tags.keys }
    requires alike { IsAlikeIn problem.now alike }
    requires place { IsSomeAnd (count_of (tags_said problem.now tags alike)) (λ n. place < n) }
    ensures { result ≡ literal_of problem.now (tags_said problem.now tags alike) place }
{
    if place == 0 {
        return pair_equal(problem, tags.entities.first, tags.entities.second, false);
    }
    if place == 1 {
        return pair_equal(problem, tags.keys.first, tags.keys.second, false);
    }
    alike_literal(problem, alike, place - 2)
}

// ---- EN2

fn sets_count(problem: &Problem<'_>, x: Closed, s: Closed, z: Closed) -> Option<u128>
    requires s { IsClosed problem.now s }
    requires z { IsClosed problem.now z }
    ensures { result ≡ count_of (en2 (term_at problem.now x) (term_at problem.now s) (term_at problem.now z)) }
{
    counted(are_same_sets(problem, s.term, z.term), 3)
}

fn sets_literal(problem: &Problem<'_>, x: Closed, s: Closed, z: Closed, place: u128) -> Lit
    requires x { IsClosed problem.now x }
    requires s { IsClosed problem.now s }
    requires z { IsClosed problem.now z }
    requires place { IsSomeAnd (count_of (en2 (term_at problem.now x) (term_at problem.now s) (term_at problem.now z)))
        (λ n. place < n) }
    ensures { result ≡ literal_of problem.now (en2 (term_at problem.now x) (term_at problem.now s)
        (term_at problem.now z)) place }
{
    if place == 0 {
        let e = owner(problem, s.term);
        let f = owner(problem, z.term);
        return pair_equal(problem, e, f, false);
    }
    if place == 1 {
        return pair_member(problem, x.term, s.term, false);
    }
    pair_member(problem, x.term, z.term, true)
}

// ---- EN4 and EN5

fn own_literal(problem: &Problem<'_>, e: Closed, place: u128) -> Lit
    requires e { IsClosed problem.now e }
    requires place { IsSomeAnd (count_of (en4 (term_at problem.now e))) (λ n. place < n) }
    ensures { result ≡ literal_of problem.now (en4 (term_at problem.now e)) place }
{
    let _ = place;
    let sort = problem.terms().sort(e.term);
    negated_if(false, above_literal(problem, e.term, sort, e.term))
}

fn through_count(problem: &Problem<'_>, e: Closed, f: Closed, x: Closed, u: Closed) -> Option<u128>
    requires f { IsClosed problem.now f }
    requires u { IsClosed problem.now u }
    ensures { result ≡ count_of (en5 (term_at problem.now e) (term_at problem.now f) (term_at problem.now x)
        (term_at problem.now u)) }
{
    counted(are_ancestors_of(problem, f.term, u.term), 3)
}

fn through_literal(
    problem: &Problem<'_>,
    e: Closed,
    f: Closed,
    x: Closed,
    u: Closed,
    place: u128,
) -> Lit
    requires e { IsClosed problem.now e }
    requires f { IsClosed problem.now f }
    requires x { IsClosed problem.now x }
    requires u { IsClosed problem.now u }
    requires place { IsSomeAnd (count_of (en5 (term_at problem.now e) (term_at problem.now f) (term_at problem.now x)
        (term_at problem.now u))) (λ n. place < n) }
    ensures { result ≡ literal_of problem.now (en5 (term_at problem.now e) (term_at problem.now f)
        (term_at problem.now x) (term_at problem.now u)) place }
{
    if place == 0 {
        let sort = problem.terms().sort(f.term);
        return negated_if(false, above_literal(problem, f.term, sort, e.term));
    }
    if place == 1 {
        return pair_member(problem, x.term, u.term, false);
    }
    moved_literal(problem, x.term, u.term, e.term)
}

// ---- EN6. With a tag go, after what tells its value, the keys of its entity, whether its key is one, and
// whether it is the default.

/// How many terms tell a term's value: the fields of a record, what an option holds, the bits of a
/// number, or the entities that it may be.
fn inner_count(problem: &Problem<'_>, n: u64) -> u64
    requires { n < length problem.now.nodes }
    ensures value { result ≡ inner_level (out-Sort (tree_sort (tree problem.now.nodes n))) }
    ensures small { result < 2 ^ 63 }
{
    match problem.terms().sort(n) {
        Sort::Record(fields) => fields.as_slice().len() as u64,
        Sort::Entity(_, choices) => choices.as_slice().len() as u64,
        Sort::Option(_) => 3,
        Sort::Long => 64,
        Sort::Decimal => 64,
        Sort::Ip => 257,
        _ => 0,
    }
}

/// The literal of a tag being the default.
fn default_literal(problem: &Problem<'_>, a: Closed) -> Lit
    requires closed { IsClosed problem.now a }
    requires tag { tag_test (term_at problem.now a) ≡ true }
    ensures { result ≡ literal_in problem.now (equal_term (term_at problem.now a) (default_term (tree_sort
        (term_at problem.now a)))) }
{
    let count = inner_count(problem, a.term);
    let Some(n) = problem.companion(a.number, count + 2) else {
        return NOWHERE;
    };
    problem.literal(n)
}

fn lacking_count(problem: &Problem<'_>, a: Closed) -> Option<u128>
    requires { IsClosed problem.now a }
    ensures { result ≡ count_of (en6 (term_at problem.now a)) }
{
    counted(is_tag(problem, a.term), 2)
}

fn lacking_literal(problem: &Problem<'_>, a: Closed, place: u128) -> Lit
    requires a { IsClosed problem.now a }
    requires place { IsSomeAnd (count_of (en6 (term_at problem.now a))) (λ n. place < n) }
    ensures { result ≡ literal_of problem.now (en6 (term_at problem.now a)) place }
{
    if place == 0 {
        let key = tag_key(problem, a.term);
        let e = tag_entity(problem, a.term);
        return key_literal(problem, key, e);
    }
    default_literal(problem, a)
}

// ---- EN7

fn declared_count(problem: &Problem<'_>, s: Closed, x: Closed) -> Option<u128>
    requires s { IsClosed problem.now s }
    requires x { IsClosed problem.now x }
    ensures { result ≡ count_of (en7 problem.now.schema (term_at problem.now s) (term_at problem.now x)) }
{
    let Some(uids) = declared_above(problem, s.term) else {
        return None;
    };
    let name = above_name(problem, s.term);
    if is_one_of(problem, x.term, name, uids) {
        return Some(1);
    }
    Some(count_of_type(name, uids) + 1)
}

fn declared_literal(problem: &Problem<'_>, s: Closed, x: Closed, place: u128) -> Lit
    requires s { IsClosed problem.now s }
    requires x { IsClosed problem.now x }
    requires place { IsSomeAnd (count_of (en7 problem.now.schema (term_at problem.now s) (term_at problem.now x)))
        (λ n. place < n) }
    ensures { result ≡ literal_of problem.now (en7 problem.now.schema (term_at problem.now s)
        (term_at problem.now x)) place }
{
    let Some(uids) = declared_above(problem, s.term) else {
        return NOWHERE;
    };
    let name = above_name(problem, s.term);
    if is_one_of(problem, x.term, name, uids) {
        return pair_member(problem, x.term, s.term, true);
    }
    if place == 0 {
        return pair_member(problem, x.term, s.term, false);
    }
    let Some(uid) = of_type_at(name, uids, place - 1) else {
        return NOWHERE;
    };
    entity_equal(problem, x.term, uid)
}

// ---- EN8 and EQ9

fn chosen_count(problem: &Problem<'_>, x: Closed, asked: bool) -> Option<u128>
    requires { IsClosed problem.now x }
    ensures { result ≡ count_of (chosen_of problem.now.schema (term_at problem.now x) asked
        (choices_in (term_at problem.now x))) }
{
    let uids = choices_of(problem, x.term);
    let some = !uids.is_empty();
    counted(asked && some, uids.len() as u128)
}

fn chosen_literal(problem: &Problem<'_>, x: Closed, asked: bool, place: u128) -> Lit
    requires x { IsClosed problem.now x }
    requires place { IsSomeAnd (count_of (chosen_of problem.now.schema (term_at problem.now x) asked
        (choices_in (term_at problem.now x)))) (λ n. place < n) }
    ensures { result ≡ literal_of problem.now (chosen_of problem.now.schema (term_at problem.now x) asked
        (choices_in (term_at problem.now x))) place }
{
    let _ = asked;
    let uids = choices_of(problem, x.term);
    let Some(uid) = uid_at(uids, place) else {
        return NOWHERE;
    };
    entity_equal(problem, x.term, uid)
}

fn acting_count(problem: &Problem<'_>, x: Closed) -> Option<u128>
    requires { IsClosed problem.now x }
    ensures { result ≡ count_of (en8 problem.now.schema (term_at problem.now x)) }
{
    chosen_count(problem, x, is_acting(problem, x.term))
}

fn acting_literal(problem: &Problem<'_>, x: Closed, place: u128) -> Lit
    requires x { IsClosed problem.now x }
    requires place { IsSomeAnd (count_of (en8 problem.now.schema (term_at problem.now x))) (λ n. place < n) }
    ensures { result ≡ literal_of problem.now (en8 problem.now.schema (term_at problem.now x)) place }
{
    chosen_literal(problem, x, is_acting(problem, x.term), place)
}

fn enumerated_count(problem: &Problem<'_>, x: Closed) -> Option<u128>
    requires { IsClosed problem.now x }
    ensures { result ≡ count_of (eq9 problem.now.schema (term_at problem.now x)) }
{
    chosen_count(problem, x, !is_acting(problem, x.term))
}

fn enumerated_literal(problem: &Problem<'_>, x: Closed, place: u128) -> Lit
    requires x { IsClosed problem.now x }
    requires place { IsSomeAnd (count_of (eq9 problem.now.schema (term_at problem.now x))) (λ n. place < n) }
    ensures { result ≡ literal_of problem.now (eq9 problem.now.schema (term_at problem.now x)) place }
{
    chosen_literal(problem, x, !is_acting(problem, x.term), place)
}

// ---- all rules

/// How many literals an instance has. None exactly where it isn't of its rule's form.
#[tactic(auto, using(crate::proofs::AlikeLaws::one_more, crate::proofs::AlikeLaws::two_more))]
pub(crate) fn count(problem: &Problem<'_>, row: Row) -> Option<u128>
    requires { AreClosed problem.now row }
    ensures { result ≡ count_of (row_said problem.now row) }
{
    match row {
        Row::Attributes(_, alike) => Some(half_count(alike.half) + 1),
        Row::Sets(x, s, z) => sets_count(problem, x, s, z),
        Row::Tags(_, alike) => Some(half_count(alike.half) + 2),
        Row::Own(_) => Some(1),
        Row::Through(e, f, x, u) => through_count(problem, e, f, x, u),
        Row::Lacking(a) => lacking_count(problem, a),
        Row::Declared(s, x) => declared_count(problem, s, x),
        Row::Acting(x) => acting_count(problem, x),
        Row::Enumerated(x) => enumerated_count(problem, x),
    }
}

/// The literal at a place of an instance.
pub(crate) fn literal(problem: &Problem<'_>, row: Row, place: u128) -> Lit
    requires closed { AreClosed problem.now row }
    requires place { IsSomeAnd (count_of (row_said problem.now row)) (λ n. place < n) }
    ensures { result ≡ literal_of problem.now (row_said problem.now row) place }
{
    match row {
        Row::Attributes(entities, alike) => attributes_literal(problem, entities, alike, place),
        Row::Sets(x, s, z) => sets_literal(problem, x, s, z, place),
        Row::Tags(tags, alike) => tags_literal(problem, tags, alike, place),
        Row::Own(e) => own_literal(problem, e, place),
        Row::Through(e, f, x, u) => through_literal(problem, e, f, x, u, place),
        Row::Lacking(a) => lacking_literal(problem, a, place),
        Row::Declared(s, x) => declared_literal(problem, s, x, place),
        Row::Acting(x) => acting_literal(problem, x, place),
        Row::Enumerated(x) => enumerated_literal(problem, x, place),
    }
}
