//! What each rule says of closed terms, literal by literal.
ghost use Rattle.std.specs.Prelude.{◌≡◌, ◌<◌, ◌&&◌, ◌==◌, length, true, Some, None, IsSomeAnd, if◌then◌else◌};
ghost use Rattle.sc_footprint.specs.Problems.{literal_in};
ghost use Rattle.sc_rule_instances.specs.Clauses.{literal_for};
ghost use Rattle.sc_rule_instances.specs.Saying.{count_of, literal_of};
ghost use Rattle.sc_rule_laws.specs.Equal.{are_options as options, eq1, eq2, eq3, eq4, eq5, eq6, eq7, eq8};
ghost use Rattle.sc_rule_laws.specs.Terms.{fields_of, is_named, is_option, one_sort};
ghost use Rattle.sc_terms.specs.Folds.{default_term, equal_term, held_term, present_term};
ghost use Rattle.sc_terms.specs.Tables.{tree};
ghost use Rattle.sc_sorts.specs.Inside.{held_sort};
ghost use Rattle.sc_terms.specs.TreeSorts.{tree_sort};
ghost use Rattle.sc_rule_instances.specs.Given.{IsClosed, term_at};
ghost use Rattle.th_equal.specs.Rows.{AreClosed, IsChoiceIf, IsFieldLiteral, IsThere, count_if, row_said};

use crate::row::Row;
use sc_clauses::Lit;
use sc_footprint::Problem;
use sc_rule_instances::{
    Closed, NOWHERE, equal, field_count, is_one_sort, is_sort_named, is_sort_option, negated_if,
    present,
};
use sc_sorts::Node;

/// So many literals, where a test passes.
fn counted(test: bool, count: u128) -> Option<u128>
    ensures { result ≡ (if test then Some count else None) }
{
    if test { Some(count) } else { None }
}

/// The literal of the equation of two closed terms, or its negation where it is said to be false.
fn pair_equal(problem: &Problem<'_>, x: Closed, y: Closed, said: bool) -> Lit
    requires x { IsClosed problem.now x }
    requires y { IsClosed problem.now y }
    ensures { result ≡ literal_for problem.now (said, equal_term (term_at problem.now x) (term_at problem.now y)) }
{
    negated_if(said, equal(problem, x.term, y.term))
}

// ---- EQ1

fn are_named(problem: &Problem<'_>, x: Closed, y: Closed, z: Closed) -> bool
    requires x { IsClosed problem.now x }
    requires y { IsClosed problem.now y }
    requires z { IsClosed problem.now z }
    ensures { result ≡ (is_named (term_at problem.now x) && (is_named (term_at problem.now y)
        && is_named (term_at problem.now z))) }
{
    is_sort_named(problem, x.term)
        && (is_sort_named(problem, y.term) && is_sort_named(problem, z.term))
}

fn chain_literal(problem: &Problem<'_>, x: Closed, y: Closed, z: Closed, place: u128) -> Lit
    requires x { IsClosed problem.now x }
    requires y { IsClosed problem.now y }
    requires z { IsClosed problem.now z }
    requires place { IsSomeAnd (count_of (eq1 (term_at problem.now x) (term_at problem.now y) (term_at problem.now z)))
        (λ n. place < n) }
    ensures { result ≡ literal_of problem.now (eq1 (term_at problem.now x) (term_at problem.now y)
        (term_at problem.now z)) place }
{
    if place == 0 {
        return pair_equal(problem, x, y, false);
    }
    if place == 1 {
        return pair_equal(problem, y, z, false);
    }
    pair_equal(problem, x, z, true)
}

// ---- EQ2

/// The condition of a choice and the two that it chooses from. None exactly of another term.
fn choice_of(problem: &Problem<'_>, x: Closed) -> Option<(u64, u64, u64)>
    requires { IsClosed problem.now x }
    ensures { IsChoiceIf problem.now (term_at problem.now x) result }
{
    match problem.terms().node(x.term) {
        Node::Choice(c, a, b) => Some((*c, *a, *b)),
        _ => None,
    }
}

fn choice_count(problem: &Problem<'_>, x: Closed, side: u64) -> Option<u128>
    requires { IsClosed problem.now x }
    ensures { result ≡ count_of (eq2 (term_at problem.now x) side) }
{
    match choice_of(problem, x) {
        Some(_) => counted(side < 2, 2),
        None => None,
    }
}

fn side_of(side: u64, a: u64, b: u64) -> u64
    ensures { result ≡ (if side == 0 then a else b) }
{
    if side == 0 { a } else { b }
}

fn choice_literal(problem: &Problem<'_>, x: Closed, side: u64, place: u128) -> Lit
    requires x { IsClosed problem.now x }
    requires place { IsSomeAnd (count_of (eq2 (term_at problem.now x) side)) (λ n. place < n) }
    ensures { result ≡ literal_of problem.now (eq2 (term_at problem.now x) side) place }
{
    let Some((c, a, b)) = choice_of(problem, x) else {
        return NOWHERE;
    };
    if place == 0 {
        return negated_if(side == 1, problem.literal(c));
    }
    equal(problem, x.term, side_of(side, a, b))
}

// ---- EQ3 and EQ4

/// How many fields two records of one sort have. None exactly where they are none.
fn common_fields(problem: &Problem<'_>, r: Closed, s: Closed) -> Option<u64>
    requires r { IsClosed problem.now r }
    requires s { IsClosed problem.now s }
    ensures { result ≡ count_if (one_sort (term_at problem.now r) (term_at problem.now s))
        (fields_of (term_at problem.now r)) }
{
    if is_one_sort(problem, r.term, s.term) {
        field_count(problem, r.term)
    } else {
        None
    }
}

/// The literal of the equation of two records' fields of a number.
fn field_literal(problem: &Problem<'_>, r: Closed, s: Closed, field: u64) -> Lit
    requires r { IsClosed problem.now r }
    requires s { IsClosed problem.now s }
    ensures { IsFieldLiteral problem.now (term_at problem.now r) (term_at problem.now s) field result }
{
    let Some(x) = problem.companion(r.number, field) else {
        return NOWHERE;
    };
    let Some(y) = problem.companion(s.number, field) else {
        return NOWHERE;
    };
    equal(problem, x, y)
}

fn field_row_count(problem: &Problem<'_>, r: Closed, s: Closed, field: u64) -> Option<u128>
    requires r { IsClosed problem.now r }
    requires s { IsClosed problem.now s }
    ensures { result ≡ count_of (eq3 (term_at problem.now r) (term_at problem.now s) field) }
{
    match common_fields(problem, r, s) {
        Some(count) => counted(field < count, 2),
        None => None,
    }
}

fn field_row_literal(problem: &Problem<'_>, r: Closed, s: Closed, field: u64, place: u128) -> Lit
    requires r { IsClosed problem.now r }
    requires s { IsClosed problem.now s }
    requires place { IsSomeAnd (count_of (eq3 (term_at problem.now r) (term_at problem.now s) field)) (λ n. place < n) }
    ensures { result ≡ literal_of problem.now (eq3 (term_at problem.now r) (term_at problem.now s) field) place }
{
    if place == 0 {
        return pair_equal(problem, r, s, false);
    }
    field_literal(problem, r, s, field)
}

fn fields_count(problem: &Problem<'_>, r: Closed, s: Closed) -> Option<u128>
    requires r { IsClosed problem.now r }
    requires s { IsClosed problem.now s }
    ensures { result ≡ count_of (eq4 (term_at problem.now r) (term_at problem.now s)) }
{
    match common_fields(problem, r, s) {
        Some(count) => Some(count as u128 + 1),
        None => None,
    }
}

fn fields_literal(problem: &Problem<'_>, r: Closed, s: Closed, place: u128) -> Lit
    requires r { IsClosed problem.now r }
    requires s { IsClosed problem.now s }
    requires place { IsSomeAnd (count_of (eq4 (term_at problem.now r) (term_at problem.now s))) (λ n. place < n) }
    ensures { result ≡ literal_of problem.now (eq4 (term_at problem.now r) (term_at problem.now s)) place }
{
    if place == 0 {
        return pair_equal(problem, r, s, true);
    }
    let Some(count) = common_fields(problem, r, s) else {
        return NOWHERE;
    };
    if place - 1 >= count as u128 {
        return NOWHERE;
    }
    negated_if(false, field_literal(problem, r, s, (place - 1) as u64))
}

// ---- EQ5 to EQ8. With an option go first whether it holds a value, what it holds, and whether that is
// the default.

fn are_options(problem: &Problem<'_>, o: Closed, q: Closed) -> bool
    requires o { IsClosed problem.now o }
    requires q { IsClosed problem.now q }
    ensures { result ≡ options (term_at problem.now o) (term_at problem.now q) }
{
    is_one_sort(problem, o.term, q.term) && is_sort_option(problem, o.term)
}

/// The literal whether an option holds a value, or its negation.
fn present_literal(problem: &Problem<'_>, o: Closed, said: bool) -> Lit
    requires { IsClosed problem.now o }
    ensures { result ≡ literal_for problem.now (said, present_term (term_at problem.now o)) }
{
    negated_if(said, present(problem, o.term))
}

/// What an option holds, or else the default.
fn held(problem: &Problem<'_>, o: Closed) -> Option<u64>
    requires o { IsClosed problem.now o }
    requires option { is_option (term_at problem.now o) ≡ true }
    ensures { IsThere problem.now (held_term (term_at problem.now o)) result }
{
    problem.companion(o.number, 1)
}

/// The literal of the equation of what two options hold, or its negation.
fn held_equal(problem: &Problem<'_>, o: Closed, q: Closed, said: bool) -> Lit
    requires o { IsClosed problem.now o }
    requires q { IsClosed problem.now q }
    requires options { options (term_at problem.now o) (term_at problem.now q) ≡ true }
    ensures { result ≡ literal_for problem.now (
      said,
      equal_term (held_term (term_at problem.now o))
          (held_term (term_at problem.now q)),
    ) }
{
    let Some(x) = held(problem, o) else {
        return NOWHERE;
    };
    let Some(y) = held(problem, q) else {
        return NOWHERE;
    };
    negated_if(said, equal(problem, x, y))
}

fn presence_literal(problem: &Problem<'_>, o: Closed, q: Closed, place: u128) -> Lit
    requires o { IsClosed problem.now o }
    requires q { IsClosed problem.now q }
    requires place { IsSomeAnd (count_of (eq5 (term_at problem.now o) (term_at problem.now q))) (λ n. place < n) }
    ensures { result ≡ literal_of problem.now (eq5 (term_at problem.now o) (term_at problem.now q)) place }
{
    if place == 0 {
        return pair_equal(problem, o, q, false);
    }
    if place == 1 {
        return present_literal(problem, o, false);
    }
    present_literal(problem, q, true)
}

fn held_literal(problem: &Problem<'_>, o: Closed, q: Closed, place: u128) -> Lit
    requires o { IsClosed problem.now o }
    requires q { IsClosed problem.now q }
    requires place { IsSomeAnd (count_of (eq6 (term_at problem.now o) (term_at problem.now q))) (λ n. place < n) }
    ensures { result ≡ literal_of problem.now (eq6 (term_at problem.now o) (term_at problem.now q)) place }
{
    if place == 0 {
        return pair_equal(problem, o, q, false);
    }
    held_equal(problem, o, q, true)
}

fn options_count(problem: &Problem<'_>, o: Closed, q: Closed, side: u64) -> Option<u128>
    requires o { IsClosed problem.now o }
    requires q { IsClosed problem.now q }
    ensures { result ≡ count_of (eq7 (term_at problem.now o) (term_at problem.now q) side) }
{
    if side == 0 {
        return counted(are_options(problem, o, q), 3);
    }
    if side == 1 {
        return counted(are_options(problem, o, q), 4);
    }
    None
}

fn options_literal(problem: &Problem<'_>, o: Closed, q: Closed, side: u64, place: u128) -> Lit
    requires o { IsClosed problem.now o }
    requires q { IsClosed problem.now q }
    requires place { IsSomeAnd (count_of (eq7 (term_at problem.now o) (term_at problem.now q) side)) (λ n. place < n) }
    ensures { result ≡ literal_of problem.now (eq7 (term_at problem.now o) (term_at problem.now q) side) place }
{
    if place == 0 {
        return pair_equal(problem, o, q, true);
    }
    if place == 1 {
        return present_literal(problem, o, side == 0);
    }
    if place == 2 {
        return present_literal(problem, q, side == 0);
    }
    held_equal(problem, o, q, false)
}

fn default_count(problem: &Problem<'_>, o: Closed) -> Option<u128>
    requires { IsClosed problem.now o }
    ensures { result ≡ count_of (eq8 (term_at problem.now o)) }
{
    counted(is_sort_option(problem, o.term), 2)
}

/// The literal whether what an option holds is the default.
fn default_equal(problem: &Problem<'_>, o: Closed) -> Lit
    requires o { IsClosed problem.now o }
    requires option { is_option (term_at problem.now o) ≡ true }
    ensures { result ≡ literal_in problem.now (equal_term (held_term (term_at problem.now o))
        (default_term (held_sort (tree_sort (term_at problem.now o))))) }
{
    let Some(n) = problem.companion(o.number, 2) else {
        return NOWHERE;
    };
    problem.literal(n)
}

fn default_literal(problem: &Problem<'_>, o: Closed, place: u128) -> Lit
    requires o { IsClosed problem.now o }
    requires place { IsSomeAnd (count_of (eq8 (term_at problem.now o))) (λ n. place < n) }
    ensures { result ≡ literal_of problem.now (eq8 (term_at problem.now o)) place }
{
    if place == 0 {
        return present_literal(problem, o, true);
    }
    default_equal(problem, o)
}

// ---- all rules

/// How many literals an instance has. None exactly where it isn't of its rule's form.
pub(crate) fn count(problem: &Problem<'_>, row: Row) -> Option<u128>
    requires { AreClosed problem.now row }
    ensures { result ≡ count_of (row_said problem.now row) }
{
    match row {
        Row::Chain(x, y, z) => counted(are_named(problem, x, y, z), 3),
        Row::Choice(x, side) => choice_count(problem, x, side),
        Row::Field(r, s, field) => field_row_count(problem, r, s, field),
        Row::Fields(r, s) => fields_count(problem, r, s),
        Row::Presence(o, q) => counted(are_options(problem, o, q), 3),
        Row::Held(o, q) => counted(are_options(problem, o, q), 2),
        Row::Options(o, q, side) => options_count(problem, o, q, side),
        Row::Default(o) => default_count(problem, o),
    }
}

/// The literal at a place of an instance.
pub(crate) fn literal(problem: &Problem<'_>, row: Row, place: u128) -> Lit
    requires closed { AreClosed problem.now row }
    requires place { IsSomeAnd (count_of (row_said problem.now row)) (λ n. place < n) }
    ensures { result ≡ literal_of problem.now (row_said problem.now row) place }
{
    match row {
        Row::Chain(x, y, z) => chain_literal(problem, x, y, z, place),
        Row::Choice(x, side) => choice_literal(problem, x, side, place),
        Row::Field(r, s, field) => field_row_literal(problem, r, s, field, place),
        Row::Fields(r, s) => fields_literal(problem, r, s, place),
        Row::Presence(o, q) => presence_literal(problem, o, q, place),
        Row::Held(o, q) => held_literal(problem, o, q, place),
        Row::Options(o, q, side) => options_literal(problem, o, q, side, place),
        Row::Default(o) => default_literal(problem, o, place),
    }
}
