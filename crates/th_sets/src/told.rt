//! SE9 and SE10, literal by literal: that a set is within another, and that it has a member in common with
//! one, as those tell that stand in a set term.
ghost use Rattle.std.specs.Prelude.{◌≡◌, ◌<◌, length, None};
ghost use Rattle.std.specs.Option.{option_or};
ghost use Rattle.sc_terms.specs.Tables.{tree, AreBelow};
ghost use Rattle.sc_rule_laws.specs.Sets.{se9, se10};
ghost use Rattle.sc_rule_laws.specs.Terms.{written};
ghost use Rattle.sc_rule_instances.specs.Saying.{literal_of};
ghost use Rattle.th_sets.specs.Rows.{told_count as told_counted, member_at as member_at_place, told_one as told_one_row, told_all as told_all_row, told_row, told_of};

use sc_clauses::Lit;
use sc_footprint::Problem;
use sc_lists::Text;
use sc_rule_instances::{NOWHERE, common, member, members, negated_if, subset};

fn told_count(count: usize, index: u64) -> Option<u128>
    ensures { result ≡ told_counted count index }
{
    if index < count as u64 {
        Some(2)
    } else if index == count as u64 {
        Some(count as u128 + 1)
    } else {
        None
    }
}

/// How many literals an instance has that those tell which stand in a term; none if it is no set term.
pub(crate) fn told_by(problem: &Problem<'_>, set: u64, index: u64) -> Option<u128>
    requires { set < length problem.now.nodes }
    ensures { result ≡ told_of (written (tree problem.now.nodes set)) index }
{
    match members(problem, set) {
        Some(parts) => told_count(parts.len(), index),
        None => None,
    }
}

/// The same of the first of two terms, or, if it is no set term, of the second.
pub(crate) fn told_by_one(problem: &Problem<'_>, s: u64, t: u64, index: u64) -> Option<u128>
    requires s_in { s < length problem.now.nodes }
    requires t_in { t < length problem.now.nodes }
    ensures { result ≡ told_of (option_or (written (tree problem.now.nodes s)) (written (tree problem.now.nodes t)))
        index }
{
    match members(problem, s) {
        Some(parts) => told_count(parts.len(), index),
        None => told_by(problem, t, index),
    }
}

/// Whether the part at a place is a member of a set, with a sign.
fn member_at(problem: &Problem<'_>, sign: bool, set: u64, parts: &[(Text, u64)], place: u64) -> Lit
    requires set_in { set < length problem.now.nodes }
    requires parts_in { AreBelow (length problem.now.nodes) parts.now }
    ensures { result ≡ member_at_place problem.now sign set parts.now place }
{
    match parts.get(place as usize) {
        Some(part) => negated_if(sign, member(problem, part.1, set)),
        None => NOWHERE,
    }
}

/// The same where a place may be past every part.
#[tactic(auto, using(crate::proofs::RowLaws::member_past))]
fn member_from(
    problem: &Problem<'_>,
    sign: bool,
    set: u64,
    parts: &[(Text, u64)],
    place: u128,
) -> Lit
    requires set_in { set < length problem.now.nodes }
    requires parts_in { AreBelow (length problem.now.nodes) parts.now }
    ensures { result ≡ member_at_place problem.now sign set parts.now place }
{
    if place < parts.len() as u128 {
        member_at(problem, sign, set, parts, place as u64)
    } else {
        NOWHERE
    }
}

/// Of one that stands in a set term: that the told literal is so, and so is that it is a member of
/// another set, both with a sign.
fn told_one(
    problem: &Problem<'_>,
    sign: bool,
    told: Lit,
    set: u64,
    parts: &[(Text, u64)],
    index: u64,
    place: u128,
) -> Lit
    requires set_in { set < length problem.now.nodes }
    requires parts_in { AreBelow (length problem.now.nodes) parts.now }
    ensures { result ≡ told_one_row problem.now sign told set parts.now index place }
{
    if place == 0 {
        negated_if(!sign, told)
    } else if place == 1 {
        member_at(problem, sign, set, parts, index)
    } else {
        NOWHERE
    }
}

/// Of all that stand in a set term.
fn told_all(
    problem: &Problem<'_>,
    sign: bool,
    told: Lit,
    set: u64,
    parts: &[(Text, u64)],
    place: u128,
) -> Lit
    requires set_in { set < length problem.now.nodes }
    requires parts_in { AreBelow (length problem.now.nodes) parts.now }
    ensures { result ≡ told_all_row problem.now sign told set parts.now place }
{
    if place == 0 {
        negated_if(sign, told)
    } else {
        member_from(problem, !sign, set, parts, place - 1)
    }
}

/// The literal at a place of an instance that those which stand in a set term tell.
fn told_literal(
    problem: &Problem<'_>,
    sign: bool,
    told: Lit,
    set: u64,
    parts: &[(Text, u64)],
    index: u64,
    place: u128,
) -> Lit
    requires set_in { set < length problem.now.nodes }
    requires parts_in { AreBelow (length problem.now.nodes) parts.now }
    ensures { result ≡ told_row problem.now sign told set parts.now index place }
{
    let count = parts.len() as u64;
    if index < count {
        told_one(problem, sign, told, set, parts, index, place)
    } else if index == count {
        told_all(problem, sign, told, set, parts, place)
    } else {
        NOWHERE
    }
}

pub(crate) fn inclusion_literal(
    problem: &Problem<'_>,
    s: u64,
    t: u64,
    index: u64,
    place: u128,
) -> Lit
    requires s_in { s < length problem.now.nodes }
    requires t_in { t < length problem.now.nodes }
    ensures { result ≡ literal_of problem.now (se9 (tree problem.now.nodes s) (tree problem.now.nodes t) index) place }
{
    match members(problem, s) {
        Some(parts) => {
            let told = subset(problem, s, t);
            told_literal(problem, true, told, t, parts, index, place)
        }
        None => NOWHERE,
    }
}

/// The literal at a place of SE10 for a set that is no set term and another.
fn turned_literal(problem: &Problem<'_>, s: u64, t: u64, index: u64, place: u128) -> Lit
    requires s_in { s < length problem.now.nodes }
    requires t_in { t < length problem.now.nodes }
    requires plain { written (tree problem.now.nodes s) ≡ None }
    ensures { result ≡ literal_of problem.now (se10 (tree problem.now.nodes s) (tree problem.now.nodes t) index) place }
{
    match members(problem, t) {
        Some(parts) => {
            let told = common(problem, s, t);
            told_literal(problem, false, told, s, parts, index, place)
        }
        None => NOWHERE,
    }
}

pub(crate) fn common_literal(problem: &Problem<'_>, s: u64, t: u64, index: u64, place: u128) -> Lit
    requires s_in { s < length problem.now.nodes }
    requires t_in { t < length problem.now.nodes }
    ensures { result ≡ literal_of problem.now (se10 (tree problem.now.nodes s) (tree problem.now.nodes t) index) place }
{
    match members(problem, s) {
        Some(parts) => {
            let told = common(problem, s, t);
            told_literal(problem, false, told, t, parts, index, place)
        }
        None => turned_literal(problem, s, t, index, place),
    }
}
