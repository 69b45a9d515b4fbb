//! What each rule says of terms of the table, literal by literal.
ghost use Rattle.std.specs.Prelude.{◌≡◌, ◌<◌, ◌&&◌, length, None, IfSome};
ghost use Rattle.sc_clauses.specs.Clauses.{positive, negation as negated};
ghost use Rattle.sc_terms.specs.Tables.{tree, AreBelow};
ghost use Rattle.sc_terms.specs.TreeSorts.{tree_sort};
ghost use Rattle.sc_rule_laws.specs.Sets.{se2, se3};
ghost use Rattle.sc_rule_laws.specs.Terms.{is_set};
ghost use Rattle.sc_rule_instances.specs.Saying.{count_of, literal_of};
ghost use Rattle.th_sets.specs.Rows.{IsPlaced, placed as placed_rule, two_at, three_at, is_set_node, is_set_over, equal_at as equal_at_place, side_count as side_counted, equal_count as equal_counted, row_count, row_literal, listed_row, standing_row, of_three, missing_lit, shared_lit, equal_lit, member_lit, subset_lit, common_lit, missing_row, shared_row, both_row, equal_row};

use crate::told::{common_literal, inclusion_literal, told_by, told_by_one};
use sc_clauses::{Lit, negation};
use sc_footprint::Problem;
use sc_lists::Text;
use sc_rule_instances::{
    NOWHERE, SetRule, common, equal, find, is_sort_set, member, members, subset,
};
use sc_sorts::{BinaryOp, ManyOp, Node, Sort};

// ---- terms of the table in place of closed terms

fn two(problem: &Problem<'_>, a: u64, b: u64) -> Option<(u64, u64)>
    ensures value { result ≡ two_at problem.now a b }
    ensures within { IfSome result (λ t. (t.0 < length problem.now.nodes) × (t.1 < length problem.now.nodes)) }
{
    let a = problem.term(a)?;
    let b = problem.term(b)?;
    Some((a, b))
}

fn three(problem: &Problem<'_>, a: u64, b: u64, c: u64) -> Option<(u64, u64, u64)>
    ensures value { result ≡ three_at problem.now a b c }
    ensures within { IfSome result (λ t. (t.0 < length problem.now.nodes) × (t.1 < length problem.now.nodes)
        × (t.2 < length problem.now.nodes)) }
{
    let a = problem.term(a)?;
    let b = problem.term(b)?;
    let c = problem.term(c)?;
    Some((a, b, c))
}

/// The instance by the numbers of its terms in the table. None where one of them isn't closed.
pub(crate) fn placed(problem: &Problem<'_>, rule: SetRule) -> Option<SetRule>
    ensures value { result ≡ placed_rule problem.now rule }
    ensures within { IfSome result (IsPlaced problem.now) }
{
    match rule {
        SetRule::Se1(x, y, s) => {
            let (x, y, s) = three(problem, x, y, s)?;
            Some(SetRule::Se1(x, y, s))
        }
        SetRule::Se2(x, s) => {
            let (x, s) = two(problem, x, s)?;
            Some(SetRule::Se2(x, s))
        }
        SetRule::Se3(x, s, i) => {
            let (x, s) = two(problem, x, s)?;
            Some(SetRule::Se3(x, s, i))
        }
        SetRule::Se4(s, t, x) => {
            let (s, t, x) = three(problem, s, t, x)?;
            Some(SetRule::Se4(s, t, x))
        }
        SetRule::Se5(s, t, i) => {
            let (s, t) = two(problem, s, t)?;
            Some(SetRule::Se5(s, t, i))
        }
        SetRule::Se6(s, t, i) => {
            let (s, t) = two(problem, s, t)?;
            Some(SetRule::Se6(s, t, i))
        }
        SetRule::Se7(s, t, x) => {
            let (s, t, x) = three(problem, s, t, x)?;
            Some(SetRule::Se7(s, t, x))
        }
        SetRule::Se8(s, t, i) => {
            let (s, t) = two(problem, s, t)?;
            Some(SetRule::Se8(s, t, i))
        }
        SetRule::Se9(s, t, i) => {
            let (s, t) = two(problem, s, t)?;
            Some(SetRule::Se9(s, t, i))
        }
        SetRule::Se10(s, t, i) => {
            let (s, t) = two(problem, s, t)?;
            Some(SetRule::Se10(s, t, i))
        }
    }
}

// ---- SE1, SE4 and SE7

fn move_literal(problem: &Problem<'_>, x: u64, y: u64, set: u64, place: u128) -> Lit
    requires x_in { x < length problem.now.nodes }
    requires y_in { y < length problem.now.nodes }
    requires set_in { set < length problem.now.nodes }
    ensures { result ≡ of_three (negated (equal_lit problem.now x y)) (negated (member_lit problem.now x set))
        (member_lit problem.now y set) place }
{
    if place == 0 {
        negation(equal(problem, x, y))
    } else if place == 1 {
        negation(member(problem, x, set))
    } else if place == 2 {
        member(problem, y, set)
    } else {
        NOWHERE
    }
}

fn within_literal(problem: &Problem<'_>, s: u64, t: u64, x: u64, place: u128) -> Lit
    requires s_in { s < length problem.now.nodes }
    requires t_in { t < length problem.now.nodes }
    requires x_in { x < length problem.now.nodes }
    ensures { result ≡ of_three (negated (subset_lit problem.now s t)) (negated (member_lit problem.now x s))
        (member_lit problem.now x t) place }
{
    if place == 0 {
        negation(subset(problem, s, t))
    } else if place == 1 {
        negation(member(problem, x, s))
    } else if place == 2 {
        member(problem, x, t)
    } else {
        NOWHERE
    }
}

fn meeting_literal(problem: &Problem<'_>, s: u64, t: u64, x: u64, place: u128) -> Lit
    requires s_in { s < length problem.now.nodes }
    requires t_in { t < length problem.now.nodes }
    requires x_in { x < length problem.now.nodes }
    ensures { result ≡ of_three (negated (member_lit problem.now x s)) (negated (member_lit problem.now x t))
        (common_lit problem.now s t) place }
{
    if place == 0 {
        negation(member(problem, x, s))
    } else if place == 1 {
        negation(member(problem, x, t))
    } else if place == 2 {
        common(problem, s, t)
    } else {
        NOWHERE
    }
}

// ---- SE2 and SE3

/// Whether a node is a set term whose members are of a sort.
fn is_set_of(node: &Node, sort: &Sort) -> bool
    ensures { result ≡ is_set_node sort.now node.now }
{
    match node {
        Node::Many(ManyOp::Set(own), _) => *sort == *own,
        _ => false,
    }
}

/// Whether a term is a set term whose members are of another term's sort.
fn is_over(problem: &Problem<'_>, x: u64, set: u64) -> bool
    requires x_in { x < length problem.now.nodes }
    requires set_in { set < length problem.now.nodes }
    ensures { result ≡ is_set_over (tree_sort (tree problem.now.nodes x)) (tree problem.now.nodes set) }
{
    let terms = problem.terms();
    is_set_of(terms.node(set), terms.sort(x))
}

/// The equation of a term with the part at a place.
fn equal_at(problem: &Problem<'_>, x: u64, parts: &[(Text, u64)], place: u64) -> Lit
    requires x_in { x < length problem.now.nodes }
    requires parts_in { AreBelow (length problem.now.nodes) parts.now }
    ensures { result ≡ equal_at_place problem.now x parts.now place }
{
    match parts.get(place as usize) {
        Some(part) => equal(problem, x, part.1),
        None => NOWHERE,
    }
}

/// The same where a place may be past every part.
#[tactic(auto, using(crate::proofs::RowLaws::equal_past))]
fn equal_from(problem: &Problem<'_>, x: u64, parts: &[(Text, u64)], place: u128) -> Lit
    requires x_in { x < length problem.now.nodes }
    requires parts_in { AreBelow (length problem.now.nodes) parts.now }
    ensures { result ≡ equal_at_place problem.now x parts.now place }
{
    if place < parts.len() as u128 {
        equal_at(problem, x, parts, place as u64)
    } else {
        NOWHERE
    }
}

fn listed_count(problem: &Problem<'_>, x: u64, set: u64) -> Option<u128>
    requires x_in { x < length problem.now.nodes }
    requires set_in { set < length problem.now.nodes }
    ensures { result ≡ count_of (se2 (tree problem.now.nodes x) (tree problem.now.nodes set)) }
{
    match members(problem, set) {
        Some(parts) => {
            if is_over(problem, x, set) {
                Some(parts.len() as u128 + 1)
            } else {
                None
            }
        }
        None => None,
    }
}

fn listed_at(problem: &Problem<'_>, x: u64, set: u64, parts: &[(Text, u64)], place: u128) -> Lit
    requires x_in { x < length problem.now.nodes }
    requires set_in { set < length problem.now.nodes }
    requires parts_in { AreBelow (length problem.now.nodes) parts.now }
    ensures { result ≡ listed_row problem.now x set parts.now place }
{
    if place == 0 {
        negation(member(problem, x, set))
    } else {
        equal_from(problem, x, parts, place - 1)
    }
}

fn listed_literal(problem: &Problem<'_>, x: u64, set: u64, place: u128) -> Lit
    requires x_in { x < length problem.now.nodes }
    requires set_in { set < length problem.now.nodes }
    ensures { result ≡ literal_of problem.now (se2 (tree problem.now.nodes x) (tree problem.now.nodes set)) place }
{
    match members(problem, set) {
        Some(parts) => {
            if is_over(problem, x, set) {
                listed_at(problem, x, set, parts, place)
            } else {
                NOWHERE
            }
        }
        None => NOWHERE,
    }
}

fn standing_count(problem: &Problem<'_>, x: u64, set: u64, index: u64) -> Option<u128>
    requires x_in { x < length problem.now.nodes }
    requires set_in { set < length problem.now.nodes }
    ensures { result ≡ count_of (se3 (tree problem.now.nodes x) (tree problem.now.nodes set) index) }
{
    match members(problem, set) {
        Some(parts) => {
            if index < parts.len() as u64 {
                Some(2)
            } else {
                None
            }
        }
        None => None,
    }
}

fn standing_at(
    problem: &Problem<'_>,
    x: u64,
    set: u64,
    parts: &[(Text, u64)],
    index: u64,
    place: u128,
) -> Lit
    requires x_in { x < length problem.now.nodes }
    requires set_in { set < length problem.now.nodes }
    requires parts_in { AreBelow (length problem.now.nodes) parts.now }
    ensures { result ≡ standing_row problem.now x set parts.now index place }
{
    if place == 0 {
        negation(equal_at(problem, x, parts, index))
    } else if place == 1 {
        member(problem, x, set)
    } else {
        NOWHERE
    }
}

fn standing_literal(problem: &Problem<'_>, x: u64, set: u64, index: u64, place: u128) -> Lit
    requires x_in { x < length problem.now.nodes }
    requires set_in { set < length problem.now.nodes }
    ensures { result ≡ literal_of problem.now (se3 (tree problem.now.nodes x) (tree problem.now.nodes set)
        index) place }
{
    match members(problem, set) {
        Some(parts) => {
            if index < parts.len() as u64 {
                standing_at(problem, x, set, parts, index, place)
            } else {
                NOWHERE
            }
        }
        None => NOWHERE,
    }
}

// ---- SE5 and SE6

fn side_count(side: u64) -> Option<u128>
    ensures { result ≡ side_counted side }
{
    if side == 0 {
        Some(2)
    } else if side == 1 {
        Some(2)
    } else {
        None
    }
}

/// The literal of a pick being a member of a set; one of no atom where the pick isn't in the table.
fn pick_member(problem: &Problem<'_>, pick: Option<u64>, set: u64) -> Lit
    requires pick_in { IfSome pick (λ n. n < length problem.now.nodes) }
    requires set_in { set < length problem.now.nodes }
    ensures some { IfSome pick (λ n. result ≡ member_lit problem.now n set) }
    ensures none { pick ≡ None → result ≡ positive 0 }
{
    match pick {
        Some(n) => member(problem, n, set),
        None => NOWHERE,
    }
}

/// The literal of the least member of a set that isn't in another being a member of a third.
fn missing_member(problem: &Problem<'_>, s: u64, t: u64, set: u64) -> Lit
    requires s_in { s < length problem.now.nodes }
    requires t_in { t < length problem.now.nodes }
    requires set_in { set < length problem.now.nodes }
    ensures { result ≡ missing_lit problem.now s t set }
{
    problem.laws();
    pick_member(
        problem,
        find(problem, Node::Two(BinaryOp::DifferencePick, s, t)),
        set,
    )
}

/// The literal of the least member of two sets being a member of a third.
fn shared_member(problem: &Problem<'_>, s: u64, t: u64, set: u64) -> Lit
    requires s_in { s < length problem.now.nodes }
    requires t_in { t < length problem.now.nodes }
    requires set_in { set < length problem.now.nodes }
    ensures { result ≡ shared_lit problem.now s t set }
{
    problem.laws();
    pick_member(
        problem,
        find(problem, Node::Two(BinaryOp::CommonPick, s, t)),
        set,
    )
}

fn missing_literal(problem: &Problem<'_>, s: u64, t: u64, side: u64, place: u128) -> Lit
    requires s_in { s < length problem.now.nodes }
    requires t_in { t < length problem.now.nodes }
    ensures { result ≡ missing_row problem.now s t side place }
{
    if side == 0 {
        if place == 0 {
            subset(problem, s, t)
        } else if place == 1 {
            missing_member(problem, s, t, s)
        } else {
            NOWHERE
        }
    } else if side == 1 {
        if place == 0 {
            subset(problem, s, t)
        } else if place == 1 {
            negation(missing_member(problem, s, t, t))
        } else {
            NOWHERE
        }
    } else {
        NOWHERE
    }
}

fn shared_literal(problem: &Problem<'_>, s: u64, t: u64, side: u64, place: u128) -> Lit
    requires s_in { s < length problem.now.nodes }
    requires t_in { t < length problem.now.nodes }
    ensures { result ≡ shared_row problem.now s t side place }
{
    if side == 0 {
        if place == 0 {
            negation(common(problem, s, t))
        } else if place == 1 {
            shared_member(problem, s, t, s)
        } else {
            NOWHERE
        }
    } else if side == 1 {
        if place == 0 {
            negation(common(problem, s, t))
        } else if place == 1 {
            shared_member(problem, s, t, t)
        } else {
            NOWHERE
        }
    } else {
        NOWHERE
    }
}

// ---- SE8

fn are_sets(problem: &Problem<'_>, s: u64, t: u64) -> bool
    requires s_in { s < length problem.now.nodes }
    requires t_in { t < length problem.now.nodes }
    ensures { result ≡ (is_set (tree problem.now.nodes s) && is_set (tree problem.now.nodes t)) }
{
    is_sort_set(problem, s) && is_sort_set(problem, t)
}

fn equal_count(problem: &Problem<'_>, s: u64, t: u64, side: u64) -> Option<u128>
    requires s_in { s < length problem.now.nodes }
    requires t_in { t < length problem.now.nodes }
    ensures { result ≡ equal_counted problem.now s t side }
{
    if side == 0 {
        Some(2)
    } else if side == 1 {
        Some(2)
    } else if side == 2 {
        if are_sets(problem, s, t) {
            Some(3)
        } else {
            None
        }
    } else {
        None
    }
}

fn both_literal(problem: &Problem<'_>, s: u64, t: u64, place: u128) -> Lit
    requires s_in { s < length problem.now.nodes }
    requires t_in { t < length problem.now.nodes }
    ensures { result ≡ both_row problem.now s t place }
{
    if !are_sets(problem, s, t) {
        return NOWHERE;
    }
    if place == 0 {
        equal(problem, s, t)
    } else if place == 1 {
        negation(subset(problem, s, t))
    } else if place == 2 {
        negation(subset(problem, t, s))
    } else {
        NOWHERE
    }
}

fn equal_literal(problem: &Problem<'_>, s: u64, t: u64, side: u64, place: u128) -> Lit
    requires s_in { s < length problem.now.nodes }
    requires t_in { t < length problem.now.nodes }
    ensures { result ≡ equal_row problem.now s t side place }
{
    if side == 0 {
        if place == 0 {
            negation(equal(problem, s, t))
        } else if place == 1 {
            subset(problem, s, t)
        } else {
            NOWHERE
        }
    } else if side == 1 {
        if place == 0 {
            negation(equal(problem, s, t))
        } else if place == 1 {
            subset(problem, t, s)
        } else {
            NOWHERE
        }
    } else if side == 2 {
        both_literal(problem, s, t, place)
    } else {
        NOWHERE
    }
}

// ---- all rules

/// How many literals an instance has. None exactly where it isn't of its rule's form.
pub(crate) fn count(problem: &Problem<'_>, rule: SetRule) -> Option<u128>
    requires { IsPlaced problem.now rule }
    ensures { result ≡ row_count problem.now rule }
{
    match rule {
        SetRule::Se1(_, _, _) => Some(3),
        SetRule::Se2(x, s) => listed_count(problem, x, s),
        SetRule::Se3(x, s, i) => standing_count(problem, x, s, i),
        SetRule::Se4(_, _, _) => Some(3),
        SetRule::Se5(_, _, i) => side_count(i),
        SetRule::Se6(_, _, i) => side_count(i),
        SetRule::Se7(_, _, _) => Some(3),
        SetRule::Se8(s, t, i) => equal_count(problem, s, t, i),
        SetRule::Se9(s, _, i) => told_by(problem, s, i),
        SetRule::Se10(s, t, i) => told_by_one(problem, s, t, i),
    }
}

/// The literal at a place of an instance; one of no atom past the last.
pub(crate) fn literal(problem: &Problem<'_>, rule: SetRule, place: u128) -> Lit
    requires { IsPlaced problem.now rule }
    ensures { result ≡ row_literal problem.now rule place }
{
    match rule {
        SetRule::Se1(x, y, s) => move_literal(problem, x, y, s, place),
        SetRule::Se2(x, s) => listed_literal(problem, x, s, place),
        SetRule::Se3(x, s, i) => standing_literal(problem, x, s, i, place),
        SetRule::Se4(s, t, x) => within_literal(problem, s, t, x, place),
        SetRule::Se5(s, t, i) => missing_literal(problem, s, t, i, place),
        SetRule::Se6(s, t, i) => shared_literal(problem, s, t, i, place),
        SetRule::Se7(s, t, x) => meeting_literal(problem, s, t, x, place),
        SetRule::Se8(s, t, i) => equal_literal(problem, s, t, i, place),
        SetRule::Se9(s, t, i) => inclusion_literal(problem, s, t, i, place),
        SetRule::Se10(s, t, i) => common_literal(problem, s, t, i, place),
    }
}
