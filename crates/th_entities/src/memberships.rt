//! The memberships that an assignment says are true.
ghost use Rattle.std.specs.Prelude.{◌≡◌, ◌<◌, length, IfOk, OnOk};
ghost use Rattle.sc_rule_laws.specs.Terms.{member};
ghost use Rattle.sc_terms.specs.Tables.{tree, node_tree, PartsAreBelow};
ghost use Rattle.sc_footprint.specs.Problems.{term_of};
ghost use Rattle.th_entities.specs.Memberships.{number_in, owner_in, is_above as above_test, membership_in, is_true as true_test, true_two, true_term, true_closed, AreMemberships, IsPut};

use crate::runs::put_in_order;
use crate::testing::is_out;
use sc_clauses::{Assignment, negation};
use sc_footprint::Problem;
use sc_sorts::{BinaryOp, Node, UnaryOp};
use std::alloc::{AllocError, Global};

/// That a set has a member, by the numbers of closed terms; 0 is the number of none.
#[derive(Clone, Copy, Debug)]
pub(crate) struct Membership {
    /// The member.
    pub(crate) member: u64,
    /// The set.
    pub(crate) set: u64,
    /// The entity that the set is the ancestors of; 0 of another set.
    pub(crate) owner: u64,
    /// Whether it is the ancestors of the member's sort.
    pub(crate) is_above: bool,
}

/// The number of a closed term; 0 of a term that is none.
fn number(problem: &Problem<'_>, term: u64) -> u64
    requires { term < length problem.now.nodes }
    ensures { result ≡ number_in problem.now (tree problem.now.nodes term) }
{
    problem.laws();
    problem.terms().laws();
    problem.number_of(term).unwrap_or(0)
}

/// The number of the entity that a set is the ancestors of.
fn owner(problem: &Problem<'_>, node: &Node) -> u64
    requires { PartsAreBelow (length problem.now.nodes) node.now }
    ensures { result ≡ owner_in problem.now (node_tree problem.now.nodes node.now) }
{
    match node {
        Node::One(UnaryOp::Ancestors(_), entity) => number(problem, *entity),
        _ => 0,
    }
}

/// Whether a set is the ancestors, of a term's sort, of an entity.
fn is_above(problem: &Problem<'_>, x: u64, node: &Node) -> bool
    requires { x < length problem.now.nodes }
    ensures { result ≡ above_test (tree problem.now.nodes x) (node_tree problem.now.nodes node.now) }
{
    match node {
        Node::One(UnaryOp::Ancestors(sort), _) => *sort == *problem.terms().sort(x),
        _ => false,
    }
}

/// The membership of two terms of the table.
#[tactic(auto, using(crate::proofs::MembershipLaws::membership_is))]
fn membership_of(problem: &Problem<'_>, x: u64, set: u64) -> Membership
    requires x_in { x < length problem.now.nodes }
    requires set_in { set < length problem.now.nodes }
    ensures { result ≡ membership_in problem.now (tree problem.now.nodes x) (tree problem.now.nodes set) }
{
    let node = problem.terms().node(set);
    let member = number(problem, x);
    let whole = number(problem, set);
    let entity = owner(problem, node);
    Membership {
        member,
        set: whole,
        owner: entity,
        is_above: is_above(problem, x, node),
    }
}

/// Whether an assignment says that a term is true.
#[tactic(auto, using(crate::proofs::MembershipLaws::true_is))]
fn is_true(problem: &Problem<'_>, m: &Assignment, term: u64) -> bool
    requires { term < length problem.now.nodes }
    ensures { result ≡ true_test problem.now m.now (tree problem.now.nodes term) }
{
    is_out(m, negation(problem.literal(term)))
}

/// The membership of two terms, if an assignment says that it is true.
#[tactic(auto, using(crate::proofs::MembershipLaws::said_true, crate::proofs::MembershipLaws::said_none))]
fn if_true(problem: &Problem<'_>, m: &Assignment, term: u64, x: u64, set: u64) -> Option<Membership>
    requires x_in { x < length problem.now.nodes }
    requires set_in { set < length problem.now.nodes }
    requires term_in { term < length problem.now.nodes }
    requires stands { tree problem.now.nodes term ≡ member (tree problem.now.nodes x) (tree problem.now.nodes set) }
    ensures { result ≡ true_two problem.now m.now (tree problem.now.nodes x) (tree problem.now.nodes set) }
{
    if is_true(problem, m, term) {
        Some(membership_of(problem, x, set))
    } else {
        None
    }
}

/// The same of a term that is one.
fn term_membership(problem: &Problem<'_>, m: &Assignment, term: u64) -> Option<Membership>
    requires { term < length problem.now.nodes }
    ensures { result ≡ true_term problem.now m.now (tree problem.now.nodes term) }
{
    match problem.terms().node(term) {
        Node::Two(BinaryOp::Member, x, set) => if_true(problem, m, term, *x, *set),
        _ => None,
    }
}

/// The same of the closed term of a number.
fn true_membership(problem: &Problem<'_>, m: &Assignment, n: u64) -> Option<Membership>
    ensures { result ≡ true_closed problem.now m.now (term_of problem.now n) }
{
    match problem.term(n) {
        Some(term) => term_membership(problem, m, term),
        None => None,
    }
}

/// Puts a membership after the others, if there is one.
fn put(known: &mut Vec<Membership>, added: Option<Membership>) -> Result<(), AllocError>
    ensures { OnOk result (IsPut known.old.items added known.new.items) }
{
    match added {
        Some(next) => {
            known.push(next)?;
            Ok(())
        }
        None => Ok(()),
    }
}

/// The closed memberships that an assignment says are true, those of one entity's ancestors one behind
/// the other.
pub(crate) fn true_memberships(
    alloc: Global,
    problem: &Problem<'_>,
    m: &Assignment,
) -> Result<Vec<Membership>, AllocError>
    ensures { IfOk result (λ v. AreMemberships problem.now m.now v.items) }
{
    let mut known = Vec::new(alloc);
    for n in 0..problem.closed_count() {
        put(&mut known, true_membership(problem, m, n + 1))?;
    }
    put_in_order(&mut known);
    Ok(known)
}
