//! The members that an assignment gives to a set.
ghost use Rattle.std.specs.Prelude.{◌≡◌, ◌++◌, ◌<◌, ℕ, List, length, map, IfOk, OnOk};
ghost use Rattle.std.specs.List.{AllByRecursion};
ghost use Rattle.sc_model_values.specs.Models.{model, truth_in};
ghost use Rattle.sc_model_laws.specs.Vals.{assigned, elements, member_in};
ghost use Rattle.sc_terms.specs.Tables.{tree};

use crate::truth::truth;
use sc_clauses::Assignment;
use sc_footprint::Problem;
use sc_lists::{Seq, Text};
use sc_rule_instances::{closed_at, members};
use sc_sorts::{BinaryOp, Node};
use std::alloc::{AllocError, Global};

/// Puts what a term says is a member of a set, if it says so and is true.
fn put_member(
    problem: &Problem<'_>,
    m: &Assignment,
    set: u64,
    term: u64,
    members: &mut Seq<u64>,
) -> Result<(), AllocError>
    requires set_in { set < length problem.now.nodes }
    requires term_in { term < length problem.now.nodes }
    requires members_in { AllByRecursion (λ n. n < length problem.now.nodes) members.old }
    ensures value { OnOk result (map (tree problem.now.nodes) members.new
        ≡ map (tree problem.now.nodes) members.old
        ++ member_in (truth_in problem.now m.now) (tree problem.now.nodes set) (tree problem.now.nodes term)) }
    ensures within { OnOk result (AllByRecursion (λ n. n < length problem.now.nodes) members.new) }
{
    match problem.terms().node(term) {
        Node::Two(BinaryOp::Member, member, of) => {
            if problem.terms().is_same(*of, set) && truth(problem, m, term) {
                members.push(*member)?;
            }
            Ok(())
        }
        _ => Ok(()),
    }
}

/// The members that an assignment gives to a set, a term of the table: each term y of a closed term
/// `member y set` that is true, by their numbers in the table and in the order of these closed terms.
pub fn assigned_of(
    alloc: Global,
    problem: &Problem<'_>,
    m: &Assignment,
    term: u64,
) -> Result<Seq<u64>, AllocError>
    requires { term < length problem.now.nodes }
    ensures value { IfOk result (λ ys. (names : List (List ℕ)) → map (tree problem.now.nodes) ys
        ≡ assigned (model problem.now m.now names) (tree problem.now.nodes term)) }
    ensures within { IfOk result (AllByRecursion (λ y. y < length problem.now.nodes)) }
{
    let mut members = Seq::new(alloc);
    for place in 0..problem.closed_count() {
        let closed = closed_at(problem, place);
        put_member(problem, m, term, closed, &mut members)?;
    }
    Ok(members)
}

/// The numbers of parts.
fn part_numbers(alloc: Global, parts: &[(Text, u64)]) -> Result<Seq<u64>, AllocError>
    ensures { IfOk result (λ ys. ys ≡ map (λ p. p.1) parts.now) }
{
    let mut numbers = Seq::new(alloc);
    for part in parts {
        numbers.push(part.1)?;
    }
    Ok(numbers)
}

/// The terms of the members of a set, a term of the table: of a set term those that stand there, of any
/// other what is assigned to it.
pub fn elements_of(
    alloc: Global,
    problem: &Problem<'_>,
    m: &Assignment,
    term: u64,
) -> Result<Seq<u64>, AllocError>
    requires { term < length problem.now.nodes }
    ensures value { IfOk result (λ ys. (names : List (List ℕ)) → map (tree problem.now.nodes) ys
        ≡ elements (model problem.now m.now names) (tree problem.now.nodes term)) }
    ensures within { IfOk result (AllByRecursion (λ y. y < length problem.now.nodes)) }
{
    match members(problem, term) {
        Some(parts) => part_numbers(alloc, parts),
        None => assigned_of(alloc, problem, m, term),
    }
}
