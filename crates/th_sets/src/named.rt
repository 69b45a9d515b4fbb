//! What closed terms name.
ghost use Rattle.std.specs.Prelude.{◌≡◌, ◌++◌, ◌<◌, [], ◌∷◌, length, filter, IfOk, OnOk};
ghost use Rattle.sc_terms.specs.Tables.{tree, node_tree, PartsAreBelow};
ghost use Rattle.th_sets.specs.Named.{number_in, named_in, named_at as named_of, AreNames, IsNamePut, is_of_sets as sets_test};

use sc_footprint::Problem;
use sc_sorts::{BinaryOp, Node};
use std::alloc::{AllocError, Global};

/// What a closed term names, its parts by the numbers of closed terms.
#[derive(Clone, Copy)]
pub(crate) enum Named {
    /// That a set has a member.
    Member(u64, u64),
    /// That one set is within another.
    Subset(u64, u64),
    /// That two sets have a member in common.
    Common(u64, u64),
    /// Something else.
    Other,
}

/// The number of a closed term; 0 of a term that is none.
fn number(problem: &Problem<'_>, term: u64) -> u64
    requires { term < length problem.now.nodes }
    ensures { result ≡ number_in problem.now (tree problem.now.nodes term) }
{
    problem.laws();
    problem.terms().laws();
    problem.number_of(term).unwrap_or(0)
}

fn named_by(problem: &Problem<'_>, node: &Node) -> Named
    requires { PartsAreBelow (length problem.now.nodes) node.now }
    ensures { result ≡ named_in problem.now (node_tree problem.now.nodes node.now) }
{
    match node {
        Node::Two(BinaryOp::Member, x, set) => {
            Named::Member(number(problem, *x), number(problem, *set))
        }
        Node::Two(BinaryOp::Subset, s, t) => {
            Named::Subset(number(problem, *s), number(problem, *t))
        }
        Node::Two(BinaryOp::Common, s, t) => {
            Named::Common(number(problem, *s), number(problem, *t))
        }
        _ => Named::Other,
    }
}

/// What the closed term of a number names.
pub(crate) fn named_at(problem: &Problem<'_>, n: u64) -> Named
    ensures { result ≡ named_of problem.now n }
{
    match problem.term(n) {
        Some(at) => named_by(problem, problem.terms().node(at)),
        None => Named::Other,
    }
}

/// Puts a name after the others, if it is one.
fn put_name(names: &mut Vec<Named>, by: Named) -> Result<(), AllocError>
    ensures { OnOk result (IsNamePut names.old.items by names.new.items) }
{
    match by {
        Named::Member(_, _) => {
            names.push(by)?;
            Ok(())
        }
        Named::Subset(_, _) => {
            names.push(by)?;
            Ok(())
        }
        Named::Common(_, _) => {
            names.push(by)?;
            Ok(())
        }
        Named::Other => Ok(()),
    }
}

/// What the closed terms name.
pub(crate) fn names(alloc: Global, problem: &Problem<'_>) -> Result<Vec<Named>, AllocError>
    ensures { IfOk result (λ v. AreNames problem.now v.items) }
{
    let mut names = Vec::new(alloc);
    for n in 0..problem.closed_count() {
        put_name(&mut names, named_at(problem, n + 1))?;
    }
    Ok(names)
}

/// Whether a name is of two sets.
fn is_of_sets(by: Named) -> bool
    ensures { result ≡ sets_test by }
{
    match by {
        Named::Subset(_, _) => true,
        Named::Common(_, _) => true,
        Named::Member(_, _) => false,
        Named::Other => false,
    }
}

/// Puts a name after the others, if it is of two sets.
fn put_if_of_sets(names: &mut Vec<Named>, by: Named) -> Result<(), AllocError>
    ensures { OnOk result (names.new.items ≡ names.old.items ++ filter sets_test (by ∷ [])) }
{
    if is_of_sets(by) {
        names.push(by)?;
        return Ok(());
    }
    Ok(())
}

/// Those of some names that are of two sets: there may be few beside many memberships.
pub(crate) fn names_of_sets(alloc: Global, names: &[Named]) -> Result<Vec<Named>, AllocError>
    ensures { IfOk result (λ v. v.items ≡ filter sets_test names.now) }
{
    let mut found = Vec::new(alloc);
    let mut rest = names;
    while let Some((by, later)) = rest.split_first() {
        put_if_of_sets(&mut found, *by)?;
        rest = later;
    }
    Ok(found)
}
