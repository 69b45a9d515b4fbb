//! Labels of strings and entities, by the equations that an assignment says are true. The terms of the
//! table are put into classes: the sides of each such equation into one.
ghost use Rattle.std.specs.Prelude.{◌≡◌, ◌<◌, ◌↔◌, length, true, IfOk, IsTrue, Some};
ghost use Rattle.sc_terms.specs.Tables.{tree};
ghost use Rattle.sc_footprint.specs.Problems.{atoms};
ghost use Rattle.sc_rule_instances.specs.Known.{few_items, named_at, truth_of};
ghost use Rattle.sc_falsified.specs.Classes.{AreLabels};
ghost use Rattle.th_equal.specs.Naming.{AreNamed};
ghost use Rattle.th_equal.specs.Classes.{AreParents, IsCoarser};
ghost use Rattle.th_equal.specs.Joining.{AreSidesJoined, IsAtomJoined, AreAtomsJoined, IsPairJoined, IsRowJoined, IsItemJoined, AreRowsJoined, IsLabelAt, AreFirstLabels, has_choices as choices_test};

use crate::classes::{alone, join, labels};
use crate::equated::sides;
use crate::named::Named;
use sc_clauses::Assignment;
use sc_falsified::Equalities;
use sc_footprint::Problem;
use sc_sorts::{Leaf, Literal, Node};
use std::alloc::{AllocError, Global};

/// Makes the classes of a term's sides one, if it is an equation.
#[tactic(auto, using(crate::proofs::JoinLaws::sides_none, crate::proofs::JoinLaws::sides_joined, crate::proofs::ClassLaws::coarser_itself))]
fn join_sides(problem: &Problem<'_>, parents: &mut Vec<usize>, term: u64)
    requires term { term < length problem.now.nodes }
    requires sized { length parents.old.items ≡ length problem.now.nodes }
    requires parents { AreParents parents.old.items }
    ensures coarser { IsCoarser parents.old.items parents.new.items }
    ensures joined { AreSidesJoined problem.now (tree problem.now.nodes term) parents.new.items }
{
    problem.terms().laws();
    let Some((a, b)) = sides(problem, term) else {
        return;
    };
    join(parents, a as usize, b as usize);
}

/// Whether it is known that something is so.
fn is_so(known: Option<bool>) -> bool
    ensures { IsTrue result ↔ known ≡ Some true }
{
    match known {
        Some(value) => value,
        None => false,
    }
}

/// Makes the classes of an atom's sides one, if it is an equation that an assignment says is true.
#[tactic(auto, using(crate::proofs::JoinLaws::atom_untrue, crate::proofs::JoinLaws::atom_none, crate::proofs::JoinLaws::atom_joined, crate::proofs::ClassLaws::coarser_itself))]
fn join_atom(problem: &Problem<'_>, m: &Assignment, parents: &mut Vec<usize>, n: u64)
    requires sized { length parents.old.items ≡ length problem.now.nodes }
    requires parents { AreParents parents.old.items }
    ensures coarser { IsCoarser parents.old.items parents.new.items }
    ensures joined { IsAtomJoined problem.now m.now n parents.new.items }
{
    if !is_so(m.value(n)) {
        return;
    }
    let Some(term) = problem.atom(n) else {
        return;
    };
    join_sides(problem, parents, term);
}

/// The same of all atoms.
#[tactic(auto, using(crate::proofs::JoinLaws::atoms_start, crate::proofs::JoinLaws::atoms_next, crate::proofs::JoinLaws::atoms_end, crate::proofs::ClassLaws::coarser_itself, crate::proofs::ClassLaws::coarser_through))]
fn join_atoms(problem: &Problem<'_>, m: &Assignment, parents: &mut Vec<usize>)
    requires sized { length parents.old.items ≡ length problem.now.nodes }
    requires parents { AreParents parents.old.items }
    ensures coarser { IsCoarser parents.old.items parents.new.items }
    ensures joined { AreAtomsJoined problem.now m.now (length (atoms problem.now)) parents.new.items }
{
    for n in 0..problem.atom_count() {
        join_atom(problem, m, parents, n + 1);
    }
}

/// Whether a term is an entity with other entities beside it, of which one may be written twice.
fn has_choices(problem: &Problem<'_>, term: u64) -> bool
    requires { term < length problem.now.nodes }
    ensures { result ≡ choices_test (tree problem.now.nodes term) }
{
    match problem.terms().node(term) {
        Node::Leaf(Leaf::Literal(Literal::Entity(_, choices))) => !choices.is_empty(),
        _ => false,
    }
}

/// Makes the classes of two items one, if they are known to be equal.
#[tactic(auto, using(crate::proofs::JoinLaws::pair_apart, crate::proofs::JoinLaws::pair_first_none, crate::proofs::JoinLaws::pair_second_none, crate::proofs::JoinLaws::pair_joined, crate::proofs::ClassLaws::coarser_itself))]
fn join_pair(named: &Named<'_, '_>, parents: &mut Vec<usize>, one: usize, other: usize)
    requires sized { length parents.old.items ≡ length named.now.problem.now.nodes }
    requires parents { AreParents parents.old.items }
    ensures coarser { IsCoarser parents.old.items parents.new.items }
    ensures joined { IsPairJoined named.now.problem.now named.now.m.now named.now.numbers.items one other
        parents.new.items }
{
    if !is_so(named.equal(one, other)) {
        return;
    }
    let Some(a) = named.term(one) else {
        return;
    };
    let Some(b) = named.term(other) else {
        return;
    };
    join(parents, a as usize, b as usize);
}

/// The same of one item and each other.
#[tactic(auto, using(crate::proofs::JoinLaws::row_start, crate::proofs::JoinLaws::row_next, crate::proofs::JoinLaws::row_end, crate::proofs::ClassLaws::coarser_itself, crate::proofs::ClassLaws::coarser_through))]
fn join_row(named: &Named<'_, '_>, parents: &mut Vec<usize>, one: usize)
    requires sized { length parents.old.items ≡ length named.now.problem.now.nodes }
    requires parents { AreParents parents.old.items }
    ensures coarser { IsCoarser parents.old.items parents.new.items }
    ensures joined { IsRowJoined named.now.problem.now named.now.m.now named.now.numbers.items one
        (few_items (length named.now.numbers.items)) parents.new.items }
{
    for other in 0..named.len() {
        join_pair(named, parents, one, other);
    }
}

/// The same of an item, if that is an entity with others beside it.
#[tactic(auto, using(crate::proofs::JoinLaws::item_none, crate::proofs::JoinLaws::item_plain, crate::proofs::JoinLaws::item_joined, crate::proofs::ClassLaws::coarser_itself))]
fn join_choices(named: &Named<'_, '_>, parents: &mut Vec<usize>, one: usize)
    requires sized { length parents.old.items ≡ length named.now.problem.now.nodes }
    requires parents { AreParents parents.old.items }
    ensures coarser { IsCoarser parents.old.items parents.new.items }
    ensures joined { IsItemJoined named.now.problem.now named.now.m.now named.now.numbers.items one parents.new.items }
{
    let Some(a) = named.term(one) else {
        return;
    };
    if !has_choices(named.problem, a) {
        return;
    }
    join_row(named, parents, one);
}

/// The same of all items.
#[tactic(auto, using(crate::proofs::JoinLaws::rows_start, crate::proofs::JoinLaws::rows_next, crate::proofs::JoinLaws::rows_end, crate::proofs::ClassLaws::coarser_itself, crate::proofs::ClassLaws::coarser_through))]
fn join_rows(named: &Named<'_, '_>, parents: &mut Vec<usize>)
    requires sized { length parents.old.items ≡ length named.now.problem.now.nodes }
    requires parents { AreParents parents.old.items }
    ensures coarser { IsCoarser parents.old.items parents.new.items }
    ensures joined { AreRowsJoined named.now.problem.now named.now.m.now named.now.numbers.items
        (few_items (length named.now.numbers.items)) parents.new.items }
{
    for one in 0..named.len() {
        join_choices(named, parents, one);
    }
}

/// The label of an item's term.
#[tactic(auto, using(crate::proofs::JoinLaws::label_none, crate::proofs::JoinLaws::label_some))]
fn label_at(named: &Named<'_, '_>, labels: &[usize], item: usize) -> usize
    requires { length labels.now ≡ length named.now.problem.now.nodes }
    ensures { IsLabelAt named.now.problem.now named.now.numbers.items labels.now item result }
{
    match named.term(item) {
        Some(term) => labels[term as usize],
        None => 0,
    }
}

/// The label of each item's term.
#[tactic(auto, using(crate::proofs::JoinLaws::labels_start, crate::proofs::JoinLaws::labels_next, crate::proofs::JoinLaws::labels_end))]
fn labels_at(
    alloc: Global,
    named: &Named<'_, '_>,
    labels: &[usize],
) -> Result<Vec<usize>, AllocError>
    requires { length labels.now ≡ length named.now.problem.now.nodes }
    ensures { IfOk result (λ v. AreFirstLabels named.now.problem.now named.now.numbers.items labels.now
        (few_items (length named.now.numbers.items)) v.items) }
{
    let mut found = Vec::new(alloc);
    for item in 0..named.len() {
        found.push(label_at(named, labels, item))?;
    }
    Ok(found)
}

/// A label for each item, equal where items are known to be equal.
pub(crate) fn item_labels(alloc: Global, named: &Named<'_, '_>) -> Result<Vec<usize>, AllocError>
    requires { AreNamed named.now.problem.now named.now.numbers.items }
    ensures { IfOk result (λ v. AreLabels (truth_of named.now.problem.now named.now.m.now named.now.numbers.items)
        (few_items (length named.now.numbers.items)) v.items) }
{
    named.problem.laws();
    named.problem.terms().laws();
    let mut parents = alone(alloc, named.problem.terms().len() as usize)?;
    join_atoms(named.problem, named.m, &mut parents);
    join_rows(named, &mut parents);
    let labels = labels(alloc, parents.as_slice())?;
    let found = labels_at(alloc, named, labels.as_slice())?;
    Ok(found)
}
