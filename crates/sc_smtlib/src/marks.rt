//! Which terms of a table a goal is made of.
ghost use Rattle.std.specs.Prelude.{◌≡◌, ◌<◌, ◌≤◌, ◌∷◌, [], map, length, ℕ, List, IfOk};
ghost use Rattle.std.specs.List.{AllByRecursion};
ghost use Rattle.sc_terms.specs.Tables.{tree, AreBelow};
ghost use Rattle.sc_smtlib.specs.Marks.{AreLess, AreMarked, IsLookedAt, IsOneMark, Marks, is_marked, part_numbers};

use sc_lists::Text;
use sc_sorts::Node;
use sc_terms::Terms;
use std::alloc::{AllocError, Global};

/// Whether a number is marked.
pub(crate) fn is_marked(marks: &[bool], n: u64) -> bool
    ensures { result ≡ is_marked marks.now n }
{
    match marks.get(n as usize) {
        Some(mark) => *mark,
        None => false,
    }
}

#[tactic(auto, using(crate::proofs::MarkLaws::one_mark))]
fn mark(marks: &mut Vec<bool>, n: u64)
    requires { n < length marks.old.items }
    ensures { Marks marks.old.items marks.new.items (n ∷ []) }
{
    marks[n as usize] = true;
}

fn mark_two(marks: &mut Vec<bool>, a: u64, b: u64)
    requires a_in { a < length marks.old.items }
    requires b_in { b < length marks.old.items }
    ensures { Marks marks.old.items marks.new.items (a ∷ b ∷ []) }
{
    mark(marks, a);
    mark(marks, b);
}

fn mark_three(marks: &mut Vec<bool>, a: u64, b: u64, c: u64)
    requires a_in { a < length marks.old.items }
    requires b_in { b < length marks.old.items }
    requires c_in { c < length marks.old.items }
    ensures { Marks marks.old.items marks.new.items (a ∷ b ∷ c ∷ []) }
{
    mark(marks, a);
    mark_two(marks, b, c);
}

fn mark_all(marks: &mut Vec<bool>, parts: &[(Text, u64)])
    requires { AreBelow (length marks.old.items) parts.now }
    ensures { Marks marks.old.items marks.new.items (map (λ (p : List ℕ × ℕ). p.1) parts.now) }
{
    let mut rest = parts;
    while let Some((part, later)) = rest.split_first() {
        mark(marks, part.1);
        rest = later;
    }
}

/// Marks the parts of a node.
#[tactic(auto, using(crate::proofs::MarkLaws::no_marks))]
fn mark_parts(marks: &mut Vec<bool>, node: &Node)
    requires { AreLess (length marks.old.items) (part_numbers node.now) }
    ensures { Marks marks.old.items marks.new.items (part_numbers node.now) }
{
    match node {
        Node::Leaf(_) => {}
        Node::One(_, a) => mark(marks, *a),
        Node::Two(_, a, b) => mark_two(marks, *a, *b),
        Node::Choice(c, a, b) => mark_three(marks, *c, *a, *b),
        Node::Many(_, parts) => mark_all(marks, parts.as_slice()),
    }
}

/// The goal alone is marked.
#[tactic(auto, using(crate::proofs::MarkLaws::one_goal))]
fn goal_marked(alloc: Global, goal: u64) -> Result<Vec<bool>, AllocError>
    ensures { IfOk result (λ v. IsOneMark goal v.items) }
{
    let mut marks = Vec::new(alloc);
    for _n in 0..goal {
        marks.push(false)?;
    }
    marks.push(true)?;
    Ok(marks)
}

/// Marks the parts of a number's term, where it is marked.
#[tactic(auto, using(crate::proofs::MarkLaws::looked, crate::proofs::MarkLaws::node_less, crate::proofs::MarkLaws::not_looked))]
fn look_at(marks: &mut Vec<bool>, terms: &Terms, n: u64)
    requires within { n < length marks.old.items }
    requires few { length marks.old.items ≤ length terms.now }
    ensures { IsLookedAt terms.now n marks.old.items marks.new.items }
{
    if !is_marked(marks.as_slice(), n) {
        return;
    }
    mark_parts(marks, terms.node(n));
}

/// For each number up to the goal's whether it stands for a subterm of the goal.
#[tactic(auto, using(crate::proofs::MarkLaws::marked_first, crate::proofs::MarkLaws::marked_down))]
pub(crate) fn subterm_marks(
    alloc: Global,
    terms: &Terms,
    goal: u64,
) -> Result<Vec<bool>, AllocError>
    requires { goal < length terms.now }
    ensures { IfOk result (λ v. AreMarked terms.now goal 0 v.items) }
{
    // A table has fewer than 2^64 terms, which `len` tells.
    let _count = terms.len();
    let mut marks = goal_marked(alloc, goal)?;
    let mut left = goal + 1;
    while left > 0 {
        left -= 1;
        look_at(&mut marks, terms, left);
    }
    Ok(marks)
}
