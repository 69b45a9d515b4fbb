//! The script of a problem.
ghost use Rattle.std.specs.Prelude.{◌≡◌, ◌<◌, ◌+◌, map, length, IfOk, OnOk};
ghost use Rattle.std.specs.List.{AllByRecursion, filter};
ghost use Rattle.sc_terms.specs.Order.{tree_cmp};
ghost use Rattle.sc_terms.specs.Tables.{tree};
ghost use Rattle.sc_closure.specs.Following.{put_new};
ghost use Rattle.sc_footprint.specs.Problems.{goal_term};
ghost use Rattle.sc_smtlib_lines.specs.Scripts.{IsScript};
ghost use Rattle.sc_smtlib_lines.specs.Subterms.{AreJust};
ghost use Rattle.sc_smtlib_terms.specs.Forms.{IsSubterm};
ghost use Rattle.sc_smtlib.specs.Marks.{AreMarked, is_marked, kept_at};

use crate::marks::{is_marked, subterm_marks};
use indexmap::IndexSet;
use sc_closure::put;
use sc_footprint::Problem;
use sc_smtlib_lines::script_text;
use std::alloc::{AllocError, Global};

fn keep(
    problem: &Problem<'_>,
    marks: &[bool],
    place: u64,
    numbers: &mut IndexSet<u64>,
) -> Result<(), AllocError>
    requires { place < length problem.now.closed }
    ensures { OnOk result (numbers.new.keys ≡ put_new numbers.old.keys (kept_at marks.now problem.now.closed place)) }
{
    // A problem has fewer than 2^64 closed terms, which `closed_count` tells.
    let _count = problem.closed_count();
    let Some(n) = problem.term(place + 1) else {
        return Ok(());
    };
    if is_marked(marks, n) {
        put(numbers, n)
    } else {
        Ok(())
    }
}

/// The closed terms that are marked, in the order of terms.
fn kept(alloc: Global, problem: &Problem<'_>, marks: &[bool]) -> Result<IndexSet<u64>, AllocError>
    ensures { IfOk result (λ ns. ns.keys ≡ filter (is_marked marks.now) problem.now.closed) }
{
    problem.laws();
    let mut numbers = IndexSet::new(alloc);
    for place in 0..problem.closed_count() {
        keep(problem, marks, place, &mut numbers)?;
    }
    Ok(numbers)
}

/// The script of a problem's goal. Its one fault is want of memory.
#[tactic(auto, using(crate::proofs::KeptLaws::numbers_kept, crate::proofs::KeptLaws::subterms_kept))]
pub fn script(alloc: Global, problem: &Problem<'_>) -> Result<Vec<u8>, AllocError>
    ensures { IfOk result (λ v. IsScript (goal_term problem.now) v.items) }
{
    problem.laws();
    let terms = problem.terms();
    terms.laws();
    let goal = problem.goal_term();
    let marks = subterm_marks(alloc, terms, goal)?;
    let numbers = kept(alloc, problem, marks.as_slice())?;
    script_text(alloc, terms, goal, &numbers)
}
