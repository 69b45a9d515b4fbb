//! One string of each class of equal strings.
ghost use Rattle.std.specs.Prelude.{◌≡◌, ◌<◌, [], length, map, IfOk};
ghost use Rattle.std.specs.List.{list_any};
ghost use Rattle.sc_model_values.specs.Models.{truth_in};
ghost use Rattle.sc_model_laws.specs.Names.{are_equal};
ghost use Rattle.sc_model_names.specs.Classes.{classes};
ghost use Rattle.sc_model_names.specs.Numbers.{AreIn};
ghost use Rattle.sc_terms.specs.Tables.{tree};

use crate::truth::is_equal;
use sc_clauses::Assignment;
use sc_footprint::Problem;
use sc_lists::Seq;
use std::alloc::{AllocError, Global};

/// Whether a term equals one of a few.
fn equals_one(problem: &Problem<'_>, m: &Assignment, x: u64, others: &[u64]) -> bool
    requires x_in { x < length problem.now.nodes }
    requires others_in { AreIn problem.now.nodes others.now }
    ensures { result ≡ list_any (are_equal (truth_in problem.now m.now) (tree problem.now.nodes x))
        (map (tree problem.now.nodes) others.now) }
{
    let mut rest = others;
    while let Some((y, later)) = rest.split_first() {
        if is_equal(problem, m, x, *y) {
            return true;
        }
        rest = later;
    }
    false
}

/// Those of some terms that equal none before them.
#[tactic(auto, unfolding(crate::specs::Classes::classes))]
pub(crate) fn classes_of(
    alloc: Global,
    problem: &Problem<'_>,
    m: &Assignment,
    terms: &[u64],
) -> Result<Seq<u64>, AllocError>
    requires { AreIn problem.now.nodes terms.now }
    ensures { IfOk result (λ ns. map (tree problem.now.nodes) ns ≡ classes (truth_in problem.now m.now) []
        (map (tree problem.now.nodes) terms.now)) }
{
    let mut found = Seq::new(alloc);
    let mut rest = terms;
    while let Some((x, later)) = rest.split_first() {
        if !equals_one(problem, m, *x, found.as_slice()) {
            found.push(*x)?;
        }
        rest = later;
    }
    Ok(found)
}
