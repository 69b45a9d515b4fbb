//! The closed terms of a problem, and the strings among them, by their numbers in the table of terms.
ghost use Rattle.std.specs.Prelude.{◌≡◌, ◌<◌, length, map, IfOk};
ghost use Rattle.sc_model_laws.specs.Names.{of_sort};
ghost use Rattle.sc_sorts.specs.declared.sort.Sort.TheVariants as sort;
ghost use Rattle.sc_sorts.specs.contracts.sort.SortPartialEq.TheImpl.{ghosts as sorts};
ghost use Rattle.sc_model_names.specs.Numbers.{AreIn};
ghost use Rattle.sc_terms.specs.Tables.{tree};
ghost use Rattle.sc_terms.specs.TreeSorts.{tree_sort};

use sc_footprint::Problem;
use sc_lists::Seq;
use sc_rule_instances::closed_at;
use sc_sorts::Sort;
use std::alloc::{AllocError, Global};

/// All closed terms, in their order.
pub fn closed_numbers(alloc: Global, problem: &Problem<'_>) -> Result<Seq<u64>, AllocError>
    ensures { IfOk result (λ ns. ns ≡ problem.now.closed) }
{
    let mut numbers = Seq::new(alloc);
    for place in 0..problem.closed_count() {
        numbers.push(closed_at(problem, place))?;
    }
    Ok(numbers)
}

fn is_string(problem: &Problem<'_>, n: u64) -> bool
    requires { n < length problem.now.nodes }
    ensures { result ≡ sorts.eq (tree_sort (tree problem.now.nodes n)) sort.String }
{
    *problem.terms().sort(n) == Sort::String
}

/// Those of some terms that are strings.
#[tactic(auto, unfolding(sc_model_laws::specs::Names::of_sort))]
pub(crate) fn strings_among(
    alloc: Global,
    problem: &Problem<'_>,
    numbers: &[u64],
) -> Result<Seq<u64>, AllocError>
    requires { AreIn problem.now.nodes numbers.now }
    ensures value { IfOk result (λ ns. map (tree problem.now.nodes) ns ≡ of_sort sort.String
        (map (tree problem.now.nodes) numbers.now)) }
    ensures within { IfOk result (λ ns. AreIn problem.now.nodes ns) }
{
    let mut strings = Seq::new(alloc);
    let mut rest = numbers;
    while let Some((n, later)) = rest.split_first() {
        if is_string(problem, *n) {
            strings.push(*n)?;
        }
        rest = later;
    }
    Ok(strings)
}
