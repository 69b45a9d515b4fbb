//! The closed terms, and the entities that terms stand for.
ghost use Rattle.std.specs.Prelude.{◌≡◌, ◌<◌, length, IfOk};
ghost use Rattle.sc_model_worlds.specs.Listed.{AreListed};
ghost use Rattle.sc_model_worlds.specs.Saying.{uid_in};
ghost use Rattle.sc_terms.specs.Tables.{tree};

use sc_footprint::Problem;
use sc_lists::{Seq, Text};
use sc_model_values::uid_of;
use sc_names::Uid;
use sc_rule_instances::closed_at;
use std::alloc::{AllocError, Global};

/// The closed terms, in order, by their numbers in the table.
pub(crate) fn closed_of(alloc: Global, problem: &Problem<'_>) -> Result<Seq<u64>, AllocError>
    ensures value { IfOk result (λ ns. ns ≡ problem.now.closed) }
    ensures listed { IfOk result (AreListed problem.now) }
{
    problem.laws();
    let mut numbers = Seq::new(alloc);
    for place in 0..problem.closed_count() {
        numbers.push(closed_at(problem, place))?;
    }
    Ok(numbers)
}

/// The entity of a term of the table: its type and its name.
pub(crate) fn uid_at(
    alloc: Global,
    problem: &Problem<'_>,
    names: &[Text],
    term: u64,
) -> Result<Uid, AllocError>
    requires { term < length problem.now.nodes }
    ensures { IfOk result (λ uid. uid ≡ uid_in problem.now names.now (tree problem.now.nodes term)) }
{
    uid_of(alloc, problem, names, term)
}
