//! Reduces a policy set.
ghost use Rattle.std.specs.Prelude.{IfOk};
ghost use Rattle.std.specs.List.{AllByRecursion};
ghost use Rattle.sc_reduction.specs.Lines.{IsPrintable};
ghost use Rattle.sc_reduction.specs.Reductions.{IsReduction, MayBeReduced, asked_of};

use crate::comparing::Task;
use crate::fate::Fate;
use crate::passes::{Pass, next_pass};
use sc_goal::Query;
use sc_lists::Seq;
use sc_schema::Schema;
use std::alloc::{AllocError, Global};

/// What becomes of each policy of a set, by its place. All stay at first. A pass takes those that stay by place, and
/// looks in each environment for a well-formed world, for the uids of the whole set, in which those that stay decide
/// otherwise without the one: where there is none, it leaves at once. Passes go on until one drops none. The query asks
/// whether the set is equivalent to itself; the budget is of each policy in each environment.
pub fn reduce(
    alloc: Global,
    schema: &Schema,
    query: &Query<'_>,
    budget: u64,
) -> Result<Seq<Fate>, AllocError>
    requires reduced { MayBeReduced schema.now query.now }
    ensures reduction { IfOk result (IsReduction (asked_of schema.now query.now budget)) }
    ensures printable { IfOk result (λ fates. AllByRecursion IsPrintable fates) }
{
    let task = Task {
        alloc,
        schema,
        query,
        budget,
    };
    let mut pass = Pass {
        kept: Vec::from_elem(alloc, true, query.sets().0.len())?,
        fates: Vec::new(alloc),
        dropped: true,
    };
    while pass.dropped {
        pass = next_pass(&task, pass)?;
    }
    Ok(Seq::from_vec(pass.fates))
}
