//! The problem of a goal.
ghost use Rattle.std.specs.Prelude.{◌<◌, length, IfOk, IfErr};
ghost use Rattle.sc_terms.specs.Tables.{tree, Keeps};
ghost use Rattle.sc_closure.specs.Atoms.{IsRefused};
ghost use Rattle.sc_closure.specs.Goals.{IsGoal};
ghost use Rattle.sc_footprint.specs.Indices.{IsKept, problem_of};
ghost use Rattle.sc_footprint.specs.Problems.{IsProblemOf};

use crate::companions::{Span, companions_of};
use crate::listing::atoms_among;
use crate::problem::Problem;
use crate::shelves::{Shelf, shelves_of};
use indexmap::IndexSet;
use sc_closure::{OverLimit, closed_laws, closed_terms};
use sc_lists::Fault;
use sc_names::Lits;
use sc_schema::{Env, Schema};
use sc_term_order::sort_by_term;
use sc_terms::Terms;
use std::alloc::Global;

/// What a problem keeps beside the table of terms.
#[derive(Drop)]
struct Parts {
    closed: IndexSet<u64>,
    atoms: IndexSet<u64>,
    spans: Vec<Span>,
    companions: Vec<u64>,
    shelves: Vec<Shelf>,
}

/// What the problem of a goal keeps beside the table, to which terms are added.
fn parts_of(
    alloc: Global,
    terms: &mut Terms,
    goal: u64,
    schema: &Schema,
    env: &Env,
    literals: &Lits,
) -> Result<Parts, Fault<OverLimit>>
    requires within { goal < length terms.old }
    requires goal { IsGoal schema.now env.now literals.now (tree terms.old goal) }
    ensures ok { IfOk result (λ q. IsKept (problem_of schema.now env.now literals.now terms.new goal q.closed.keys)
        q.atoms.keys q.spans.items q.companions.items q.shelves.items) }
    ensures kept { Keeps terms.old terms.new }
    ensures err { IfErr result (IsRefused schema.now env.now (tree terms.old goal)) }
{
    closed_laws();
    schema.laws();
    let mut closed = closed_terms(alloc, terms, goal, schema, env, literals)?;
    sort_by_term(alloc, terms, &mut closed)?;
    let companions = companions_of(alloc, schema, terms, &closed)?;
    let atoms = atoms_among(alloc, terms, &closed)?;
    let shelves = shelves_of(alloc, terms, &closed)?;
    Ok(Parts {
        closed,
        atoms,
        spans: companions.spans,
        companions: companions.numbers,
        shelves,
    })
}

/// The problem of a goal in an environment of a schema, for the uids that each world stores. It keeps
/// the table, to which terms are added. The fault comes exactly where more atoms are closed than may
/// be listed.
pub fn close<'a>(
    alloc: Global,
    terms: Terms,
    goal: u64,
    schema: &'a Schema,
    env: &'a Env,
    literals: &'a Lits,
) -> Result<Problem<'a>, Fault<OverLimit>>
    requires within { goal < length terms }
    requires goal { IsGoal schema.now env.now literals.now (tree terms goal) }
    ensures ok { IfOk result (λ p. IsProblemOf schema.now env.now literals.now (tree terms goal) p) }
    ensures kept { IfOk result (λ p. Keeps terms p.nodes) }
    ensures err { IfErr result (IsRefused schema.now env.now (tree terms goal)) }
{
    let mut terms = terms;
    match parts_of(alloc, &mut terms, goal, schema, env, literals) {
        Ok(parts) => Ok(Problem {
            schema,
            env,
            literals,
            terms,
            goal,
            closed: parts.closed,
            atoms: parts.atoms,
            spans: parts.spans,
            companions: parts.companions,
            shelves: parts.shelves,
        }),
        Err(fault) => Err(fault),
    }
}
