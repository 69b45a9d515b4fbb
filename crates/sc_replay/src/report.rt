//! What a world does.
ghost use Rattle.std.specs.Prelude.{◌≡◌, IfOk};
ghost use Rattle.sc_ast.specs.Literals.{literals};
ghost use Rattle.sc_replay.specs.Breaks.{IsFirstBreak};
ghost use Rattle.sc_replay.specs.Reports.{report_lines, status_of};

use crate::answers::put_policies;
use crate::break_lines::world_line;
use crate::breaks::{Break, first_break};
use crate::decisions::decision_line;
use sc_ast::{PolicySet, literals};
use sc_auth::authorise;
use sc_lists::{Seq, Text};
use sc_schema::Schema;
use sc_world::World;
use std::alloc::{AllocError, Global};

/// What a world does.
#[derive(Drop)]
pub struct Report {
    /// What keeps the world from being well-formed, first of all.
    pub found: Option<Break>,
    /// The lines, each with its newline: the world's, one for each policy by its place, counted from
    /// 0, and the decision's.
    pub lines: Seq<Text>,
}

impl Report {
    /// The status that a program which prints the report ends with: 3 where something keeps the
    /// world from being well-formed, else 0.
    pub fn status(&self) -> u8
        ensures { result ≡ status_of self.now.found }
    {
        match self.found {
            None => 0,
            Some(_) => 3,
        }
    }
}

/// The lines of a report on a world and on what keeps it from being well-formed.
#[tactic(auto, using(crate::proofs::LineLaws::report_is))]
fn lines_of(
    alloc: Global,
    found: &Option<Break>,
    policies: &PolicySet,
    world: &World,
) -> Result<Seq<Text>, AllocError>
    ensures { IfOk result (λ lines. lines ≡ report_lines found.now world.now policies.now) }
{
    let response = authorise(alloc, policies, world)?;
    let mut lines = Seq::new(alloc);
    lines.push(world_line(alloc, found)?)?;
    put_policies(alloc, &mut lines, response.standings.as_slice())?;
    lines.push(decision_line(alloc, response.decision)?)?;
    Ok(lines)
}

/// What a world does: whether it is well-formed for some environment of the schema and the uids that
/// the policies write, what each policy answers, and what the policies decide.
pub fn report_of(
    alloc: Global,
    schema: &Schema,
    policies: &PolicySet,
    world: &World,
) -> Result<Report, AllocError>
    ensures first { IfOk result (λ r. IsFirstBreak schema.now (literals policies.now) world.now r.found) }
    ensures lines { IfOk result (λ r. r.lines ≡ report_lines r.found world.now policies.now) }
{
    let lits = literals(alloc, policies.as_slice())?;
    let found = first_break(alloc, schema, world, &lits)?;
    let lines = lines_of(alloc, &found, policies, world)?;
    Ok(Report { found, lines })
}
