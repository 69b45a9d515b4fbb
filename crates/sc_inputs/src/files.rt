//! Reads a file, and what its bytes spell.
ghost use Rattle.std.specs.Prelude.{◌≡◌, ◌<◌, ◌≤◌, ℕ, List, IfOk, IfErr};
ghost use Rattle.sc_outside.specs.Failures.{FailsAt};
ghost use Rattle.sc_parser.specs.Spelling.{Spells};
ghost use Rattle.sc_schema_json.specs.Spelling.{Spells as SpellsSchema};
ghost use Rattle.sc_world_json.specs.Reading.{SpellsWorld};
ghost use Rattle.sc_inputs.specs.Readings.{FailsWith, IsNoSchema, IsNoPolicies, IsNoWorld, IsUnread};
ghost use Rattle.sc_inputs.specs.Refusals.{IsContent, RefusesFile};
ghost use Rattle.sc_inputs.specs.View.{file_view, side_view};

use crate::refusal::{FileName, Refusal, Side};
use sc_ast::PolicySet;
use sc_lists::Fault;
use sc_outside::{FileFault, Files};
use sc_parser::read_policies;
use sc_schema::Schema;
use sc_schema_json::read_schema;
use sc_world::World;
use sc_world_json::read_world;
use std::alloc::Global;

/// How many bytes a file may have.
const LIMIT: u64 = 16_777_216;

/// The bytes of a file.
pub fn content_of<F: Files>(
    alloc: Global,
    files: &mut F,
    name: &str,
    file: FileName,
) -> Result<Vec<u8>, Fault<Refusal>>
    ensures found { IfOk result (λ v. IsContent (F.content files.old) name.now v.items) }
    ensures fails { IfErr result (FailsWith (RefusesFile (F.content files.old) name.now
        (FailsAt F.Files files.old files.new) (file_view file))) }
    ensures keeps { (other : List ℕ) → F.content files.new other ≡ F.content files.old other }
    ensures later { F.faults files.old ≤ F.faults files.new }
    ensures told { F.faults files.old < F.faults files.new → IsUnread result }
{
    match files.read(alloc, name, LIMIT) {
        Ok(bytes) => Ok(bytes),
        Err(FileFault::Failed) => Err(Fault::Told(Refusal::ReadFault(file))),
        Err(FileFault::TooLong) => Err(Fault::Told(Refusal::TooLong(file))),
        Err(FileFault::NoMemory) => Err(Fault::NoMemory),
    }
}

/// The schema that the bytes spell.
pub fn schema_in(alloc: Global, bytes: &[u8]) -> Result<Schema, Fault<Refusal>>
    ensures spelled { IfOk result (SpellsSchema bytes.now) }
    ensures fails { IfErr result (FailsWith (IsNoSchema bytes.now)) }
{
    match read_schema(alloc, bytes) {
        Ok(schema) => Ok(schema),
        Err(Fault::Told(fault)) => Err(Fault::Told(Refusal::SchemaText(fault))),
        Err(Fault::NoMemory) => Err(Fault::NoMemory),
    }
}

/// The policies that the bytes of a set's file spell.
pub fn policies_in(alloc: Global, bytes: &[u8], side: Side) -> Result<PolicySet, Fault<Refusal>>
    ensures spelled { IfOk result (λ policies. Spells bytes.now policies) }
    ensures fails { IfErr result (FailsWith (IsNoPolicies bytes.now (side_view side))) }
{
    match read_policies(alloc, bytes) {
        Ok(policies) => Ok(policies),
        Err(Fault::Told(fault)) => Err(Fault::Told(Refusal::PolicyText(side, fault))),
        Err(Fault::NoMemory) => Err(Fault::NoMemory),
    }
}

/// The world that the bytes spell.
pub fn world_in(alloc: Global, bytes: &[u8]) -> Result<World, Fault<Refusal>>
    ensures spelled { IfOk result (SpellsWorld bytes.now) }
    ensures fails { IfErr result (FailsWith (IsNoWorld bytes.now)) }
{
    match read_world(alloc, bytes) {
        Ok(world) => Ok(world),
        Err(Fault::Told(fault)) => Err(Fault::Told(Refusal::WorldText(fault))),
        Err(Fault::NoMemory) => Err(Fault::NoMemory),
    }
}
