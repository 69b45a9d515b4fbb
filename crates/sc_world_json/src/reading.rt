//! Reads a world.
ghost use Rattle.std.specs.Prelude.{ℕ, List, IfOk, IfErr};
ghost use Rattle.serde_json.specs.View.{view};
ghost use Rattle.sc_world.specs.WellFormed.{IsProperWorld};
ghost use Rattle.sc_json.specs.Trees.{HasTree};
ghost use Rattle.sc_world_json.specs.Reading.{SpellsWorld, RefusesWorld};

use crate::building::world_of;
use crate::fault::WorldFault;
use crate::first_fault::first_fault;
use sc_lists::Fault;
use sc_world::World;
use serde_json::Value;
use std::alloc::Global;

/// The world that bytes spell, in the form in which worlds are written. Members of objects, parents
/// and members of sets may stand in any order, parents and members of sets more than once; of members
/// with one name in one object the last counts. Decimal numbers and addresses may have any text that
/// is read as one. An object whose one member is `__entity` or `__extn` is no record.
///
/// # Errors
///
/// The first fault: `NotJson` exactly where the bytes are no JSON that nests 127 levels at most, and
/// else `BadWorld` with the first place that isn't of the form, in a walk that takes the members of an
/// object in the order of their bytes and an object before its members. An object that lacks a member
/// or has a further one isn't of the form itself. A uid that is stored before is a fault at the later
/// entity's `uid`. `NoMemory` comes for want of memory.
pub fn read_world(alloc: Global, bytes: &[u8]) -> Result<World, Fault<WorldFault>>
    ensures ok { IfOk result (λ world. SpellsWorld bytes.now world) }
    ensures proper { IfOk result (λ world. IsProperWorld world) }
    ensures err { IfErr result (λ fault. RefusesWorld bytes.now fault) }
{
    match tree_of(alloc, bytes) {
        Ok(tree) => world_in(alloc, &tree),
        Err(fault) => Err(fault),
    }
}

/// The world that a tree says, or its first fault.
fn world_in(alloc: Global, tree: &Value) -> Result<World, Fault<WorldFault>>
    ensures ok { IfOk result (λ world. (bytes : List ℕ) → HasTree bytes (view tree.now) → SpellsWorld bytes world) }
    ensures proper { IfOk result (λ world. IsProperWorld world) }
    ensures err { IfErr result (λ fault. (bytes : List ℕ) → HasTree bytes (view tree.now) → RefusesWorld bytes fault) }
{
    match first_fault(alloc, tree)? {
        Some(fault) => Err(Fault::Told(fault)),
        None => Ok(world_of(alloc, tree)?),
    }
}

/// The tree that the bytes are the text of.
fn tree_of(alloc: Global, bytes: &[u8]) -> Result<Value, Fault<WorldFault>>
    ensures ok { IfOk result (λ tree. HasTree bytes.now (view tree)) }
    ensures err { IfErr result (λ fault. RefusesWorld bytes.now fault) }
{
    match Value::from_slice(alloc, bytes) {
        Ok(tree) => Ok(tree),
        Err(error) => {
            if error.is_memory() {
                Err(Fault::NoMemory)
            } else {
                Err(Fault::Told(WorldFault::NotJson))
            }
        }
    }
}
