//! Reads the policies and the world that a command replays.
ghost use Rattle.std.specs.Prelude.{◌≡◌, ◌<◌, ◌≤◌, ℕ, List, None, IfOk, IfErr, OnOk};
ghost use Rattle.sc_outside.specs.Failures.{FailsAt};
ghost use Rattle.sc_typing.specs.Names.{name_fault};
ghost use Rattle.sc_inputs.specs.Readings.{FailsWith, ReadsScene, RefusesScene, IsUnread};
ghost use Rattle.sc_inputs.specs.Refusals.{HasPolicies, HasWorld, RefusesWorld};

use crate::checks::check_declared;
use crate::files::{content_of, world_in};
use crate::inputs::Scene;
use crate::policy_reading::policies_of;
use crate::refusal::{FileName, Refusal, Side};
use sc_ast::PolicySet;
use sc_lists::Fault;
use sc_outside::Files;
use sc_schema::Schema;
use sc_world::World;
use std::alloc::Global;

/// The world of a file.
fn world_of<F: Files>(alloc: Global, files: &mut F, name: &str) -> Result<World, Fault<Refusal>>
    ensures reads { IfOk result (HasWorld (F.content files.old) name.now) }
    ensures fails { IfErr result (FailsWith (RefusesWorld (F.content files.old) name.now
        (FailsAt F.Files files.old files.new))) }
    ensures keeps { (other : List ℕ) → F.content files.new other ≡ F.content files.old other }
    ensures later { F.faults files.old ≤ F.faults files.new }
    ensures told { F.faults files.old < F.faults files.new → IsUnread result }
{
    match content_of(alloc, files, name, FileName::World) {
        Ok(bytes) => world_in(alloc, &bytes),
        Err(fault) => Err(fault),
    }
}

/// The world of a file, where these policies write declared names alone.
fn world_for<F: Files>(
    alloc: Global,
    files: &mut F,
    name: &str,
    schema: &Schema,
    policies: &PolicySet,
) -> Result<World, Fault<Refusal>>
    ensures reads { IfOk result (HasWorld (F.content files.old) name.now) }
    ensures names { OnOk result (name_fault schema.now policies.now ≡ None) }
    ensures fails { IfErr result (λ fault. (file : List ℕ) → HasPolicies (F.content files.old) file policies.now
        → FailsWith (RefusesScene (F.content files.old) file name.now
        (FailsAt F.Files files.old files.new) schema.now) fault) }
    ensures keeps { (other : List ℕ) → F.content files.new other ≡ F.content files.old other }
    ensures later { F.faults files.old ≤ F.faults files.new }
    ensures told { F.faults files.old < F.faults files.new → IsUnread result }
{
    match world_of(alloc, files, name) {
        Ok(world) => match check_declared(schema, policies, Side::Policies) {
            Ok(()) => Ok(world),
            Err(fault) => Err(fault),
        },
        Err(fault) => Err(fault),
    }
}

/// The policies and the world of two files.
fn parts_of<F: Files>(
    alloc: Global,
    files: &mut F,
    policies: &str,
    world: &str,
    schema: &Schema,
) -> Result<(PolicySet, World), Fault<Refusal>>
    ensures policies { IfOk result (λ parts. HasPolicies (F.content files.old) policies.now parts.0) }
    ensures world { IfOk result (λ parts. HasWorld (F.content files.old) world.now parts.1) }
    ensures names { IfOk result (λ parts. name_fault schema.now parts.0 ≡ None) }
    ensures fails { IfErr result (FailsWith (RefusesScene (F.content files.old) policies.now world.now
        (FailsAt F.Files files.old files.new) schema.now)) }
    ensures keeps { (other : List ℕ) → F.content files.new other ≡ F.content files.old other }
    ensures later { F.faults files.old ≤ F.faults files.new }
    ensures told { F.faults files.old < F.faults files.new → IsUnread result }
{
    match policies_of(alloc, files, policies, Side::Policies) {
        Ok(policies) => match world_for(alloc, files, world, schema, &policies) {
            Ok(world) => Ok((policies, world)),
            Err(fault) => Err(fault),
        },
        Err(fault) => Err(fault),
    }
}

/// What is replayed, where the schema is read.
pub fn scene_of<F: Files>(
    alloc: Global,
    files: &mut F,
    policies: &str,
    world: &str,
    schema: Schema,
) -> Result<Scene, Fault<Refusal>>
    ensures reads { IfOk result (ReadsScene (F.content files.old) policies.now world.now schema) }
    ensures fails { IfErr result (FailsWith (RefusesScene (F.content files.old) policies.now world.now
        (FailsAt F.Files files.old files.new) schema)) }
    ensures keeps { (other : List ℕ) → F.content files.new other ≡ F.content files.old other }
    ensures later { F.faults files.old ≤ F.faults files.new }
    ensures told { F.faults files.old < F.faults files.new → IsUnread result }
{
    match parts_of(alloc, files, policies, world, &schema) {
        Ok((policies, world)) => Ok(Scene {
            schema,
            policies,
            world,
        }),
        Err(fault) => Err(fault),
    }
}
