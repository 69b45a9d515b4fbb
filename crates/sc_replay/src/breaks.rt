//! What keeps a world from being well-formed.
ghost use Rattle.std.specs.Prelude.{◌≡◌, ◌↔◌, List, Option, None, Contains, IfOk};
ghost use Rattle.sc_names.specs.declared.uid.Uid.{Uid as AnyUid};
ghost use Rattle.sc_schema.specs.declared.declarations.Env.{Env};
ghost use Rattle.sc_schema.specs.Declarations.{Declarations, environments};
ghost use Rattle.sc_world.specs.declared.world.World.{World as AnyWorld};
ghost use Rattle.sc_world.specs.Sound.{AreSound};
ghost use Rattle.sc_world.specs.Stores.{IsMap};
ghost use Rattle.sc_world.specs.WellFormed.{IsWellFormed};
ghost use Rattle.sc_replay.specs.declared.breaks.Break.{Break as AnyBreak};
ghost use Rattle.sc_replay.specs.Breaks.{IsSoundRequest, IsFirstBreak};

use crate::sound::is_sound_request;
use sc_names::{Lits, Uid};
use sc_schema::Schema;
use sc_world::{World, first_broken, first_missing};
use std::alloc::{AllocError, Global};

/// What keeps a world from being well-formed.
#[derive(Debug, PartialEq, Eq, Drop)]
pub enum Break {
    /// No environment fits the request, its principal or resource is no choice of an enumerated type, or its context
    /// doesn't conform.
    Request,
    /// What is stored of this entity isn't as its type, its ancestors or its kind have it.
    Entity(Uid),
    /// This entity isn't stored and has to be: it is named, or a declared action.
    Missing(Uid),
}

/// The first of what keeps a world from being well-formed: its request, or else the least stored
/// entity that isn't as it has to be, or else the least entity that has to be stored and isn't.
/// `None` exactly where some environment of the schema fits the request and the world is well-formed
/// for it and the uids that policies write.
pub fn first_break(
    alloc: Global,
    s: &Schema,
    w: &World,
    lits: &Lits,
) -> Result<Option<Break>, AllocError>
    ensures { IfOk result (λ found. IsFirstBreak s.now lits.now w.now found) }
{
    if !is_sound_request(s, &w.request) {
        return Ok(Some(Break::Request));
    }
    match first_broken(s, &w.store) {
        Some(uid) => Ok(Some(Break::Entity(uid.try_clone(alloc)?))),
        None => missing_break(alloc, s, w, lits),
    }
}

/// The least entity that has to be stored and isn't, if there is one.
fn missing_break(
    alloc: Global,
    s: &Schema,
    w: &World,
    lits: &Lits,
) -> Result<Option<Break>, AllocError>
    ensures { IfOk result (λ found. IsSoundRequest s.now w.now.request → AreSound s.now w.now.store
        → IsFirstBreak s.now lits.now w.now found) }
{
    match first_missing(s, w, lits) {
        Some(uid) => Ok(Some(Break::Missing(uid.try_clone(alloc)?))),
        None => Ok(None),
    }
}

/// A world has one first break at most, and none exactly where it is well-formed for an environment of
/// the schema.
pub fn break_laws()
    ensures one { (s : Declarations) (literals : List AnyUid) (w : AnyWorld) (a b : Option AnyBreak)
        → IsFirstBreak s literals w a → IsFirstBreak s literals w b → a ≡ b }
    ensures nowhere { (s : Declarations) (literals : List AnyUid) (w : AnyWorld) → IsMap w.store
        → IsFirstBreak s literals w None
        ↔ ((env : Env) × Contains (environments s) env × IsWellFormed s env literals w) }
{}
