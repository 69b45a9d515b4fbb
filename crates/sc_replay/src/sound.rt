//! Whether a request is as a well-formed world has it, whatever it names.
ghost use Rattle.std.specs.Prelude.{◌↔◌, Contains, IsTrue};
ghost use Rattle.sc_schema.specs.declared.declarations.Env.{Env as AnyEnv};
ghost use Rattle.sc_schema.specs.Declarations.{environments};
ghost use Rattle.sc_world.specs.Tests.{Holds};
ghost use Rattle.sc_replay.specs.Breaks.{IsSoundRequest};
ghost use Rattle.sc_replay.specs.Tests.{IsOneOf, HasSoundParts};

use sc_schema::{Env, Schema, environments};
use sc_world::{Request, is_proper_request, is_request_of};

/// Whether a request is made of values, and is one of an environment of the schema.
pub(crate) fn is_sound_request(s: &Schema, r: &Request) -> bool
    ensures { IsTrue result ↔ IsSoundRequest s.now r.now }
{
    has_sound_parts(s, r)
}

fn has_sound_parts(s: &Schema, r: &Request) -> bool
    ensures { IsTrue result ↔ HasSoundParts s.now r.now }
{
    let proper = is_proper_request(r);
    let listed = has_environment(s, r);
    proper && listed
}

/// Whether a request is one of some environment.
fn has_environment(s: &Schema, r: &Request) -> bool
    ensures { IsTrue result ↔ ((env : AnyEnv) × Contains (environments s.now) env × Holds (IsOneOf s.now r.now) env) }
{
    environments(s).iter().any(|env| holds_for(s, r, env))
}

#[tactic(auto, unfolding(sc_world::specs::Tests::Holds))]
fn holds_for(s: &Schema, r: &Request, env: &Env) -> bool
    ensures { IsTrue result ↔ Holds (IsOneOf s.now r.now) env.now }
{
    is_request_of(s, env, r)
}
