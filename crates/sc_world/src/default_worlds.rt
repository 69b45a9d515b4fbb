//! The worlds in which everything is as it is by default.
ghost use Rattle.std.specs.Prelude.{◌≡◌, Contains, IfOk};
ghost use Rattle.std.specs.List.{AllByRecursion};
ghost use Rattle.sc_schema.specs.declared.declarations.Env.{Env as AnyEnv};
ghost use Rattle.sc_schema.specs.Declarations as schema;
ghost use Rattle.sc_world.specs.Defaults as defaults;
ghost use Rattle.sc_world.specs.Named.{AreDefaults, StoresNamed, IsDeclared, IsRequestAmong};
ghost use Rattle.sc_world.specs.WellFormed.{IsWellFormed};

use crate::default_entity::fields_of;
use crate::default_value::default_uid;
use crate::given_worlds::world_with;
use crate::store::Store;
use crate::world::{Request, World};
use sc_names::Lits;
use sc_schema::{Env, Schema, context_of};
use sc_values::Rec;
use std::alloc::{AllocError, Global};

/// The world of a request in which what is stored is as it is by default. Stored are the declared
/// actions, what the request names, the literals, and what the attributes of a stored entity name.
pub fn world_for(
    alloc: Global,
    s: &Schema,
    request: Request,
    lits: &Lits,
) -> Result<World, AllocError>
    ensures request { IfOk result (λ w. w.request ≡ request) }
    ensures value { IfOk result (λ w. AreDefaults s.now w.store) }
    ensures exact { IfOk result (λ w. StoresNamed s.now request lits.now w.store) }
    ensures well_formed { (env : AnyEnv) → IsRequestAmong s.now env request lits.now
        → IfOk result (IsWellFormed s.now env lits.now) }
{
    s.laws();
    let nothing = Store::new(alloc);
    world_with(alloc, s, request, nothing, lits)
}

/// The world of an environment in which everything is as it is by default: the principal and the
/// resource are the default entities of their types, and the context is the default of its type.
pub fn default_world(alloc: Global, s: &Schema, env: &Env, lits: &Lits) -> Result<World, AllocError>
    requires { Contains (schema.environments s.now) env.now }
    ensures request { IfOk result (λ w. w.request ≡ defaults.default_request s.now env.now) }
    ensures value { IfOk result (λ w. AreDefaults s.now w.store) }
    ensures exact { IfOk result (λ w. StoresNamed s.now (defaults.default_request s.now env.now) lits.now w.store) }
    ensures well_formed { AllByRecursion (IsDeclared s.now) lits.now
        → IfOk result (IsWellFormed s.now env.now lits.now) }
{
    s.laws();
    let request = default_request(alloc, s, env)?;
    world_for(alloc, s, request, lits)
}

fn default_request(alloc: Global, s: &Schema, env: &Env) -> Result<Request, AllocError>
    ensures { IfOk result (λ r. r ≡ defaults.default_request s.now env.now) }
{
    Ok(Request {
        principal: default_uid(alloc, s, &env.principal)?,
        action: env.action.try_clone(alloc)?,
        resource: default_uid(alloc, s, &env.resource)?,
        context: default_context(alloc, s, env)?,
    })
}

/// The context of the requests of an environment, by default.
pub fn default_context(alloc: Global, s: &Schema, env: &Env) -> Result<Rec, AllocError>
    ensures { IfOk result (λ r. r ≡ defaults.default_fields s.now (schema.context_of s.now env.now.action)) }
{
    fields_of(alloc, s, context_of(s, &env.action))
}
