//! Whether a request is one of an environment.
ghost use Rattle.std.specs.Prelude.{◌↔◌, IsTrue, IsSomeAnd};
ghost use Rattle.sc_schema.specs.Declarations.{context_of};
ghost use Rattle.sc_values.specs.declared.value.Value.TheVariants.{Record};
ghost use Rattle.sc_world.specs.Conforms as of_type;
ghost use Rattle.sc_world.specs.Tests.{IsEnvironmentOf};
ghost use Rattle.sc_world.specs.WellFormed.{IsRequestOf};

use crate::choices::is_choice_of_type;
use crate::conformance::record_conforms;
use crate::uids::{is_named, is_same};
use crate::world::Request;
use sc_names::Uid;
use sc_schema::{Env, Schema, context_of};
use sc_values::Rec;

/// Whether a request has the environment's types and action, a principal and a resource that are choices where their
/// types are enumerated, and a context of the action's type.
pub fn is_request_of(s: &Schema, env: &Env, r: &Request) -> bool
    ensures { IsTrue result ↔ IsRequestOf s.now env.now r.now }
{
    if !is_environment_of(r, env) {
        return false;
    }
    let principal = is_choice_of_type(s, &r.principal);
    let resource = is_choice_of_type(s, &r.resource);
    let context = is_context_of(s, &env.action, &r.context);
    principal && resource && context
}

fn is_environment_of(r: &Request, env: &Env) -> bool
    ensures { IsTrue result ↔ IsEnvironmentOf r.now env.now }
{
    let principal = is_named(&r.principal, &env.principal);
    let action = is_same(&r.action, &env.action);
    let resource = is_named(&r.resource, &env.resource);
    principal && action && resource
}

fn is_context_of(s: &Schema, action: &Uid, context: &Rec) -> bool
    ensures { IsTrue result ↔ IsSomeAnd (context_of s.now action.now) (λ t. IsTrue (of_type.conforms t
        (Record context.now))) }
{
    match context_of(s, action) {
        Some(ty) => record_conforms(context, ty),
        None => false,
    }
}
