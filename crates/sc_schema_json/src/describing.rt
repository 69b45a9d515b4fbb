//! The schema that declarations describe, each name in them being known.
ghost use Rattle.std.specs.Prelude.{IfOk, IfErr};
ghost use Rattle.sc_schema.specs.Resolved.{IsResolved};
ghost use Rattle.sc_schema_types.specs.Orders.{IsOrder};
ghost use Rattle.sc_schema_types.specs.Types.{IsExpansion};
ghost use Rattle.sc_schema_json.specs.Above.{NoCycle};
ghost use Rattle.sc_schema_json.specs.Spelling.{links_of, IsAcyclic, Describes, RefusesOf};

use crate::building::declarations_of;
use crate::counting::has_more_environments;
use crate::cycle::least_cycle;
use crate::declared::Declared;
use crate::hierarchy_law::schema_laws;
use sc_lists::{Fault, Seq};
use sc_names::Name;
use sc_schema::{ExpandedSchema, ResolvedSchema, Schema};
use sc_schema_syntax::SchemaFault;
use sc_schema_types::{expand, order_types, type_laws};
use std::alloc::Global;

/// How many environments a schema may have.
const MAX_ENVIRONMENTS: u64 = 10_000;

/// The schema that declarations describe, or their first fault: a common type that reaches itself,
/// an action that is in itself, a type of the wrong form or size, or too many environments.
pub fn described(alloc: Global, resolved: &ResolvedSchema) -> Result<Schema, Fault<SchemaFault>>
    requires { IsResolved resolved.now }
    ensures ok { IfOk result (λ s. Describes resolved.now s) }
    ensures err { IfErr result (λ fault. RefusesOf resolved.now fault) }
{
    match order_types(alloc, resolved) {
        Ok(order) => ordered(alloc, resolved, &order),
        Err(fault) => Err(fault),
    }
}

/// The same, where the common types have an order.
fn ordered(
    alloc: Global,
    resolved: &ResolvedSchema,
    order: &Seq<Name>,
) -> Result<Schema, Fault<SchemaFault>>
    requires resolved { IsResolved resolved.now }
    requires ordered { IsOrder resolved.now order.now }
    ensures ok { IfOk result (λ s. Describes resolved.now s) }
    ensures err { IfErr result (λ fault. RefusesOf resolved.now fault) }
{
    match least_cycle(alloc, resolved)? {
        Some(uid) => Err(Fault::Told(SchemaFault::ActionCycle(uid))),
        None => acyclic(alloc, resolved, order),
    }
}

/// The same, where no action is in itself.
fn acyclic(
    alloc: Global,
    resolved: &ResolvedSchema,
    order: &Seq<Name>,
) -> Result<Schema, Fault<SchemaFault>>
    requires resolved { IsResolved resolved.now }
    requires ordered { IsOrder resolved.now order.now }
    requires actions { NoCycle (links_of resolved.now) }
    ensures ok { IfOk result (λ s. Describes resolved.now s) }
    ensures err { IfErr result (λ fault. RefusesOf resolved.now fault) }
{
    match expand(alloc, resolved, order.as_slice()) {
        Ok(expanded) => expanded_schema(alloc, resolved, expanded),
        Err(fault) => Err(fault),
    }
}

/// The schema of expanded declarations, unless it has too many environments.
fn expanded_schema(
    alloc: Global,
    resolved: &ResolvedSchema,
    expanded: ExpandedSchema,
) -> Result<Schema, Fault<SchemaFault>>
    requires resolved { IsResolved resolved.now }
    requires acyclic { IsAcyclic resolved.now }
    requires expansion { IsExpansion resolved.now expanded }
    ensures ok { IfOk result (λ s. Describes resolved.now s) }
    ensures err { IfErr result (λ fault. RefusesOf resolved.now fault) }
{
    type_laws();
    schema_laws();
    let Declared { types, actions } = declarations_of(alloc, expanded)?;
    if has_more_environments(actions.as_slice(), MAX_ENVIRONMENTS) {
        return Err(Fault::Told(SchemaFault::TooManyEnvironments));
    }
    Ok(Schema::new(alloc, types, actions)?)
}
