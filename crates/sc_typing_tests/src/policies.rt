//! The first policy that has no type in some environment, or none.
use crate::samples::{at, policies, schema};
use sc_ast::PolicySet;
use sc_lists::Fault;
use sc_schema::{Env, Schema};
use sc_typing::{IllTyped, TypeFault, TypeRule, check_types};
use std::alloc::Global;

/// A policy with a type, and one whose branches are of two kinds.
const TWO_KINDS: &str =
    "permit(principal, action, resource) when { Shop::Action::\"buy\" in [Action::\"view\", Team::\"t\"] };
permit(principal, action, resource) when { if context.mfa then 1 else \"a\" };";

/// Of documents nothing is asked; of other resources what teams don't have.
const NICK: &str =
    "permit(principal, action, resource) when { resource is Doc || principal.nick == \"a\" };";

/// What only users have is asked of them alone.
const OF_USERS: &str =
    "permit(principal is User, action, resource) when { principal has nick && principal.nick == \"a\" };";

/// The policy of a file that has no type, its fault, and the types of the principal and the resource for
/// which it has none.
type Told = (usize, TypeFault, (&'static str, &'static str));

/// Whether it is the environment in which a principal of a type views a resource of a type.
fn is_viewed(env: &Env, (principal, resource): (&str, &str)) -> bool {
    env.principal.as_str() == principal
        && env.action.id.as_str() == "view"
        && env.resource.as_str() == resource
}

fn is_found(found: &IllTyped, told: Option<Told>) -> bool {
    match told {
        Some((policy, fault, env)) => {
            found.policy == policy && found.fault == fault && is_viewed(&found.env, env)
        }
        None => false,
    }
}

fn is_told_of(alloc: Global, schema: &Schema, policies: &PolicySet, told: Option<Told>) -> bool {
    match check_types(alloc, schema, policies) {
        Ok(()) => told.is_none(),
        Err(Fault::Told(found)) => is_found(&found, told),
        Err(Fault::NoMemory) => false,
    }
}

fn is_told_under(alloc: Global, schema: &Schema, file: &str, told: Option<Told>) -> bool {
    match policies(alloc, file) {
        Ok(policies) => is_told_of(alloc, schema, &policies, told),
        Err(_) => false,
    }
}

/// Whether this is told of the first of a file's policies that has no type in some environment, or each
/// has one in all where nothing is told.
fn is_told(alloc: Global, file: &str, told: Option<Told>) -> bool {
    match schema(alloc) {
        Ok(schema) => is_told_under(alloc, &schema, file, told),
        Err(_) => false,
    }
}

/// The fault of a policy that breaks a rule at a byte.
fn fault(rule: TypeRule, offset: u64) -> TypeFault {
    TypeFault {
        rule,
        at: at(offset),
    }
}

#[test]
fn policies_without_a_type(rt: HostRuntime) {
    let alloc = rt.alloc();
    let kinds = (1, fault(TypeRule::NoJoin, 140), ("Team", "Doc"));
    assert!(rt; is_told(alloc, TWO_KINDS, Some(kinds)));
    let nick = (0, fault(TypeRule::NoAttribute, 71), ("Team", "Team"));
    assert!(rt; is_told(alloc, NICK, Some(nick)));
}

#[test]
fn policies_with_types(rt: HostRuntime) {
    assert!(rt; is_told(rt.alloc(), OF_USERS, None));
}
