//! What policy sets decide in the world of one request.
use crate::samples::{policies, world};
use sc_ast::PolicySet;
use sc_auth::{Decision, Response, authorise};
use sc_world::World;
use std::alloc::Global;

/// A decision, the places of the policies by which it is made, and of those that err.
#[derive(Clone, Copy)]
struct Told {
    decision: Decision,
    determining: &'static [usize],
    erroring: &'static [usize],
}

fn is_told(response: &Response, told: Told) -> bool {
    response.decision == told.decision
        && response.determining.as_slice() == told.determining
        && response.erroring.as_slice() == told.erroring
}

fn is_answered(alloc: Global, policies: &PolicySet, world: &World, told: Told) -> bool {
    match authorise(alloc, policies, world) {
        Ok(response) => is_told(&response, told),
        Err(_) => false,
    }
}

fn is_answered_in_world(alloc: Global, policies: &PolicySet, told: Told) -> bool {
    match world(alloc) {
        Some(world) => is_answered(alloc, policies, &world, told),
        None => false,
    }
}

/// Whether the policies of a file are read and answer this in that world.
fn answers(alloc: Global, file: &str, told: Told) -> bool {
    match policies(alloc, file) {
        Some(policies) => is_answered_in_world(alloc, &policies, told),
        None => false,
    }
}

/// Files, the decision on their policies, those by which it is made, and those that err.
const FILES: &[(&str, Decision, &[usize], &[usize])] = &[
    ("", Decision::Deny, &[], &[]),
    (
        "permit(principal, action, resource) when { context.mfa };
        permit(principal is Doc, action, resource);
        permit(principal, action, resource);",
        Decision::Allow,
        &[0, 2],
        &[],
    ),
    (
        "permit(principal, action, resource);
        permit(principal, action, resource) when { 1 };
        forbid(principal, action, resource) unless { false };",
        Decision::Deny,
        &[2],
        &[1],
    ),
];

#[test]
fn decisions(rt: HostRuntime) {
    for &(file, decision, determining, erroring) in FILES {
        let told = Told {
            decision,
            determining,
            erroring,
        };
        assert!(rt; answers(rt.alloc(), file, told), "{file}");
    }
}
