//! The first name of policies that isn't declared, or none.
use crate::samples::{at, policies, schema};
use sc_ast::PolicySet;
use sc_typing::{NameFault, NameKind, check_names};
use std::alloc::Global;

/// A policy whose names are declared.
const DECLARED: &str =
    "permit(principal, action, resource) when { Shop::Action::\"buy\" in [Action::\"view\", Team::\"t\"] };";

/// The same, and one whose action isn't declared.
const SECOND: &str =
    "permit(principal, action, resource) when { Shop::Action::\"buy\" in [Action::\"view\", Team::\"t\"] };
permit(principal, action == Action::\"edit\", resource);";

fn is_told_of(alloc: Global, policies: &PolicySet, told: Option<NameFault>) -> bool {
    match schema(alloc) {
        Ok(schema) => check_names(&schema, policies).err() == told,
        Err(_) => false,
    }
}

/// Whether this is the first undeclared name of the policies of a file, or all are declared where none
/// is told.
fn is_told(alloc: Global, file: &str, told: Option<NameFault>) -> bool {
    match policies(alloc, file) {
        Ok(policies) => is_told_of(alloc, &policies, told),
        Err(_) => false,
    }
}

/// Files, and of their first undeclared name the kind, the policy and the byte at which it stands.
const UNDECLARED: &[(&str, NameKind, usize, u64)] = &[
    (
        "permit(principal, action, resource) when { false && principal == Robot::\"r\" };",
        NameKind::UnknownEntityType,
        0,
        65,
    ),
    (
        "permit(principal, action == Action::\"edit\", resource) when { true };",
        NameKind::UnknownAction,
        0,
        28,
    ),
    (
        "permit(principal, action, resource) when { principal is Some::Action };",
        NameKind::UnknownEntityType,
        0,
        56,
    ),
    (SECOND, NameKind::UnknownAction, 1, 125),
];

#[test]
fn names_that_are_not_declared(rt: HostRuntime) {
    for &(file, kind, policy, offset) in UNDECLARED {
        let place = at(offset);
        let told = NameFault {
            kind,
            policy,
            place,
        };
        assert!(rt; is_told(rt.alloc(), file, Some(told)), "{file}");
    }
}

#[test]
fn names_that_are_declared(rt: HostRuntime) {
    assert!(rt; is_told(rt.alloc(), DECLARED, None));
}
