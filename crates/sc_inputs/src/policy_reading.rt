//! Reads the policy files of a command.
ghost use Rattle.std.specs.Prelude.{◌≡◌, ◌<◌, ◌≤◌, ℕ, List, IfOk, IfErr, option_map};
ghost use Rattle.sc_outside.specs.Failures.{FailsAt};
ghost use Rattle.sc_ast.specs.declared.policy.Policy.{Policy as AnyPolicy};
ghost use Rattle.sc_inputs.specs.Readings.{FailsWith, RefusesSets, IsUnread};
ghost use Rattle.sc_inputs.specs.Refusals.{HasPolicies, HasAgainst, RefusesPolicies};
ghost use Rattle.sc_inputs.specs.View.{side_view};

use crate::files::{content_of, policies_in};
use crate::refusal::{FileName, Refusal, Side};
use sc_ast::PolicySet;
use sc_lists::Fault;
use sc_outside::Files;
use std::alloc::Global;

/// The policies of a set's file.
pub fn policies_of<F: Files>(
    alloc: Global,
    files: &mut F,
    name: &str,
    side: Side,
) -> Result<PolicySet, Fault<Refusal>>
    ensures reads { IfOk result (λ policies. HasPolicies (F.content files.old) name.now policies) }
    ensures fails { IfErr result (FailsWith (RefusesPolicies (F.content files.old) name.now (side_view side)
        (FailsAt F.Files files.old files.new))) }
    ensures keeps { (other : List ℕ) → F.content files.new other ≡ F.content files.old other }
    ensures later { F.faults files.old ≤ F.faults files.new }
    ensures told { F.faults files.old < F.faults files.new → IsUnread result }
{
    match content_of(alloc, files, name, FileName::Policies(side)) {
        Ok(bytes) => policies_in(alloc, &bytes, side),
        Err(fault) => Err(fault),
    }
}

/// The policies that the first set is compared with, where there are any.
fn others_of<F: Files>(
    alloc: Global,
    files: &mut F,
    name: Option<&str>,
) -> Result<Option<PolicySet>, Fault<Refusal>>
    ensures reads { IfOk result (HasAgainst (F.content files.old) (option_map (λ n. n.now) name.entry)) }
    ensures fails { IfErr result (λ fault. (file : List ℕ) (ps : List AnyPolicy)
        → HasPolicies (F.content files.old) file ps
        → FailsWith (RefusesSets (F.content files.old) file (option_map (λ n. n.now) name.entry)
        (FailsAt F.Files files.old files.new)) fault) }
    ensures keeps { (other : List ℕ) → F.content files.new other ≡ F.content files.old other }
    ensures later { F.faults files.old ≤ F.faults files.new }
    ensures told { F.faults files.old < F.faults files.new → IsUnread result }
{
    match name {
        None => Ok(None),
        Some(name) => match policies_of(alloc, files, name, Side::Against) {
            Ok(policies) => Ok(Some(policies)),
            Err(fault) => Err(fault),
        },
    }
}

/// The policies of one file or of two.
pub fn sets_of<F: Files>(
    alloc: Global,
    files: &mut F,
    policies: &str,
    against: Option<&str>,
) -> Result<(PolicySet, Option<PolicySet>), Fault<Refusal>>
    ensures first { IfOk result (λ sets. HasPolicies (F.content files.old) policies.now sets.0) }
    ensures second { IfOk result (λ sets. HasAgainst (F.content files.old)
        (option_map (λ n. n.now) against.entry) sets.1) }
    ensures fails { IfErr result (FailsWith (RefusesSets (F.content files.old) policies.now (option_map
        (λ n. n.now) against.entry) (FailsAt F.Files files.old files.new))) }
    ensures keeps { (other : List ℕ) → F.content files.new other ≡ F.content files.old other }
    ensures later { F.faults files.old ≤ F.faults files.new }
    ensures told { F.faults files.old < F.faults files.new → IsUnread result }
{
    match policies_of(alloc, files, policies, Side::Policies) {
        Ok(policies) => match others_of(alloc, files, against) {
            Ok(others) => Ok((policies, others)),
            Err(fault) => Err(fault),
        },
        Err(fault) => Err(fault),
    }
}
