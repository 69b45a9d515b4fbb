//! Checks the policies of a command.
ghost use Rattle.std.specs.Prelude.{◌≡◌, None, OnOk, IfErr, option_map};
ghost use Rattle.sc_typing.specs.Checking.{type_fault};
ghost use Rattle.sc_typing.specs.Names.{name_fault};
ghost use Rattle.sc_inputs.specs.Readings.{Checks, FailsWith};
ghost use Rattle.sc_inputs.specs.Refusals.{names_fault, types_fault, AreServed, HasEnvironment, RefusesPlace, RefusesQuestion, unknown_name, ill_typed};
ghost use Rattle.sc_inputs.specs.Serving.{aim_view, place_in};
ghost use Rattle.sc_inputs.specs.View.{side_view};

use crate::refusal::{Refusal, Side};
use crate::serving::Aim;
use sc_ast::PolicySet;
use sc_lists::Fault;
use sc_schema::{Schema, environments};
use sc_typing::{check_names, check_types};
use std::alloc::Global;

/// Checks that the policies of a set write declared names alone.
pub fn check_declared(
    schema: &Schema,
    policies: &PolicySet,
    side: Side,
) -> Result<(), Fault<Refusal>>
    ensures { Checks (name_fault schema.now policies.now) (unknown_name (side_view side)) result }
{
    match check_names(schema, policies) {
        Ok(()) => Ok(()),
        Err(fault) => Err(Fault::Told(Refusal::UnknownName(side, fault))),
    }
}

/// Checks that the policies of a set are typed in each environment.
#[tactic(auto, using(sc_typing::proofs::CheckingLaws::none_where_passed, sc_typing::proofs::CheckingLaws::some_where_refused))]
fn check_typed(
    alloc: Global,
    schema: &Schema,
    policies: &PolicySet,
    side: Side,
) -> Result<(), Fault<Refusal>>
    ensures { Checks (type_fault schema.now policies.now) (ill_typed (side_view side)) result }
{
    match check_types(alloc, schema, policies) {
        Ok(()) => Ok(()),
        Err(Fault::Told(fault)) => Err(Fault::Told(Refusal::IllTyped(side, fault))),
        Err(Fault::NoMemory) => Err(Fault::NoMemory),
    }
}

/// Checks that the policies of both sets write declared names alone.
fn declared(
    schema: &Schema,
    policies: &PolicySet,
    against: Option<&PolicySet>,
) -> Result<(), Fault<Refusal>>
    ensures { Checks (names_fault schema.now policies.now (option_map (λ ps. ps.now) against.entry))
        (λ x. unknown_name x.0 x.1) result }
{
    match check_declared(schema, policies, Side::Policies) {
        Ok(()) => match against {
            Some(others) => check_declared(schema, others, Side::Against),
            None => Ok(()),
        },
        Err(fault) => Err(fault),
    }
}

/// Checks that the policies of both sets are typed in each environment.
fn typed(
    alloc: Global,
    schema: &Schema,
    policies: &PolicySet,
    against: Option<&PolicySet>,
) -> Result<(), Fault<Refusal>>
    ensures { Checks (types_fault schema.now policies.now (option_map (λ ps. ps.now) against.entry))
        (λ x. ill_typed x.0 x.1) result }
{
    match check_typed(alloc, schema, policies, Side::Policies) {
        Ok(()) => match against {
            Some(others) => check_typed(alloc, schema, others, Side::Against),
            None => Ok(()),
        },
        Err(fault) => Err(fault),
    }
}

/// Checks the policies of a question: the names of both sets, then their types.
pub fn check_question(
    alloc: Global,
    schema: &Schema,
    policies: &PolicySet,
    against: Option<&PolicySet>,
) -> Result<(), Fault<Refusal>>
    ensures ok { OnOk result (AreServed schema.now policies.now (option_map (λ ps. ps.now) against.entry)) }
    ensures fails { IfErr result (FailsWith (RefusesQuestion schema.now policies.now (option_map
        (λ ps. ps.now) against.entry))) }
{
    match declared(schema, policies, against) {
        Ok(()) => typed(alloc, schema, policies, against),
        Err(fault) => Err(fault),
    }
}

/// The place of the environment that is named, where one is.
fn place_in(aim: Aim<'_>) -> Option<u64>
    ensures { result ≡ place_in (aim_view aim.entry) }
{
    match aim {
        Aim::Report(_) => None,
        Aim::Reduce(_) => None,
        Aim::Log(_, place) => Some(u64::from(place)),
        Aim::Check(place, _) => Some(u64::from(place)),
    }
}

/// Checks that the schema has the environment that is named, where one is.
pub fn check_place(schema: &Schema, aim: Aim<'_>) -> Result<(), Fault<Refusal>>
    ensures ok { OnOk result (HasEnvironment schema.now (aim_view aim.entry)) }
    ensures fails { IfErr result (FailsWith (RefusesPlace schema.now (aim_view aim.entry))) }
{
    let Some(place) = place_in(aim) else {
        return Ok(());
    };
    let count = environments(schema).len() as u64;
    if place < count {
        return Ok(());
    }
    Err(Fault::Told(Refusal::NoEnvironment(place, count)))
}
