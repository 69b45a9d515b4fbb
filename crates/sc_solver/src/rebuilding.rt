//! The world that an assignment of the listed atoms stands for.
ghost use Rattle.std.specs.Prelude.{IfOk};
ghost use Rattle.std.specs.List.{AllByRecursion};
ghost use Rattle.std.specs.Str.{IsUtf8};
ghost use Rattle.sc_footprint.specs.Problems.{goal_term};
ghost use Rattle.sc_footprint.specs.Truths.{IsWorldOf, Satisfies};
ghost use Rattle.sc_model_consistency.specs.Models.{model};
ghost use Rattle.sc_model_laws.specs.Models.{IsModel};
ghost use Rattle.sc_solver.specs.Rebuilding.{IsConsistent, HasTruths};

use sc_clauses::Assignment;
use sc_footprint::Problem;
use sc_lists::Text;
use sc_model_consistency::{are_places_small, consistency_laws, model_laws};
use sc_model_laws::rebuilding_laws;
use sc_model_names::names_of;
use sc_model_world_laws::rebuilt_laws;
use sc_model_worlds::{given_of, request_of};
use sc_world::{World, world_with};
use std::alloc::{AllocError, Global};
use th_defs::defining_laws;

/// The world of an assignment with names for closed strings and entities.
fn world_of(
    alloc: Global,
    problem: &Problem<'_>,
    m: &Assignment,
    names: &[Text],
) -> Result<World, AllocError>
    requires consistent { IsConsistent problem.now m.now }
    requires named { IsModel problem.now.schema problem.now.env (goal_term problem.now)
        (model problem.now m.now names.now) }
    requires texts { AllByRecursion IsUtf8 names.now }
    ensures well_formed { IfOk result (IsWorldOf problem.now) }
    ensures truths { IfOk result (HasTruths problem.now m.now) }
    ensures satisfies { IfOk result (Satisfies problem.now) }
{
    problem.laws();
    defining_laws();
    rebuilding_laws();
    rebuilt_laws();
    let given = given_of(alloc, problem, m, names)?;
    let request = request_of(alloc, problem, m, names)?;
    world_with(alloc, problem.schema(), request, given, problem.lits())
}

/// The well-formed world in which each listed atom in which no member is picked has the truth that the
/// assignment gives it, so that the goal is true. What no closed term tells is as it is by default. Want
/// of memory is its one fault; a problem of which no log can write each place counts as such, since no
/// memory holds one.
pub fn rebuild(alloc: Global, problem: &Problem<'_>, m: &Assignment) -> Result<World, AllocError>
    requires consistent { IsConsistent problem.now m.now }
    ensures well_formed { IfOk result (IsWorldOf problem.now) }
    ensures truths { IfOk result (HasTruths problem.now m.now) }
    ensures satisfies { IfOk result (Satisfies problem.now) }
{
    problem.laws();
    consistency_laws();
    model_laws();
    if !are_places_small(problem) {
        return Err(AllocError);
    }
    let names = names_of(alloc, problem, m)?;
    world_of(alloc, problem, m, names.as_slice())
}
