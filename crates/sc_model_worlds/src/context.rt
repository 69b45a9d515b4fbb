//! The context that closed terms tell.
ghost use Rattle.std.specs.Prelude.{◌≡◌, map, unwrap_or, IfOk};
ghost use Rattle.sc_model_worlds.specs.Listed.{AreListed};
ghost use Rattle.sc_model_values.specs.Models.{model};
ghost use Rattle.sc_model_world_laws.specs.Rebuilt.{context_said, first_said};
ghost use Rattle.sc_schema.specs.Declarations as declared;
ghost use Rattle.sc_terms.specs.Tables.{tree};
ghost use Rattle.sc_world.specs.Defaults.{default_fields};

use crate::saying::first;
use crate::sought::Sought;
use crate::values::record_at;
use sc_clauses::Assignment;
use sc_footprint::Problem;
use sc_lists::Text;
use sc_values::Rec;
use sc_world::default_context;
use std::alloc::{AllocError, Global};

/// The context of the request, by the first of some closed terms that tells it; by default where
/// none does.
pub(crate) fn context_of(
    alloc: Global,
    problem: &Problem<'_>,
    m: &Assignment,
    names: &[Text],
    closed: &[u64],
) -> Result<Rec, AllocError>
    requires { AreListed problem.now closed.now }
    ensures { IfOk result (λ r. r ≡ unwrap_or
        (first_said (context_said (model problem.now m.now names.now)) (map (tree problem.now.nodes) closed.now))
        (default_fields problem.now.schema (declared.context_of problem.now.schema problem.now.env.action))) }
{
    let sought = Sought::Context;
    let found = first(problem, names, &sought, closed);
    match found {
        Some(term) => record_at(alloc, problem, m, names, term),
        None => default_context(alloc, problem.schema(), problem.env()),
    }
}
