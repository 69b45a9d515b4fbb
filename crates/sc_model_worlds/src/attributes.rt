//! The attributes that closed terms tell of an entity.
ghost use Rattle.std.specs.Prelude.{◌≡◌, map, unwrap_or, IfOk, IfSome};
ghost use Rattle.sc_model_worlds.specs.Listed.{AreListed, IsListed};
ghost use Rattle.sc_model_worlds.specs.Saying.{first_saying};
ghost use Rattle.sc_model_worlds.specs.declared.sought.Sought.TheVariants.{Attributes};
ghost use Rattle.sc_model_values.specs.Models.{model};
ghost use Rattle.sc_model_world_laws.specs.Rebuilt.{attributes_said, first_said};
ghost use Rattle.sc_terms.specs.Tables.{tree};
ghost use Rattle.sc_world.specs.Defaults.{default_attrs};

use crate::defaults::default_attributes;
use crate::saying::first;
use crate::sought::Sought;
use crate::values::record_at;
use sc_clauses::Assignment;
use sc_footprint::Problem;
use sc_lists::Text;
use sc_names::Uid;
use sc_values::Rec;
use std::alloc::{AllocError, Global};

/// The first of some closed terms that is the attributes of an entity.
fn attributes_among(
    alloc: Global,
    problem: &Problem<'_>,
    names: &[Text],
    uid: &Uid,
    closed: &[u64],
) -> Result<Option<u64>, AllocError>
    requires { AreListed problem.now closed.now }
    ensures value { IfOk result (λ o. o ≡ first_saying problem.now names.now (Attributes uid.now) closed.now) }
    ensures listed { IfOk result (λ o. IfSome o (IsListed problem.now)) }
{
    let sought = Sought::Attributes(uid.try_clone(alloc)?);
    Ok(first(problem, names, &sought, closed))
}

/// The attributes of an entity, by the first of some closed terms that tells them; by default where
/// none does.
pub(crate) fn attributes_of(
    alloc: Global,
    problem: &Problem<'_>,
    m: &Assignment,
    names: &[Text],
    uid: &Uid,
    closed: &[u64],
) -> Result<Rec, AllocError>
    requires { AreListed problem.now closed.now }
    ensures { IfOk result (λ r. r ≡ unwrap_or
        (first_said (attributes_said (model problem.now m.now names.now) uid.now)
        (map (tree problem.now.nodes) closed.now))
        (default_attrs problem.now.schema uid.now.type_name)) }
{
    let found = attributes_among(alloc, problem, names, uid, closed)?;
    match found {
        Some(term) => record_at(alloc, problem, m, names, term),
        None => default_attributes(alloc, problem.schema(), &uid.type_name),
    }
}
