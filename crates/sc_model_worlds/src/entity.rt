//! What is stored of an entity.
ghost use Rattle.std.specs.Prelude.{◌≡◌, IfOk};
ghost use Rattle.sc_model_worlds.specs.Listed.{AreListed};
ghost use Rattle.sc_model_values.specs.Models.{model};
ghost use Rattle.sc_model_world_laws.specs.Rebuilt.{data_of as data_said};

use crate::ancestors::ancestors_of;
use crate::attributes::attributes_of;
use crate::tags::tags_of;
use sc_clauses::Assignment;
use sc_footprint::Problem;
use sc_lists::Text;
use sc_names::Uid;
use sc_world::EntityData;
use std::alloc::{AllocError, Global};

/// What closed terms tell of an entity.
pub(crate) fn data_of(
    alloc: Global,
    problem: &Problem<'_>,
    m: &Assignment,
    names: &[Text],
    uid: &Uid,
    closed: &[u64],
) -> Result<EntityData, AllocError>
    requires listed { AreListed problem.now closed.now }
    requires all { closed.now ≡ problem.now.closed }
    ensures { IfOk result (λ e. e ≡ data_said problem.now.schema (model problem.now m.now names.now) uid.now) }
{
    let attrs = attributes_of(alloc, problem, m, names, uid, closed)?;
    let ancestors = ancestors_of(alloc, problem, m, names, uid, closed)?;
    let tags = tags_of(alloc, problem, m, names, uid, closed)?;
    Ok(EntityData {
        attrs,
        ancestors,
        tags,
    })
}
