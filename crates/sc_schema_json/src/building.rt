//! The entity types and actions of the schema that a file declares.
ghost use Rattle.std.specs.Prelude.{IfOk};
ghost use Rattle.sc_schema.specs.Expanded.{IsExpanded};
ghost use Rattle.sc_schema_json.specs.Above.{NoCycle};
ghost use Rattle.sc_schema_json.specs.Schemas.{action_links, declarations_view, IsSchemaOf};

use crate::actions::actions_of;
use crate::declared::Declared;
use crate::types::types_of;
use sc_schema::ExpandedSchema;
use std::alloc::{AllocError, Global};

/// The entity types in the order of their names and the actions in the order of their uids, each
/// with all that stands above it. An entity type may stand above itself, as in Cedar; no action
/// may.
pub fn declarations_of(alloc: Global, expanded: ExpandedSchema) -> Result<Declared, AllocError>
    requires expanded { IsExpanded expanded }
    requires acyclic { NoCycle (action_links expanded.actions) }
    ensures { IfOk result (λ d. IsSchemaOf expanded (declarations_view d)) }
{
    let ExpandedSchema {
        entity_types,
        actions,
    } = expanded;
    let types = types_of(alloc, entity_types)?;
    let actions = actions_of(alloc, actions)?;
    Ok(Declared { types, actions })
}
