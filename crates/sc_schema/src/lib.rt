//! Schemas: types, entity types, actions and the environments of requests; and what a schema file declares, each
//! name in it looked up, with common types as they are named or written out.
#![tactic(auto)]

mod declarations;
mod expanded;
mod fields;
mod index;
mod law;
mod place;
mod resolved_action;
mod resolved_common_type;
mod resolved_entity_type;
mod resolved_namespace;
mod resolved_schema;
mod resolved_type;
mod schema;
mod ty;

pub use declarations::{Action, EntityType, Env};
pub use expanded::{ExpandedAction, ExpandedEntityType, ExpandedSchema};
pub use fields::Fields;
pub use law::{lookup_laws, order_laws, size_laws};
pub use resolved_action::ResolvedAction;
pub use resolved_common_type::ResolvedCommonType;
pub use resolved_entity_type::ResolvedEntityType;
pub use resolved_namespace::ResolvedNamespace;
pub use resolved_schema::ResolvedSchema;
pub use resolved_type::{ResolvedAttributes, ResolvedType};
pub use schema::{
    Schema, action_ancestors, actions, ancestor_types, attrs_of, choices_of, context_of,
    entity_types, environments, is_action_type, kind_of, no_attributes, tags_of,
};
pub use ty::{Attributes, Choices, EntityKind, Presence, Ty};
