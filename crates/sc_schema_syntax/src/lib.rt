//! The first pass over a schema file in Cedar's JSON schema format: what the file says, before any
//! name in it is looked up, or the first fault of its form.
#![tactic(auto)]

mod attribute;
mod building;
mod checking;
mod entries;
mod extension;
mod fault;
mod form;
mod law;
mod level;
mod member;
mod member_form;
mod pointer;
mod position;
mod reading;
mod type_word;
mod types;
mod written_action;
mod written_common_type;
mod written_entity_type;
mod written_namespace;
mod written_schema;
mod written_type;

pub use attribute::WrittenPresence;
pub use extension::ExtensionKind;
pub use fault::SchemaFault;
pub use law::syntax_laws;
pub use pointer::{under, under_item};
pub use reading::read_syntax;
pub use written_action::{WrittenAction, WrittenParent};
pub use written_common_type::WrittenCommonType;
pub use written_entity_type::WrittenEntityType;
pub use written_namespace::WrittenNamespace;
pub use written_schema::WrittenSchema;
pub use written_type::{WrittenAttributes, WrittenType};
