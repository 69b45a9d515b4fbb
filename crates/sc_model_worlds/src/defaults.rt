//! What is told of an entity or a request by default, by the sorts of its types.
ghost use Rattle.std.specs.Prelude.{◌≡◌, IfOk};
ghost use Rattle.sc_model_world_laws.specs.Rebuilt.{tag_default};
ghost use Rattle.sc_schema.specs.Declarations as declared;
ghost use Rattle.sc_schema.specs.Lawful.{IsTypeOf};
ghost use Rattle.sc_world.specs.Defaults as defaults;

use crate::values::record_of;
use sc_lists::Seq;
use sc_names::Name;
use sc_schema::{Schema, Ty, attrs_of, tags_of};
use sc_sorts::{default_of, sort_of};
use sc_term_laws::default_laws;
use sc_values::{Rec, Value};
use std::alloc::{AllocError, Global};

/// The default of a type of the schema, which is that of its sort.
fn default_value(alloc: Global, schema: &Schema, ty: &Ty) -> Result<Value, AllocError>
    requires { IsTypeOf schema.now ty.now }
    ensures { IfOk result (λ x. x ≡ defaults.default_value schema.now ty.now) }
{
    schema.laws();
    default_laws();
    let sort = sort_of(alloc, ty)?;
    default_of(alloc, &sort)
}

/// The attributes of an entity by default, by its type.
pub(crate) fn default_attributes(
    alloc: Global,
    schema: &Schema,
    name: &Name,
) -> Result<Rec, AllocError>
    ensures { IfOk result (λ r. r ≡ defaults.default_attrs schema.now name.now) }
{
    schema.laws();
    match attrs_of(schema, name) {
        Some(ty) => {
            let value = default_value(alloc, schema, ty)?;
            Ok(record_of(alloc, value))
        }
        None => Ok(Seq::new(alloc)),
    }
}

/// The tag of an entity by default, by its type; the empty record where it has no tags.
pub(crate) fn default_tag(alloc: Global, schema: &Schema, name: &Name) -> Result<Value, AllocError>
    ensures { IfOk result (λ x. x ≡ tag_default schema.now (declared.tags_of schema.now name.now)) }
{
    schema.laws();
    match tags_of(schema, name) {
        Some(ty) => default_value(alloc, schema, ty),
        None => Ok(Value::Record(Seq::new(alloc))),
    }
}
